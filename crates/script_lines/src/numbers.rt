// The first script of a file in two numbers, as C takes it.
ghost use Rattle.std.specs.Prelude.{◌≡◌};
ghost use Rattle.script_lines.specs.Lines.{following_script};
ghost use Rattle.script_lines.specs.Scanning.{found_of};
ghost use Rattle.script_lines.specs.Numbers.{cut_at, script_answer};

// What a search for the first script of a file answers. Found 1: length is the first script's. Found 0: there is no check-sat line, and length
// is 0.
#[repr(C)]
#[derive(Clone, Copy)]
pub struct ScriptAnswer {
    pub found: u64,
    pub length: u64,
}

// Ruled out: a script told where there is none; a length of 0 for a script.
impl From<Option<usize>> for ScriptAnswer {
    ghost from_gives = { λ o a. cut_at a ≡ script_answer (found_of o) };

    fn from(o: Option<usize>) -> ScriptAnswer {
        match o {
            Some(m) => ScriptAnswer {
                found: 1,
                length: m as u64,
            },
            None => ScriptAnswer {
                found: 0,
                length: 0,
            },
        }
    }
}

// The length of the first script, up to and with its check-sat line. Ruled out: a script told where there is none; a length of 0 for a script.
pub fn first_script(file: &[u8]) -> ScriptAnswer
    ensures { cut_at result ≡ script_answer (following_script file.now) }
{
    ScriptAnswer::from(crate::next_script(file))
}
