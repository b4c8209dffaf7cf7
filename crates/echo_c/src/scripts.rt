// The first script in a file of scripts end to end, for C.
ghost use Rattle.std.specs.Prelude.{◌≡◌};
ghost use Rattle.script_lines.specs.Lines.{following_script};
ghost use Rattle.script_lines.specs.Numbers.{cut_at, script_answer};

use script_lines::numbers::ScriptAnswer;

// The length of the first script, up to and with its check-sat line.
#[unsafe(no_mangle)]
pub extern "C" fn next_script(file: &[u8]) -> ScriptAnswer
    ensures { cut_at result ≡ script_answer (following_script file.now) }
{
    script_lines::numbers::first_script(file)
}
