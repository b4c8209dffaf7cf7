// Whether a script has a reading: its header, its assertions and its last line. It fills the table of names, and writes
// nothing else.
// Under "Ruled out" stand wrong programs that a public function's contract refuses.
#![tactic(auto)]

ghost use Rattle.std.specs.Prelude.{◌≡◌, ℕ, ◌≤◌, length, drop};
ghost use Rattle.std.proofs.Math.Option.{none};
ghost use Rattle.reading.specs.Trees.{Declarations};
ghost use Rattle.readback.specs.ScriptReader.{read_assertion};
ghost use Rattle.script_names.specs.Entries.{Empty};
ghost use Rattle.script_entries.specs.Entries.{Declares};
ghost use Rattle.script_check.specs.Check.{TopTo, BodyTo, EndsTo};
ghost use Rattle.script_check.specs.Steps.{Going};

use script_entries::Script;
use script_header::{Header, header_at_start};
use script_names::Table;
use script_terms::sort_at;
use script_tokens::literal;

// The last line and nothing after it, where no assertion follows. Ruled out: one that takes the first word of the line for the line; one that
// leaves bytes after it.
pub fn last_line(s: &[u8], p: usize) -> bool
    requires { p ≤ length s.now }
    ensures { (D : Declarations) (from n : ℕ) → from ≤ length s.now → Going s.now D from p n → read_assertion D (drop p s.now) ≡ none → EndsTo s.now D from n result }
{
    literal(s, p, b"(check-sat)\n") == Some(s.len())
}

// How many assertions stand from place `from` on, each a Bool, with the last line after them. Ruled out: one that takes an assertion that is no
// Bool; one that counts one assertion too few.
pub fn assertions(script: &Script, from: usize) -> Option<usize>
    requires { ((D : Declarations) × Declares script.now D) × (from ≤ length script.now.text.now) }
    ensures { (D : Declarations) → Declares script.now D → BodyTo script.now.text.now D from result }
{
    let mut p = from;
    let mut n: usize = 0;
    // Kept: each assertion tells where the next begins. The loop of `place_script` places the terms that this one only sorts.
    while let Some(a) = literal(script.text, p, b"(assert ") {
        let term = sort_at(script, a)?;
        if term.sort != 0 {
            return None;
        }
        let z = literal(script.text, term.end, b")\n")?;
        n += 1;
        p = z;
    }
    last_line(script.text, p).then_some(n)
}

// The header: its names are in the table, and what each line declares; or that there is none. Ruled out: numbers that leave a table out; a place
// before the header's last line.
// Kept: one call, which says of the header what the terms are checked by.
pub fn check_header(s: &[u8], t: &mut Table) -> Option<Header>
    requires { Empty t.old }
    ensures { TopTo s.now t.new result }
{
    header_at_start(s, t)
}
