// Which functions the assertions of a script call: the names between bars in their bytes, each looked up.
// Under "Ruled out" stand wrong programs that a public function's contract refuses.
#![tactic(auto)]

ghost use Rattle.std.specs.Prelude.{◌≡◌, List, ℕ, ◌-◌, ◌≤◌, ◌<◌, length, get_or, true, false};
ghost use Rattle.reading.specs.Trees.{Tree, Declarations};
ghost use Rattle.script_names.specs.declared.Table.{Table};
ghost use Rattle.readback.specs.Rebuild.{function_number};
ghost use Rattle.readback.specs.ScriptReader.{trees_from};
ghost use Rattle.script_tokens.specs.Reached.{between};
ghost use Rattle.script_names.specs.Entries.{Named};
ghost use Rattle.script_entries.specs.Entries.{Known, Declares};
ghost use Rattle.header_laws.specs.Body.{AssertionsAt};
ghost use Rattle.script_calls.specs.Flags.{Flagged};
ghost use Rattle.script_calls.specs.Scan.{marked};

use script_entries::{Entry, Script};
use script_header::Header;
use script_tokens::name_end;

// How many functions have a flag: as many as a script may have.
pub const FLAGS: usize = refusals::MAX_ENTRIES;

// The name from place a on, up to and with its bar before place f: where it is a function's, that function is flagged.
fn flag_name(script: &Script, a: usize, f: usize, flags: &mut [bool; FLAGS])
    requires { ((D : Declarations) × Declares script.now D) × Named script.now.text.now a f }
    ensures { (D : Declarations) → Declares script.now D
        → flags.new ≡ marked (function_number D (between script.now.text.now a (f - 1))) flags.old }
{
    let Some(Entry::Function(g, _)) = script.entry_of(a, f) else {
        return;
    };
    if g < FLAGS {
        flags[g] = true;
    }
}

// How many functions have a flag, of those that the header tells.
fn flag_count(h: &Header) -> usize
    ensures { (result ≤ FLAGS) × ((D : Declarations) (s : List ℕ) (t : Table) → Known s t h.now D → (g : ℕ) → g < FLAGS → g < length D.functions → g < result) }
{
    h.names.saturating_sub(h.arrays).min(FLAGS)
}

// The first of n functions from number `from` on that has no flag, or n.
fn unflagged_from(flags: &[bool; FLAGS], from: usize, n: usize) -> usize
    requires { (from ≤ n) × (n ≤ FLAGS) }
    ensures { (result ≤ n) × ((g : ℕ) → g < result → from ≤ g → get_or flags.now g false ≡ true) }
{
    // Kept: `position` in `flags[from..n]` was tried. It leaves two goals about places of that part, where this loop leaves none.
    for g in from..n {
        if !flags[g] {
            return g;
        }
    }
    n
}

// The functions that the assertions from place `from` on call are flagged; the search ends where every function is. Ruled out: a flag for a
// function that stands only in the declarations; none for one that stands without arguments; a flag for a variable of the same number.
pub fn called_in(script: &Script, from: usize) -> [bool; FLAGS]
    requires { ((D : Declarations) × Declares script.now D) × (from ≤ length script.now.text.now) }
    ensures { (D : Declarations) (ts : List Tree) → Declares script.now D → AssertionsAt script.now.text.now D from ts
        → Flagged D (trees_from ts) result }
{
    let mut flags = [false; FLAGS];
    let n = flag_count(&script.header);
    let mut p = from;
    let mut done = 0;
    // Kept: each name tells where the next one may begin, and none is looked for once every function is flagged.
    while done < n {
        let Some(a) = name_end(script.text, p) else {
            return flags;
        };
        let Some(f) = name_end(script.text, a) else {
            return flags;
        };
        flag_name(script, a, f, &mut flags);
        p = f;
        done = unflagged_from(&flags, done, n);
    }
    flags
}
