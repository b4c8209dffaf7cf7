// The lines of a script before its assertions: the logic and the declarations.
// Under "Ruled out" stand wrong programs that a public function's contract refuses.
#![tactic(auto)]

ghost use Rattle.std.specs.Prelude.{◌≡◌, ℕ, Bool, ◌≤◌, length, drop};
ghost use Rattle.lists.specs.Tests.{same};
ghost use Rattle.script_tokens.specs.Reached.{between};
ghost use Rattle.script_names.specs.Entries.{Empty};
ghost use Rattle.script_header.specs.Header.{ends_logic, begun, logic_for, HeaderTo, HeaderNoted};

use echo_names::same_bytes;
use script_decls::{Stage, read_lines};
use script_names::{Declared, Table};
use script_tokens::{Ending, literal, stretch_end};

// Where the declarations begin; how many variables there are, how many variables and arrays, how many names in all; where they end.
// Kept: lines are numbered through the three kinds, so a line's kind is told by comparing its number with these, and counts would be added up.
// The count of a kind is a difference of two, which contracts have too, and a method would say no more than that.
#[derive(Clone, Copy, Debug, PartialEq, Eq)]
pub struct Header {
    pub first: usize,
    pub variables: usize,
    pub arrays: usize,
    pub names: usize,
    pub end: usize,
}

// A closing bracket, which ends the logic.
struct Bracket;

impl Ending for Bracket {
    ghost ends = { ends_logic };

    fn ends(c: u8) -> bool {
        c == b')'
    }
}

// The logic of so many functions and arrays.
#[tactic(auto, unfolding(lists::specs::Bytes::bytes, crate::specs::Header::logic_for))]
fn logic_for(functions: usize, arrays: usize) -> &'static [u8]
    ensures { result.now ≡ logic_for functions arrays }
{
    match (functions, arrays) {
        (0, 0) => b"QF_BV",
        (0, _) => b"QF_ABV",
        _ => b"QF_AUFBV",
    }
}

// Is this part of the script the logic of so many functions and arrays?
fn logic_is(s: &[u8], a: usize, e: usize, functions: usize, arrays: usize) -> bool
    requires { (a ≤ e) × (e ≤ length s.now) }
    ensures { result ≡ same (between s.now a e) (logic_for functions arrays) }
{
    same_bytes(&s[a..e], logic_for(functions, arrays))
}

// Does an assertion or the last line begin here?
// Kept: each reader of a line has the line's word in its own contract, and a function for a word would say no more than `literal` does.
fn has_begun(s: &[u8], at: usize) -> bool
    requires { at ≤ length s.now }
    ensures { result ≡ begun (drop at s.now) }
{
    literal(s, at, b"(assert ").is_some() || literal(s, at, b"(check-sat)\n").is_some()
}

// The logic and the declarations from place `at` on; the table has every name, and what each line declares.
fn read_header(s: &[u8], t: &mut Table, at: usize) -> Option<Header>
    requires { (at ≤ length s.now) × Empty t.old }
    ensures header { HeaderTo s.now at t.new result }
    ensures noted { HeaderNoted s.now t.new result }
{
    let p = literal(s, at, b"(set-logic ")?;
    let z = stretch_end::<Bracket>(s, p);
    let first = literal(s, z, b")\n")?;
    let mut lines = Declared { first, count: 0 };
    let variables = read_lines(Stage::Variables, s, t, lines, first)?;
    lines.count = variables.names;
    let arrays = read_lines(Stage::Arrays, s, t, lines, variables.end)?;
    lines.count = arrays.names;
    let functions = read_lines(Stage::Functions, s, t, lines, arrays.end)?;
    if !logic_is(
        s,
        p,
        z,
        functions.names - arrays.names,
        arrays.names - variables.names,
    ) {
        return None;
    }
    if !has_begun(s, functions.end) {
        return None;
    }
    Some(Header {
        first,
        variables: variables.names,
        arrays: arrays.names,
        names: functions.names,
        end: functions.end,
    })
}

// ---------------------------------------------------------------- the script and the place reached

// The bytes of a script, and how far they are read: two methods over the work above, which is on a slice and a number.
// Kept: the form in which the users asked for it (docs/DECISIONS.md).
#[derive(Clone, Copy)]
pub struct Reader<'a> {
    pub src: &'a [u8],
    pub at: usize,
}

impl<'a> Reader<'a> {
    // Ruled out: a reader that begins after the first byte; one over other bytes.
    pub fn new(src: &'a [u8]) -> Reader<'a>
        ensures { (result.src ≡ src.entry) × (result.at ≡ 0) }
    {
        Reader { src, at: 0 }
    }

    // The header from the reader's place on, and the place after it. Ruled out: the header read at the start, wherever the reader is.
    pub fn read_header(self, t: &mut Table) -> Option<Header>
        requires { (self.at ≤ length self.src.now) × Empty t.old }
        ensures header { HeaderTo self.entry.src.now self.entry.at t.new result }
        ensures noted { HeaderNoted self.entry.src.now t.new result }
    {
        read_header(self.src, t, self.at)
    }
}

// The header of a script; the table has every name, and what each line declares. Ruled out: another logic than that of the declarations; a line of a function before one of an
// array; a name declared in two tables; lines that nothing of a script follows.
pub fn header_at_start(s: &[u8], t: &mut Table) -> Option<Header>
    requires { Empty t.old }
    ensures header { HeaderTo s.now 0 t.new result }
    ensures noted { HeaderNoted s.now t.new result }
{
    Reader::new(s).read_header(t)
}
