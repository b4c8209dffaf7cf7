// The lines of declarations of a script: read, checked and entered into the table of names.
// Under "Ruled out" stand wrong programs that a public function's contract refuses.
#![tactic(auto)]

ghost use Rattle.std.specs.Prelude.{◌≡◌, true, false, ◌+◌, ◌-◌, ◌≤◌, ◌<◌, length, drop};
ghost use Rattle.echo_spec.specs.Names.{entry_ok};
ghost use Rattle.readback.specs.Reader.{expect};
ghost use Rattle.script_tokens.specs.Reached.{Reached, Numbered, between};
ghost use Rattle.script_names.specs.Entries.{entry_from, Named, Tabled, Noted};
ghost use Rattle.script_decls.specs.Tails.{SortsTo};
ghost use Rattle.script_decls.specs.Lines.{sort_in, stage_number, word_of, LineTo, StageTo, Ready, names_to};
ghost use Rattle.script_decls.specs.Told.{TailTold, LineTold, NotedTo};

use echo_names::{bytes_ok, first_ok, is_reserved};
use refusals::MAX_ARRAY_WIDTH;
use script_names::{Declared, Measure, Table, enter, find_line};
use script_tokens::{Number, literal, name_end, numeral};

// The lines of one kind stand together: those of variables, then those of arrays, then those of functions.
// Kept: contracts number the kinds, as their definitions in specs/ do, and a line's type there depends on the number (`LineType`).
#[derive(Clone, Copy, Debug, PartialEq, Eq)]
pub enum Stage {
    Variables,
    Arrays,
    Functions,
}

// A line: where its name begins, the place after the name's last bar, and the place after the line.
#[derive(Clone, Copy, Debug, PartialEq, Eq)]
pub struct Line {
    pub name: usize,
    pub name_end: usize,
    pub end: usize,
}

// A line of a declaration, and the numbers of what it declares.
#[derive(Clone, Copy)]
struct Declaration {
    line: Line,
    measure: Measure,
}

// What stands after the name of a line: the numbers of what the line declares, and the place after the line.
#[derive(Clone, Copy, Debug, PartialEq, Eq)]
pub struct Rest {
    pub measure: Measure,
    pub end: usize,
}

// Lines of one kind: how many names are declared now, and the place after them.
#[derive(Clone, Copy, Debug, PartialEq, Eq)]
pub struct Lines {
    pub names: usize,
    pub end: usize,
}

// ---------------------------------------------------------------- sorts

// A sort of bit-vectors whose width is from 1 to the limit. Ruled out: width 0; a width one above the limit.
pub fn sort_in(s: &[u8], at: usize, limit: u64) -> Option<Number>
    requires { at ≤ length s.now }
    ensures { Numbered s.now (sort_in limit (drop at s.now)) result }
{
    let a = literal(s, at, b"(_ BitVec ")?;
    let width = numeral(s, a)?;
    if width.value == 0 || width.value > limit {
        return None;
    }
    let end = literal(s, width.end, b")")?;
    Some(Number {
        value: width.value,
        end,
    })
}

// Sorts, each after a blank, up to and with the closing bracket.
fn more_sorts(s: &[u8], at: usize) -> Option<usize>
    requires { at ≤ length s.now }
    ensures { SortsTo false s.now at result }
{
    let mut p = at;
    // Kept: each sort tells where the next one begins.
    while p < s.len() {
        if s[p] == b')' {
            return Some(p + 1);
        }
        if s[p] != b' ' {
            return None;
        }
        let width = sort_in(s, p + 1, u64::MAX)?;
        p = width.end;
    }
    None
}

// Sorts with blanks between them, up to and with the closing bracket.
fn sorts_end(s: &[u8], at: usize) -> Option<usize>
    requires { at ≤ length s.now }
    ensures { SortsTo true s.now at result }
{
    if at >= s.len() {
        return None;
    }
    if s[at] == b')' {
        return Some(at + 1);
    }
    let width = sort_in(s, at, u64::MAX)?;
    more_sorts(s, width.end)
}

// ---------------------------------------------------------------- lines

// The rest of a variable's line after its name.
fn variable_tail(s: &[u8], at: usize) -> Option<Rest>
    requires { at ≤ length s.now }
    ensures { TailTold 0 s.now at result }
{
    let a = literal(s, at, b" ")?;
    let width = sort_in(s, a, u64::MAX)?;
    let end = literal(s, width.end, b")\n")?;
    Some(Rest {
        measure: Measure {
            first: width.value,
            second: 0,
        },
        end,
    })
}

// The rest of an array's line after its name.
fn array_tail(s: &[u8], at: usize) -> Option<Rest>
    requires { at ≤ length s.now }
    ensures { TailTold 1 s.now at result }
{
    let a = literal(s, at, b" (Array ")?;
    let index = sort_in(s, a, MAX_ARRAY_WIDTH)?;
    let b = literal(s, index.end, b" ")?;
    let value = sort_in(s, b, MAX_ARRAY_WIDTH)?;
    let end = literal(s, value.end, b"))\n")?;
    Some(Rest {
        measure: Measure {
            first: index.value,
            second: value.value,
        },
        end,
    })
}

// The rest of a function's line after its name.
fn function_tail(s: &[u8], at: usize) -> Option<Rest>
    requires { at ≤ length s.now }
    ensures { TailTold 2 s.now at result }
{
    let a = literal(s, at, b" (")?;
    let b = sorts_end(s, a)?;
    let d = literal(s, b, b" ")?;
    let width = sort_in(s, d, u64::MAX)?;
    let end = literal(s, width.end, b")\n")?;
    Some(Rest {
        measure: Measure {
            first: a as u64,
            second: width.value,
        },
        end,
    })
}

// What a line of a stage begins with.
// Kept: a trait for the three stages would be three types with two functions each, and `script_entries` has the stage of a line as a value.
#[tactic(auto, unfolding(lists::specs::Bytes::bytes))]
fn head(stage: Stage, s: &[u8], at: usize) -> Option<usize>
    requires { at ≤ length s.now }
    ensures { Reached s.now (expect (word_of (stage_number stage)) (drop at s.now)) result }
{
    match stage {
        Stage::Variables | Stage::Arrays => literal(s, at, b"(declare-const |"),
        Stage::Functions => literal(s, at, b"(declare-fun |"),
    }
}

// The rest of a line of a stage after its name: of a variable its width, of an array its two widths, of a function where the sorts of its
// arguments begin, and its width. Ruled out: the two widths of an array exchanged; the place after the sorts for the one where they begin.
pub fn tail(stage: Stage, s: &[u8], at: usize) -> Option<Rest>
    requires { at ≤ length s.now }
    ensures { TailTold (stage_number stage) s.now at result }
{
    match stage {
        Stage::Variables => variable_tail(s, at),
        Stage::Arrays => array_tail(s, at),
        Stage::Functions => function_tail(s, at),
    }
}

// A line of a stage: a variable's, an array's or a function's.
fn read_line(stage: Stage, s: &[u8], at: usize) -> Option<Declaration>
    requires { at ≤ length s.now }
    ensures line { LineTo (stage_number stage) s.now at result }
    ensures told { LineTold (stage_number stage) s.now result }
{
    let name = head(stage, s, at)?;
    let name_end = name_end(s, name)?;
    let rest = tail(stage, s, name_end)?;
    Some(Declaration {
        line: Line {
            name,
            name_end,
            end: rest.end,
        },
        measure: rest.measure,
    })
}

// ---------------------------------------------------------------- names

// May the name be declared after those before it? Where it may, it is entered into the table.
fn declare(s: &[u8], t: &mut Table, lines: Declared, a: usize, f: usize, measure: Measure) -> bool
    requires { (lines.first ≤ length s.now) × Named s.now a f × Tabled s.now lines.first t.old lines.count × (drop a s.now ≡ entry_from lines.count (drop lines.first s.now)) }
    ensures { (result ≡ entry_ok (names_to (drop lines.first s.now) lines.count) (between s.now a (f - 1)))
        × (result ≡ true → Tabled s.now lines.first t.new (lines.count + 1) × Noted t.old t.new lines.count measure) }
{
    let name = &s[a..f - 1];
    if !bytes_ok(name) || !first_ok(name) || is_reserved(name) {
        return false;
    }
    match find_line(s, t, lines, a, f) {
        Some(_) => false,
        None => {
            enter(s, t, lines, a, f, measure);
            true
        }
    }
}

// As many lines of a stage as there are, entered into the table after those that are there, with the numbers of what they declare, so that a use
// of a name need not read its line again. Ruled out: lines read past a name that is declared twice; a count that leaves the last line out; a line
// whose numbers are left out.
pub fn read_lines(
    stage: Stage,
    s: &[u8],
    t: &mut Table,
    lines: Declared,
    at: usize,
) -> Option<Lines>
    requires { Ready s.now lines.first t.old lines.count at }
    ensures stage { StageTo (stage_number stage) s.now lines.first lines.count at t.new result }
    ensures noted { NotedTo (stage_number stage) s.now lines.first lines.count t.old t.new result }
{
    let mut so_far = lines;
    let mut p = at;
    // Kept: each line tells where the next one begins.
    while let Some(d) = read_line(stage, s, p) {
        if !declare(s, t, so_far, d.line.name, d.line.name_end, d.measure) {
            return None;
        }
        so_far.count += 1;
        p = d.line.end;
    }
    Some(Lines {
        names: so_far.count,
        end: p,
    })
}
