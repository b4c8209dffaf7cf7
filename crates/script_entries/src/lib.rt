// What a name of a script stands for, by the script's declarations: a variable, an array or a function, its number and its widths.
// Under "Ruled out" stand wrong programs that a public function's contract refuses.
#![tactic(auto)]

ghost use Rattle.std.specs.Prelude.{◌≡◌, List, ℕ, ◌+◌, ◌-◌, ◌≤◌, ◌<◌, length, drop};
ghost use Rattle.script_names.specs.declared.Table.{Table};
ghost use Rattle.reading.specs.Trees.{Declarations};
ghost use Rattle.rebuilt.specs.Built.{variable_at, array_at, function_at};
ghost use Rattle.script_tokens.specs.Reached.{between};
ghost use Rattle.script_names.specs.Entries.{after_bar, entry_from, Named};
ghost use Rattle.script_decls.specs.Lines.{stage_number};
ghost use Rattle.script_decls.specs.Told.{Telling};
ghost use Rattle.script_header.specs.Header.{Within};
ghost use Rattle.script_entries.specs.Entries.{first_of, variables_of, arrays_of, names_of, Measured, KnownTo, Declares, ArgumentsAt, NextArgument, EntryIs, EntryOf};

use script_decls::{Stage, sort_in, tail};
use script_header::Header;
use script_names::{Declared, LINES, Measure, Table, UNREAD, find_line};
use script_tokens::Number;

// The widths of an array.
#[derive(Clone, Copy, Debug, PartialEq, Eq)]
pub struct Widths {
    pub index: u64,
    pub value: u64,
}

// Where the sorts of a function's arguments begin, and its width.
#[derive(Clone, Copy, Debug, PartialEq, Eq)]
pub struct Signature {
    pub arguments: usize,
    pub width: u64,
}

// What a declared name is: a variable, with its number and width; an array or a function, with its number and widths.
#[derive(Clone, Copy, Debug, PartialEq, Eq)]
pub enum Entry {
    Variable(usize, u64),
    Array(usize, Widths),
    Function(usize, Signature),
}

// A script whose header was read: its bytes, the table of its names with what each line declares, and the header's numbers.
// Kept: that it declares something stands in the contracts. A ghost field has to be truncated, and was tried: `find_line` asks for the table's
// facts, which a truncated one does not give back.
#[derive(Clone, Copy)]
pub struct Script<'a> {
    pub text: &'a [u8],
    pub table: &'a Table,
    pub header: Header,
}

// The width of the next argument and the place after its sort, or that there is none. Ruled out: the width of the argument after it; a
// place that passes one by.
pub fn next_argument(s: &[u8], p: usize) -> Option<Number>
    requires { p ≤ length s.now }
    ensures { (ws : List ℕ) → ArgumentsAt s.now p ws → NextArgument s.now p ws result }
{
    if p >= s.len() || s[p] == b')' {
        return None;
    }
    if s[p] == b' ' {
        return sort_in(s, p + 1, u64::MAX);
    }
    sort_in(s, p, u64::MAX)
}

// ---------------------------------------------------------------- what a line declares

// The stage that line k is of.
fn stage_of(h: &Header, k: usize) -> Stage
    ensures { Within h.now k result }
{
    if k < h.variables {
        return Stage::Variables;
    }
    if k < h.arrays {
        return Stage::Arrays;
    }
    Stage::Functions
}

// What a line of a stage tells, whose name ends before place e.
fn told(stage: Stage, s: &[u8], e: usize) -> Measure
    requires { e ≤ length s.now }
    ensures { Telling (stage_number stage) s.now e result }
{
    match tail(stage, s, e) {
        Some(rest) => rest.measure,
        None => UNREAD,
    }
}

// What line k declares, whose name ends before place e.
fn measure_after(s: &[u8], h: &Header, k: usize, e: usize) -> Measure
    requires { e ≤ length s.now }
    ensures { (m : ℕ) (t : Table) (D : Declarations) → KnownTo m s.now t h.now D → k < names_of h.now
        → drop e s.now ≡ after_bar (entry_from k (drop (first_of h.now) s.now)) → Measured s.now h.now D k result.first result.second }
{
    told(stage_of(h, k), s, e)
}

// ---------------------------------------------------------------- a name

// The entry of line k, by what it declares.
fn entry_by(h: &Header, k: usize, x: Measure) -> Entry
    ensures { (s : List ℕ) (D : Declarations) → Measured s h.now D k x.first x.second → EntryOf s h.now D k result }
{
    match stage_of(h, k) {
        Stage::Variables => Entry::Variable(k, x.first),
        Stage::Arrays => Entry::Array(
            k - h.variables,
            Widths {
                index: x.first,
                value: x.second,
            },
        ),
        Stage::Functions => Entry::Function(
            k - h.arrays,
            Signature {
                arguments: x.first as usize,
                width: x.second,
            },
        ),
    }
}

impl<'a> Script<'a> {
    // The width of variable k, of a script with at most 1,536 names. Ruled out: that of the variable after it; that of variable 0.
    pub fn variable_at(&self, k: usize) -> u64
        requires { ((D : Declarations) × Declares self.now D) × (names_of self.now.header ≤ LINES) × (k < variables_of self.now.header) }
        ensures { (D : Declarations) → Declares self.now D → (variable_at D k).width ≡ result }
    {
        self.table.lines[k].measure.first
    }

    // The widths of array k. Ruled out: the two exchanged; those of the variable with the same number.
    pub fn array_at(&self, k: usize) -> Widths
        requires { ((D : Declarations) × Declares self.now D) × (names_of self.now.header ≤ LINES) × (variables_of self.now.header + k < arrays_of self.now.header) }
        ensures { (D : Declarations) → Declares self.now D → ((array_at D k).index ≡ result.index) × ((array_at D k).value ≡ result.value) }
    {
        let x = self.table.lines[self.header.variables + k].measure;
        Widths {
            index: x.first,
            value: x.second,
        }
    }

    // The arguments and the width of function g. Ruled out: the width of the last argument; the place of the sort of the result.
    pub fn function_at(&self, g: usize) -> Signature
        requires { ((D : Declarations) × Declares self.now D) × (names_of self.now.header ≤ LINES) × (arrays_of self.now.header + g < names_of self.now.header) }
        ensures { (D : Declarations) → Declares self.now D
            → ArgumentsAt self.now.text.now result.arguments (function_at D g).arguments × ((function_at D g).width ≡ result.width) }
    {
        let x = self.table.lines[self.header.arrays + g].measure;
        Signature {
            arguments: x.first as usize,
            width: x.second,
        }
    }

    // What the name from place a on, up to and with its bar before place f, is declared as, if it is. Ruled out: the index width of an array in
    // place of its value width; an array's number counted from the first variable; a variable of whose name this is the beginning.
    #[inline(always)]
    pub fn entry_of(&self, a: usize, f: usize) -> Option<Entry>
        requires { ((D : Declarations) × Declares self.now D) × Named self.now.text.now a f }
        ensures { (D : Declarations) → Declares self.now D → EntryIs self.now.text.now D (between self.now.text.now a (f - 1)) result }
    {
        let lines = Declared {
            first: self.header.first,
            count: self.header.names,
        };
        let found = find_line(self.text, self.table, lines, a, f)?;
        let k = found.line;
        if lines.count > LINES {
            let x = measure_after(self.text, &self.header, k, found.place + (f - a));
            return Some(entry_by(&self.header, k, x));
        }
        Some(entry_by(&self.header, k, self.table.lines[k].measure))
    }
}
