// The sort of the term at a place of a script. A term is read by its head, and then operand by operand; what it still waits for is
// its state. One function calls itself, and keeps over that call the state, and the place that the term must not end after.
// Under "Ruled out" stand wrong programs that a public function's contract refuses.
#![tactic(auto)]

ghost use Rattle.std.specs.Prelude.{◌≡◌, List, ℕ, ◌+◌, ◌≤◌, ◌<◌, length, get_or, Some};
ghost use Rattle.reading.specs.Trees.{Declarations};
ghost use Rattle.blast_kernel.specs.Kinds.{shape_in};
ghost use Rattle.echo_spec.specs.TreeSorts.{bool, bits};
ghost use Rattle.script_entries.specs.Entries.{Declares};
ghost use Rattle.script_heads.specs.Heads.{HeadAt};
ghost use Rattle.script_terms.specs.States.{State, sort_from, after, Held, Usable, Going, SortedBy, SortAt};
ghost use Rattle.script_terms.specs.Turns.{numeral_count, state_from, StateIs, JoinedIs, AfterIs, ClosedIs, NextIs, StandsAt, NextWithin, MovedTo, OpenedIs, head_end, BeforeIs};

use blast_kernel::Shape;
use refusals::MAX_ROTATED;
use script_entries::{Script, next_argument};
use script_heads::{Head, head_at};
use script_tokens::byte_at;

// The state of a term: what it waits for, and the numbers that this takes.
#[derive(Clone, Copy, Debug, PartialEq, Eq)]
pub enum TermState {
    // No operand and no bracket gives a sort any more.
    Failed,
    // The whole term was read: its sort.
    Done(u64),
    // An operator before its first operand, by its shape, with its numerals.
    Binary,
    Rotation(u64),
    Extraction(u64, u64),
    Concat,
    Extension(u64),
    Ite,
    Comparison,
    Negation,
    Connective,
    Unary,
    // A bit-vector of this width, and then the end with this sort.
    Same { width: u64, sort: u64 },
    // A concatenation's second operand: the width of its first.
    Joins(u64),
    // A choice's second operand.
    Chosen,
    // A connective's second operand.
    Truth,
    // The bracket, and the sort.
    Bracket(u64),
    // A call: the place of the argument sorts that are left, and its width.
    Arguments { left: usize, width: u64 },
    // A select under stores. An index comes next;
    Index(Stores),
    // the value of a store;
    Value(Stores),
    // the bracket of a store;
    Stored(Stores),
    // the select's own bracket, with its width.
    Own(u64),
}

// What a select under stores waits with: the two widths of its array, and how many stores are left to close.
#[derive(Clone, Copy, Debug, PartialEq, Eq)]
pub struct Stores {
    pub index: u64,
    pub value: u64,
    pub left: usize,
}

// The sort of a term as a number, 0 for Bool and else the width of a bit-vector, and the place after the term.
// Kept: the sort is one number, since it is handed from level to level, and what waits for it compares it with a width. An enum would be made
// where a term ends, and taken apart again one level up.
#[derive(Clone, Copy, Debug, PartialEq, Eq)]
pub struct Sorted {
    pub sort: u64,
    pub end: usize,
}

// What stands at a place, for a term in some state: the end, with the sort and the place after it; an operand, with the state that waits for
// it and the place where it begins.
#[derive(Clone, Copy, Debug, PartialEq, Eq)]
enum Next {
    Done(u64, usize),
    Operand(TermState, usize),
}

// The state of a term after its head, and the place after the head.
// Kept: beside `Sorted`, since a generic struct of a value and a place would call both a state and a sort `value`.
#[derive(Clone, Copy, Debug, PartialEq, Eq)]
pub struct Opened {
    pub state: TermState,
    pub end: usize,
}

// ---------------------------------------------------------------- one operand more

// The end with the sum of two widths, if it is a width.
fn joined(a: u64, b: u64) -> TermState
    requires { 0 < a + b }
    ensures { JoinedIs a b result }
{
    match a.checked_add(b) {
        Some(width) => TermState::Bracket(width),
        None => TermState::Failed,
    }
}

// The state after w after a Bool.
fn after_bool(w: TermState) -> TermState
    ensures { AfterIs w bool result }
{
    match w {
        TermState::Ite => TermState::Chosen,
        TermState::Negation | TermState::Truth => TermState::Bracket(0),
        TermState::Connective => TermState::Truth,
        _ => TermState::Failed,
    }
}

// A rotation by i of a bit-vector of width m.
fn rotated(i: u64, m: u64) -> TermState
    requires { 0 < m }
    ensures { AfterIs (TermState.Rotation i) (bits m) result }
{
    if i >= m || m > MAX_ROTATED {
        return TermState::Failed;
    }
    TermState::Bracket(m)
}

// Bits i down to j of a bit-vector of width m.
fn extracted(i: u64, j: u64, m: u64) -> TermState
    ensures { AfterIs (TermState.Extraction i j) (bits m) result }
{
    if j > i || i >= m {
        return TermState::Failed;
    }
    TermState::Bracket(i - j + 1)
}

// The state after w, no call's, after a bit-vector of width m.
fn after_vector(w: TermState, m: u64) -> TermState
    requires { (0 < m) × ((p n : ℕ) → w ≡ TermState.Arguments p n → ⊥) }
    ensures { AfterIs w (bits m) result }
{
    match w {
        TermState::Binary => TermState::Same { width: m, sort: m },
        TermState::Rotation(i) => rotated(i, m),
        TermState::Extraction(i, j) => extracted(i, j, m),
        TermState::Concat => TermState::Joins(m),
        TermState::Extension(n) => joined(m, n),
        TermState::Comparison => TermState::Same { width: m, sort: 0 },
        TermState::Unary => TermState::Bracket(m),
        TermState::Same { width, sort } => {
            if width == m {
                TermState::Bracket(sort)
            } else {
                TermState::Failed
            }
        }
        TermState::Joins(n) => joined(n, m),
        TermState::Chosen => TermState::Same { width: m, sort: m },
        TermState::Index(x) => {
            if x.index != m {
                TermState::Failed
            } else if x.left == 0 {
                TermState::Own(x.value)
            } else {
                TermState::Value(Stores {
                    left: x.left - 1,
                    ..x
                })
            }
        }
        TermState::Value(x) => {
            if x.value == m {
                TermState::Stored(x)
            } else {
                TermState::Failed
            }
        }
        _ => TermState::Failed,
    }
}

// An operand of the sort n came. Ruled out: the numbers left as they are; the state after a bit-vector where a Bool came.
pub fn step(s: &[u8], w: &mut TermState, n: u64)
    requires { (q : State) × Held s.now w.old q }
    ensures { (q : State) → Held s.now w.old q → Held s.now w.new (after q (sort_from n)) }
{
    if n == 0 {
        *w = after_bool(*w);
        return;
    }
    *w = match *w {
        TermState::Arguments { left, width } => match next_argument(s, left) {
            Some(a) => {
                if a.value == n {
                    TermState::Arguments { left: a.end, width }
                } else {
                    TermState::Failed
                }
            }
            None => TermState::Failed,
        },
        other => after_vector(other, n),
    };
}

// ---------------------------------------------------------------- what follows

// Kept: `Usable` says of a state and a text that the place in the state is one of the text. The state does not hold the text, and so has no
// such fact of its own.

// The sort of a term whose bracket closes.
fn close(s: &[u8], w: TermState) -> Option<u64>
    requires { Usable s.now w }
    ensures { ClosedIs s.now w result }
{
    match w {
        TermState::Bracket(sort) => Some(sort),
        TermState::Own(width) => (width != 0).then_some(width),
        TermState::Arguments { left, width } => match next_argument(s, left) {
            Some(_) => None,
            None => (width != 0).then_some(width),
        },
        _ => None,
    }
}

// What stands at place p, where a blank is, for a term in this state.
fn at_blank(s: &[u8], p: usize, w: TermState) -> Option<Next>
    requires { (p < length s.now) × (get_or s.now p 0 ≡ 32) × ((n : ℕ) → w ≡ TermState.Done n → ⊥) }
    ensures { NextIs s.now p w result × StandsAt s.now p result }
{
    match w {
        TermState::Stored(_) | TermState::Own(_) => None,
        _ => Some(Next::Operand(w, p + 1)),
    }
}

// The same, where a closing bracket is.
fn at_bracket(s: &[u8], p: usize, w: TermState) -> Option<Next>
    requires { (p < length s.now) × (get_or s.now p 0 ≡ 41) × ((n : ℕ) → w ≡ TermState.Done n → ⊥) × Usable s.now w }
    ensures { NextIs s.now p w result × StandsAt s.now p result }
{
    match w {
        TermState::Stored(x) => {
            if byte_at(s, p + 1) == b' ' {
                return Some(Next::Operand(TermState::Index(x), p + 2));
            }
            None
        }
        _ => {
            let n = close(s, w)?;
            Some(Next::Done(n, p + 1))
        }
    }
}

// What stands at place p, for a term in this state.
fn next_at(s: &[u8], p: usize, w: TermState) -> Option<Next>
    requires { (p ≤ length s.now) × Usable s.now w }
    ensures { NextIs s.now p w result × StandsAt s.now p result }
{
    match w {
        TermState::Done(n) => Some(Next::Done(n, p)),
        _ => {
            let b = byte_at(s, p);
            if b == b' ' {
                return at_blank(s, p, w);
            }
            if b == b')' {
                return at_bracket(s, p, w);
            }
            None
        }
    }
}

// Does an operand follow? Then the place is where it begins. Else the whole term was read, and the place is after it; or it has no sort.
// Ruled out: an operand that begins at its blank; a store's bracket that is not stepped over.
// Kept: a bool, with place and state changed where they stand, since both its callers go on at once; with `next_at` each would take three
// answers apart.
pub fn more(s: &[u8], at: &mut usize, w: &mut TermState) -> bool
    requires { (at.old ≤ length s.now) × Usable s.now w.old }
    ensures { NextWithin s.now at.old w.old at.new w.new result × MovedTo s.now at.old at.new w.new result }
{
    match next_at(s, *at, *w) {
        None => {
            *w = TermState::Failed;
            false
        }
        Some(Next::Done(n, e)) => {
            *w = TermState::Done(n);
            *at = e;
            false
        }
        Some(Next::Operand(d, f)) => {
            *w = d;
            *at = f;
            true
        }
    }
}

// ---------------------------------------------------------------- heads

// How many numerals an operator of the shape has. Kept: no method of `Shape`, which tells of records; there a numeral is an operand.
#[tactic(auto, unfolding(crate::specs::Turns::numeral_count))]
fn numerals(s: Shape) -> u64
    ensures { result ≡ numeral_count (shape_in s) }
{
    match s {
        Shape::Rotation(_) | Shape::Extension(_) => 1,
        Shape::Extraction => 2,
        Shape::Var | Shape::Const | Shape::Binary(_) | Shape::Concat | Shape::Ite => 0,
        Shape::Comparison(_) | Shape::Negation | Shape::Connective(_) | Shape::Unary(_) => 0,
        Shape::Select | Shape::Call | Shape::Unknown => 0,
    }
}

// The state of an operator of the shape with these numerals, as many as it has, or that of a term that has no sort.
fn state_from(s: Shape, i: u64, j: u64) -> TermState
    ensures { result ≡ state_from (shape_in s) i j }
{
    match s {
        Shape::Binary(_) => TermState::Binary,
        Shape::Rotation(_) => TermState::Rotation(i),
        Shape::Extraction => TermState::Extraction(i, j),
        Shape::Concat => TermState::Concat,
        Shape::Extension(_) => TermState::Extension(i),
        Shape::Ite => TermState::Ite,
        Shape::Comparison(_) => TermState::Comparison,
        Shape::Negation => TermState::Negation,
        Shape::Connective(_) => TermState::Connective,
        Shape::Unary(_) => TermState::Unary,
        Shape::Var | Shape::Const | Shape::Select | Shape::Call | Shape::Unknown =>
            TermState::Failed,
    }
}

// The state of an operator of this kind with so many of the two numerals.
fn operator_state(kind: u8, m: u64, i: u64, j: u64) -> TermState
    ensures { StateIs kind m i j result }
{
    let s = Shape::from(kind);
    if m != numerals(s) {
        return TermState::Failed;
    }
    state_from(s, i, j)
}

// The state of a term after its head. Kept: each head brings its end, and so each arm hands one on. Ruled out: the first number of an operator for the second; a call whose arguments are taken from another
// place.
pub fn head_state(x: Head, at: usize) -> Opened
    requires { (s : List ℕ) × (D : Declarations) × HeadAt s D at (Some x) }
    ensures { ((s : List ℕ) (D : Declarations) → HeadAt s D at (Some x) → Going s D at result.state result.end) × (result.end ≡ head_end x) }
{
    match x {
        Head::Constant(end) => Opened {
            state: TermState::Done((end - (at + 2)) as u64),
            end,
        },
        Head::Variable { width, end, .. } => Opened {
            state: TermState::Done(width),
            end,
        },
        Head::Nullary { width, end, .. } => Opened {
            state: TermState::Done(width),
            end,
        },
        Head::Operator {
            kind,
            numerals,
            first,
            second,
            end,
        } => Opened {
            state: operator_state(kind, numerals, first, second),
            end,
        },
        Head::Call {
            arguments,
            width,
            end,
            ..
        } => Opened {
            state: TermState::Arguments {
                left: arguments,
                width,
            },
            end,
        },
        Head::Select {
            index,
            value,
            stores,
            end,
            ..
        } => Opened {
            state: TermState::Index(Stores {
                index,
                value,
                left: stores,
            }),
            end,
        },
    }
}

// The state of the term at a place after its head.
fn open_at(script: &Script, at: usize) -> Option<Opened>
    requires { (D : Declarations) × Declares script.now D }
    ensures { (D : Declarations) → Declares script.now D → OpenedIs script.now.text.now D at result }
{
    let x = head_at(script, at)?;
    Some(head_state(x, at))
}

// A term is begun: its first state is written, and the place moved past its head. It has a frame of its own, apart from the function that
// calls itself, which keeps the state alone.
#[inline(never)]
fn begin(script: &Script, at: &mut usize, w: &mut TermState)
    requires { ((D : Declarations) × Declares script.now D) × (at.old ≤ length script.now.text.now) }
    ensures { (D : Declarations) → Declares script.now D → Going script.now.text.now D at.old w.new at.new }
{
    match open_at(script, *at) {
        None => *w = TermState::Failed,
        Some(opened) => {
            *w = opened.state;
            *at = opened.end;
        }
    }
}

// ---------------------------------------------------------------- terms

// The place that an operand must not end after, where the term that waits for it in state w must not end after place `end`: a bracket at least
// stands between them, and a blank and a second operand too after the first of a comparison or a connective.
fn inner_end(w: TermState, end: usize) -> usize
    ensures { BeforeIs w end result }
{
    match w {
        TermState::Comparison | TermState::Connective => end.saturating_sub(3),
        _ => end.saturating_sub(1),
    }
}

// The sort of the term at the place, which is moved past the term; none where the term has no sort, or ends after place `end`. By that place
// a level of the recursion stands for six bytes of the script at least.
fn term(script: &Script, at: &mut usize, end: usize) -> Option<u64>
    requires { ((D : Declarations) × Declares script.now D) × (at.old ≤ length script.now.text.now) }
    ensures { (D : Declarations) → Declares script.now D → SortedBy script.now.text.now D at.old result at.new end }
{
    if *at >= end {
        return None;
    }
    let mut w = TermState::Failed;
    begin(script, at, &mut w);
    // Kept: a term tells by its state whether an operand follows.
    while more(script.text, at, &mut w) {
        let n = term(script, at, inner_end(w, end))?;
        step(script.text, &mut w, n);
    }
    match w {
        TermState::Done(n) => Some(n),
        _ => None,
    }
}

// The sort of the term at a place, and the place after it. Ruled out: a Bool taken where a bit-vector of any width is asked for; a call with
// fewer arguments than the function has; a store's value compared with the width of the index.
pub fn sort_at(script: &Script, at: usize) -> Option<Sorted>
    requires { ((D : Declarations) × Declares script.now D) × (at ≤ length script.now.text.now) }
    ensures { (D : Declarations) → Declares script.now D → SortAt script.now.text.now D at result }
{
    let mut end = at;
    let sort = term(script, &mut end, script.text.len())?;
    Some(Sorted { sort, end })
}
