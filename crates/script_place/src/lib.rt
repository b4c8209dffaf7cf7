// The nodes of a term, placed as its text is checked: each operand first, then the constants among them, then the term's own node.
// Under "Ruled out" stand wrong programs that a public function's contract refuses.
#![tactic(auto)]

ghost use Rattle.std.specs.Prelude.{◌≡◌, List, ℕ, ◌+◌, ◌≤◌, ◌<◌, Some};
ghost use Rattle.reading.specs.Trees.{Declarations};
ghost use Rattle.script_entries.specs.Entries.{Declares};
ghost use Rattle.script_heads.specs.Heads.{HeadAt};
ghost use Rattle.script_place.specs.declared.Unread.TheVariants.{Limit};
ghost use Rattle.script_place.specs.Terms.{State, LeafPlaced, PlacedAt, BegunTo, Pushable, MoreTo, Closes, ClosedTo};

use heap_laws::{Heap, OverLimit};
use refusals::MAX_NODES;
use script_ends::{Operator, Seen, end_call, end_operator, end_select, result_width};
use script_entries::Script;
use script_heads::{Head, head_at};
use script_heap::{push_constant, push_node};
use script_terms::{TermState, head_state, more, step};
use script_tokens::byte_at;

// Why a script's problem is not rebuilt.
#[derive(Clone, Copy, Debug, PartialEq, Eq)]
pub enum Unread {
    // The bytes are no problem's script.
    NoScript,
    // The problem is over a limit, or has a number that a record cannot hold.
    Limit,
}

// A problem over a limit is not rebuilt. Ruled out: a limit told as bytes that are no script.
impl From<OverLimit> for Unread {
    ghost from_gives = { λ _ u. u ≡ Limit };

    fn from(_: OverLimit) -> Unread {
        Unread::Limit
    }
}

// What an operand is: a node, or a constant by the place of its digits.
#[derive(Clone, Copy, Debug, PartialEq, Eq)]
pub enum Operand {
    Node(u64),
    Constant(usize),
}

// A term that is placed: what it is as an operand, its width, 0 of a Bool, and the place after it.
// Kept: the width as in `Sorted` of script_terms, for the same reason.
#[derive(Clone, Copy, Debug, PartialEq, Eq)]
pub struct Placed {
    pub operand: Operand,
    pub width: u64,
    pub end: usize,
}

// A term by its head: it is placed; it is a call without arguments; or its operands begin.
#[derive(Clone, Copy)]
enum Begun {
    Done(Placed),
    Nullary(Nullary),
    Open,
}

// A call without arguments: the function's number and width, and the place after it.
#[derive(Clone, Copy)]
struct Nullary {
    function: u64,
    width: u64,
    end: usize,
}

// ---------------------------------------------------------------- heads

// What a term begins with.
fn begin(x: Head, at: usize) -> Begun
    requires { (s : List ℕ) × (D : Declarations) × HeadAt s D at (Some x) }
    ensures { BegunTo x at result }
{
    match x {
        Head::Constant(end) => Begun::Done(Placed {
            operand: Operand::Constant(at + 2),
            width: (end - (at + 2)) as u64,
            end,
        }),
        Head::Variable { number, width, end } => Begun::Done(Placed {
            operand: Operand::Node(number as u64),
            width,
            end,
        }),
        Head::Nullary { number, width, end } => Begun::Nullary(Nullary {
            function: number as u64,
            width,
            end,
        }),
        Head::Operator { .. } | Head::Call { .. } | Head::Select { .. } => Begun::Open,
    }
}

// ---------------------------------------------------------------- operands

// The operand waits for the term around it to end. Kept: beside the two functions of script_heap, since a call on zeros (place_script) has nodes
// alone, and no script to take a constant from.
fn pushed(s: &[u8], heap: &mut Heap, x: &Placed) -> Result<(), OverLimit>
    requires { Pushable s.now x.now.width x.now.operand }
    ensures { MoreTo s.now heap.old heap.new x.now.operand result }
{
    match x.operand {
        Operand::Node(i) => push_node(heap, i),
        Operand::Constant(p) => push_constant(s, heap, p, x.width as usize),
    }
}

// ---------------------------------------------------------------- ends

// A term that has its node.
fn placed_at(node: u64, width: u64, end: usize) -> Placed
    ensures { result ≡ record { operand = Operand.Node node; width = width; end = end } }
{
    Placed {
        operand: Operand::Node(node),
        width,
        end,
    }
}

// The numeral, if there are as many; else 0, which is what the end of an operator takes for a numeral that it does not have.
// Kept: a head has its two numerals beside the number of those that are there (script_heads).
fn numeral_or_zero(m: u64, least: u64, i: u64) -> u64
    ensures { (least ≤ m → result ≡ i) × (m < least → result ≡ 0) }
{
    if m >= least { i } else { 0 }
}

// The term ends with its bracket at place e.
fn closed(
    s: &[u8],
    heap: &mut Heap,
    x: Head,
    base: usize,
    v: Seen,
    e: usize,
) -> Result<Placed, Unread>
    requires { Closes s.now heap.old x base v e }
    ensures { ClosedTo s.now heap.old heap.new x base v e result }
{
    match x {
        Head::Operator {
            kind,
            numerals,
            first,
            second,
            ..
        } => {
            let a = numeral_or_zero(numerals, 1, first);
            let b = numeral_or_zero(numerals, 2, second);
            let o = Operator {
                kind,
                first: a,
                second: b,
            };
            let w = v.first.unwrap_or(0);
            let node = end_operator(s, heap, base, o, w)?;
            let width = result_width(o, w, v.second.unwrap_or(0));
            Ok(placed_at(node, width, e + 1))
        }
        Head::Call { number, width, .. } => {
            let node = end_call(s, heap, base, number as u64, width)?;
            Ok(placed_at(node, width, e + 1))
        }
        Head::Select {
            number,
            value,
            stores,
            ..
        } => {
            let node = end_select(s, heap, base, stores, number as u64)?;
            Ok(placed_at(node, value, e + 1))
        }
        // Kept: of six heads three come here. An enum of those three would be made in `begin`, field by field, and taken apart here.
        _ => unreachable!(),
    }
}

// ---------------------------------------------------------------- terms

// A constant or a variable, which needs no node of its own here. It is placed apart from the function that calls itself, whose frame is large.
#[inline(always)]
fn leaf(script: &Script, at: usize) -> Option<Placed>
    requires { (D : Declarations) × Declares script.now D }
    ensures { LeafPlaced script.now.text.now script.now.table.now script.now.header at result }
{
    if byte_at(script.text, at) == b'(' {
        return None;
    }
    let x = head_at(script, at)?;
    match begin(x, at) {
        Begun::Done(p) => Some(p),
        Begun::Nullary(_) | Begun::Open => None,
    }
}

// Any term at a place, as `place` has it.
#[cycle(place)]
fn place_term(script: &Script, heap: &mut Heap, at: usize, levels: usize) -> Result<Placed, Unread>
    requires { (D : Declarations) × Declares script.now D × State D script.now.text.now heap.old levels }
    ensures { PlacedAt script.now.text.now script.now.table.now script.now.header heap.old at levels heap.new result }
{
    let x = head_at(script, at).ok_or(Unread::NoScript)?;
    match begin(x, at) {
        Begun::Done(p) => Ok(p),
        Begun::Nullary(c) => {
            let top = heap.top;
            let node = end_call(script.text, heap, top, c.function, c.width)?;
            Ok(placed_at(node, c.width, c.end))
        }
        Begun::Open => {
            // There is to be room for its node and for those of the terms around it.
            if heap.count + levels >= MAX_NODES {
                return Err(Unread::Limit);
            }
            let o = head_state(x, at);
            let base = heap.top;
            let mut w = o.state;
            let mut e = o.end;
            let mut v = Seen::default();
            // Kept: a term tells by its state whether an operand follows.
            while more(script.text, &mut e, &mut w) {
                let z = place(script, heap, e, levels + 1)?;
                pushed(script.text, heap, &z)?;
                v = v.one_more(z.width);
                e = z.end;
                step(script.text, &mut w, z.width);
            }
            let TermState::Done(_) = w else {
                return Err(Unread::NoScript);
            };
            closed(script.text, heap, x, base, v, e - 1)
        }
    }
}

// The term at a place, under so many terms that are not ended. Ruled out: a term without a sort that is placed; a constant placed before another
// term; the node of a term before those of its operands; an operand's node left out of the limit of a term around it.
#[cycle(place)]
#[inline(always)]
pub fn place(script: &Script, heap: &mut Heap, at: usize, levels: usize) -> Result<Placed, Unread>
    requires { (D : Declarations) × Declares script.now D × State D script.now.text.now heap.old levels }
    ensures { PlacedAt script.now.text.now script.now.table.now script.now.header heap.old at levels heap.new result }
{
    if let Some(p) = leaf(script, at) {
        return Ok(p);
    }
    place_term(script, heap, at, levels)
}
