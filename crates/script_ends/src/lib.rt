// The end of a term whose operands wait: the constants among them get their nodes, and then the term's own node follows.
// Under "Ruled out" stand wrong programs that a public function's contract refuses.
#![tactic(auto)]

ghost use Rattle.std.specs.Prelude.{◌≡◌, List, ◌++◌, map, ℕ, ◌+◌, ◌*◌, ◌≤◌, ◌<◌, T, length, get_or};
ghost use Rattle.echo_spec.specs.Shapes.{shape_of};
ghost use Rattle.echo_spec.specs.TreeSorts.{proper, rule_of};
ghost use Rattle.readback.specs.Rebuild.{Item, a_select, a_call, Ref, here, ended, fields, node_with};
ghost use Rattle.heap_laws.specs.Heap.{stack_size, pending_in, pairs_back, Stacked};
ghost use Rattle.lent.specs.Records.{node_of};
ghost use Rattle.place_laws.specs.Widths.{result_width};
ghost use Rattle.script_ends.specs.Parts.{OneMore, Made};
ghost use Rattle.script_ends.specs.Ends.{EndedAs, Ending, Ends, OperatorOver, OperatorEnds, operator_item};

use blast_kernel::Shape;
use heap_laws::{Heap, OverLimit};
use lent::Node;
use script_heap::{add_call, add_operator, add_select, operand, settle_all, settle_number};

// The widths of the first two operands, as far as there were so many; a Bool has width 0.
#[derive(Clone, Copy, Debug, PartialEq, Eq, Default)]
pub struct Seen {
    pub first: Option<u64>,
    pub second: Option<u64>,
}

impl Seen {
    // One operand more, of this width. Ruled out: the third operand's width in place of the second's; a first operand that is not kept.
    pub fn one_more(self, w: u64) -> Seen
        ensures { OneMore self w result }
    {
        if self.first.is_none() {
            Seen {
                first: Some(w),
                ..self
            }
        } else if self.second.is_none() {
            Seen {
                second: Some(w),
                ..self
            }
        } else {
            self
        }
    }
}

// An operator: its kind, and its numerals, of which those that it does not have are 0.
#[derive(Clone, Copy, Debug, PartialEq, Eq)]
pub struct Operator {
    pub kind: u8,
    pub first: u64,
    pub second: u64,
}

// The width of an operator's node, from the widths m and n of its first operands; of a Bool 0.
// Ruled out: a concatenation as wide as its first operand; an extraction one bit too narrow.
pub fn result_width(o: Operator, m: u64, n: u64) -> u64
    requires { T (proper (rule_of (shape_of o.kind) o.first o.second m n).result) × T (rule_of (shape_of o.kind) o.first o.second m n).condition }
    ensures { result ≡ result_width (shape_of o.kind) o.first o.second m n }
{
    match Shape::from(o.kind) {
        Shape::Binary(_) | Shape::Rotation(_) | Shape::Unary(_) => m,
        Shape::Extraction => o.first - o.second + 1,
        Shape::Concat => m + n,
        Shape::Extension(_) => m + o.first,
        Shape::Ite => n,
        _ => 0,
    }
}

// Kept: a record's numbers in full, as the format has them for each shape, and no default of `Node` for those that are 0.
// The record of an operator: its operands' nodes x, y and z, of which those past its last are 0, and the node of its amount.
fn operator_record(o: Operator, x: u64, y: u64, z: u64, amount: u64) -> Node
    ensures { (result.kind ≡ o.kind) × ((ks xs ms : List ℕ) → Made o.kind o.first o.second x y z amount ks xs ms → node_with o.kind (fields (shape_of o.kind) ks xs ms) ≡ node_of result) }
{
    let kind = o.kind;
    match Shape::from(kind) {
        Shape::Rotation(_) => Node {
            kind,
            a: x,
            b: amount,
            c: 0,
            d: 0,
        },
        Shape::Extraction => Node {
            kind,
            a: o.first,
            b: o.second,
            c: x,
            d: 0,
        },
        Shape::Extension(_) => Node {
            kind,
            a: x,
            b: o.first,
            c: 0,
            d: 0,
        },
        _ => Node {
            kind,
            a: x,
            b: y,
            c: z,
            d: 0,
        },
    }
}

// ---------------------------------------------------------------- ends

// The node of the operand at place i of those that wait, or 0 where there are not so many.
fn operand_or_zero(heap: &Heap, i: usize) -> u64
    requires { heap.now.top ≤ stack_size }
    ensures { (script : List ℕ) (refs : List Ref) (ys : List ℕ) (k : ℕ) → Stacked script heap.now (refs ++ map here ys) → i ≡ length refs + k → result ≡ get_or ys k 0 }
{
    if i < heap.top { operand(heap, i) } else { 0 }
}

// Kept: script, heap and the place of the first operand as parameters. A struct of them would hold the heap to be changed, and be made anew for
// each term that ends, for one call.

// The end of an operator whose amount, if it has one, has its node.
fn end_over(
    script: &[u8],
    heap: &mut Heap,
    base: usize,
    o: Operator,
    amount: u64,
) -> Result<u64, OverLimit>
    requires { Ends script.now heap.old base }
    ensures { (s : List Item) (refs rs : List Ref) (ks : List ℕ) (ms : List (List ℕ)) → Ending script.now heap.old base s refs rs
        → OperatorOver o.kind o.first o.second amount s ks ms (length rs)
        → EndedAs script.now heap.new refs (ended (pending_in rs) (operator_item o.kind ks rs ms) s) result }
{
    settle_all(script, heap, base)?;
    let x = operand_or_zero(heap, base);
    let y = operand_or_zero(heap, base + 1);
    let z = operand_or_zero(heap, base + 2);
    let n = operator_record(o, x, y, z, amount);
    add_operator(heap, base, n)
}

// The end of an operator whose operands wait from place `base` on; w is the first operand's width.
// Ruled out: an amount as wide as its numeral needs; the constants among the operands before the amount.
pub fn end_operator(
    script: &[u8],
    heap: &mut Heap,
    base: usize,
    o: Operator,
    w: u64,
) -> Result<u64, OverLimit>
    requires { Ends script.now heap.old base }
    ensures { (s : List Item) (refs rs : List Ref) (ks : List ℕ) (ms : List (List ℕ)) → Ending script.now heap.old base s refs rs
        → OperatorEnds o.kind o.first o.second w ks ms (length rs)
        → EndedAs script.now heap.new refs (ended (ms ++ pending_in rs) (operator_item o.kind ks rs ms) s) result }
{
    match Shape::from(o.kind) {
        Shape::Rotation(_) => {
            let m = settle_number(heap, o.first, w)?;
            end_over(script, heap, base, o, m)
        }
        _ => end_over(script, heap, base, o, 0),
    }
}

// The end of a call of function g, whose arguments wait from place `base` on.
// Ruled out: the node before those of the constants among its arguments; another function's number.
pub fn end_call(
    script: &[u8],
    heap: &mut Heap,
    base: usize,
    g: u64,
    width: u64,
) -> Result<u64, OverLimit>
    requires { Ends script.now heap.old base }
    ensures { (s : List Item) (refs rs : List Ref) → Ending script.now heap.old base s refs rs
        → EndedAs script.now heap.new refs (ended (pending_in rs) (λ node. a_call g width (map node rs)) s) result }
{
    settle_all(script, heap, base)?;
    add_call(heap, base, g, width)
}

// The end of a select under stores, whose operands wait from place `base` on, the innermost store's first.
// Ruled out: the stores in the order of the script; the first operand for the select's own index.
pub fn end_select(
    script: &[u8],
    heap: &mut Heap,
    base: usize,
    stores: usize,
    array: u64,
) -> Result<u64, OverLimit>
    requires ends { Ends script.now heap.old base }
    requires stores { base + (2 * stores + 1) ≡ heap.old.top }
    ensures { (s : List Item) (refs rs : List Ref) → Ending script.now heap.old base s refs rs → length rs ≡ 2 * stores + 1
        → EndedAs script.now heap.new refs
        (ended (pending_in rs) (λ node. a_select array (get_or (map node rs) (2 * stores) 0) (pairs_back stores (map node rs))) s) result }
{
    settle_all(script, heap, base)?;
    add_select(heap, base, stores, array)
}
