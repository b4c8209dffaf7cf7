// Which nodes but selects and calls are well formed after the nodes before them, and how wide they are. `ws` has the widths of
// the nodes before, so its length is the node's own number. Under "Ruled out" stand wrong programs that a public function's contract
// refuses.
#![tactic(auto)]

ghost use Rattle.std.specs.Prelude.{◌≡◌, ◌&&◌, ◌+◌, ◌-◌, leb, ltb};
ghost use Rattle.std.specs.Bool.{then_some};
ghost use Rattle.echo_spec.specs.Input as input;
ghost use Rattle.echo_spec.specs.Widths as widths;
ghost use Rattle.lent.specs.Records.{node_of};
ghost use Rattle.kernel.specs.Closed.{closed_wf, closed_width};

use blast_kernel::Shape;
use lent::{Node, get};

// Is i the number of an earlier node. Ruled out: the node itself; node 0 left out.
// Kept: a test beside `get`, and no `Option` of the width: each check below reads as its definition does.
pub fn earlier(ws: &[u64], i: u64) -> bool
    ensures { result ≡ widths.earlier ws.now i }
{
    (i as usize) < ws.len()
}

// Is i the number of an earlier node of width w. Ruled out: a number past the list where w is 0; a wider node.
pub fn earlier_of(ws: &[u64], w: u64, i: u64) -> bool
    ensures { result ≡ widths.earlier_of ws.now w i }
{
    earlier(ws, i) && get(ws, i) == w
}

// One earlier bit-vector. Ruled out: a node of width 0; the node itself.
#[tactic(auto, unfolding(echo_spec::specs::Widths::un_wf))]
pub fn un_wf(ws: &[u64], a: u64) -> bool
    ensures { result ≡ widths.un_wf ws.now a }
{
    earlier(ws, a) && get(ws, a) > 0
}

// Two earlier bit-vectors of one width. Ruled out: two widths that differ; only the first looked at.
#[tactic(auto, unfolding(echo_spec::specs::Widths::bin_wf))]
pub fn bin_wf(ws: &[u64], a: u64, b: u64) -> bool
    ensures { result ≡ widths.bin_wf ws.now a b }
{
    earlier(ws, a) && earlier(ws, b) && get(ws, a) > 0 && get(ws, a) == get(ws, b)
}

// Two earlier nodes of width 1. Ruled out: two nodes of width 8; only the first looked at.
#[tactic(auto, unfolding(echo_spec::specs::Widths::bool_bin_wf))]
pub fn bool_bin_wf(ws: &[u64], a: u64, b: u64) -> bool
    ensures { result ≡ widths.bool_bin_wf ws.now a b }
{
    earlier_of(ws, 1, a) && earlier_of(ws, 1, b)
}

// Is this the width of a term: above 0 and of 64 bits, as each number here is. Ruled out: a width of 0; the largest number refused.
pub fn has_width(w: u64) -> bool
    ensures { result ≡ (ltb 0 w && input.fits64 w) }
{
    w > 0
}

// A constant's w bits from place s on are among the bits.
fn const_wf(nbits: usize, s: u64, w: u64) -> bool
    ensures { result ≡ (ltb 0 w && (input.fits64 w && leb (s + w) nbits)) }
{
    let n = nbits as u64;
    w > 0 && s <= n && w <= n - s
}

// The width of the bits hi to lo of an earlier bit-vector.
fn extracted(ws: &[u64], hi: u64, lo: u64, a: u64) -> Option<u64>
    ensures { result ≡ then_some (widths.earlier ws.now a && (leb lo hi && ltb hi (widths.width_at ws.now a))) (hi - lo + 1) }
{
    if earlier(ws, a) && lo <= hi && hi < get(ws, a) {
        Some(hi - lo + 1)
    } else {
        None
    }
}

// The width of two earlier bit-vectors, joined, that are not too wide for it.
fn joined(ws: &[u64], a: u64, b: u64) -> Option<u64>
    ensures { result ≡ then_some (widths.un_wf ws.now a && (widths.un_wf ws.now b
        && leb (widths.width_at ws.now a + widths.width_at ws.now b) input.largest)) (widths.width_at ws.now a + widths.width_at ws.now b) }
{
    if un_wf(ws, a) && un_wf(ws, b) {
        get(ws, a).checked_add(get(ws, b))
    } else {
        None
    }
}

// The width of an earlier bit-vector, extended, that is not too wide for it.
#[tactic(auto, unfolding(echo_spec::specs::Widths::extend_wf))]
fn extended(ws: &[u64], a: u64, by: u64) -> Option<u64>
    ensures { result ≡ then_some (widths.extend_wf ws.now a by) (widths.width_at ws.now a + by) }
{
    if un_wf(ws, a) {
        get(ws, a).checked_add(by)
    } else {
        None
    }
}

// A Bool and two bit-vectors of one width.
fn ite_wf(ws: &[u64], c: u64, t: u64, e: u64) -> bool
    ensures { result ≡ (widths.earlier_of ws.now 1 c && widths.bin_wf ws.now t e) }
{
    earlier_of(ws, 1, c) && bin_wf(ws, t, e)
}

// The width of a node that is well formed; of a select and a call there is none here: they are `Pass::node_width`'s. Ruled out: an extraction up to
// the bit past the last; a constant whose last bit lies past the bits; an extraction one bit narrower; a comparison as wide as its operands.
#[tactic(auto, unfolding(echo_spec::specs::Widths::wf_as, echo_spec::specs::Widths::width_as, crate::specs::Closed::closed))]
pub fn node_width(ws: &[u64], nbits: usize, n: Node) -> Option<u64>
    ensures { result ≡ then_some (closed_wf nbits ws.now (node_of n)) (closed_width ws.now (node_of n)) }
{
    match Shape::from(n.kind) {
        Shape::Var => has_width(n.a).then_some(n.a),
        Shape::Const => const_wf(nbits, n.a, n.b).then_some(n.b),
        Shape::Binary(_) | Shape::Rotation(_) => bin_wf(ws, n.a, n.b).then_some(get(ws, n.a)),
        Shape::Extraction => extracted(ws, n.a, n.b, n.c),
        Shape::Concat => joined(ws, n.a, n.b),
        Shape::Extension(_) => extended(ws, n.a, n.b),
        Shape::Ite => ite_wf(ws, n.a, n.b, n.c).then_some(get(ws, n.b)),
        Shape::Comparison(_) => bin_wf(ws, n.a, n.b).then_some(1),
        Shape::Negation => earlier_of(ws, 1, n.a).then_some(1),
        Shape::Connective(_) => bool_bin_wf(ws, n.a, n.b).then_some(1),
        Shape::Unary(_) => un_wf(ws, n.a).then_some(get(ws, n.a)),
        Shape::Select | Shape::Call | Shape::Unknown => None,
    }
}
