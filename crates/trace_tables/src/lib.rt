// What is worked out of each node once, before the rows of a trace: a variable's column, a constant's number, a rotation's amount.
#![tactic(auto)]

ghost use Rattle.std.specs.Prelude.{◌≡◌, ◌&&◌, cond, ℕ, ◌+◌, ◌%◌, ◌^◌, ◌≤◌, ◌<◌, ltb, leb, eqb, length, take, drop, get_or};
ghost use Rattle.reading.specs.Kinds.{Const};
ghost use Rattle.echo_spec.specs.Input.{nodes_of, no_node};
ghost use Rattle.echo_spec.specs.Trees.{constant_bits, bits_value};
ghost use Rattle.vectors.specs.Values.{number};
ghost use Rattle.trace_tables.specs.Fixed.{Usable, Inside, Steady, place_in, fixed_of, Fixed};

use blast_kernel::Shape;
use echo_tables::{looked_up, rot_amount};
use lent::{Node, Problem, get, node_count, node_of};
use refusals::MAX_NODES;

// A constant's bits, the lowest first.
fn bits_of(bits: &[u8], n: Node) -> &[u8]
    requires { n.a + n.b ≤ length bits.now }
    ensures { result.now ≡ take n.b (drop n.a bits.now) }
{
    let from = n.a as usize;
    let to = (n.a + n.b) as usize;
    &bits[from..to]
}

// A constant's number, from the highest bit down. Ruled out: the lowest bit as the highest; the number without its lowest bit.
pub fn constant(bits: &[u8]) -> u64
    requires word { length bits.now ≤ 64 }
    requires digits { (k : ℕ) → get_or bits.now k 0 ≤ 1 }
    ensures number { result ≡ number bits.now }
    ensures below { result < 2 ^ length bits.now }
{
    let mut r: u64 = 0;
    for b in bits.iter().rev() {
        r = 2 * r + u64::from(*b);
    }
    r
}

// The amount that node b is, modulo the width. Ruled out: the amount itself; that of the node before b.
pub fn amount(nodes: &[u8], bits: &[u8], b: u64, w: u64) -> u64
    requires width { (0 < w) × (w ≤ 64) }
    requires inside { Inside nodes.now bits.now b }
    ensures { result ≡ bits_value (constant_bits bits.now (get_or (nodes_of nodes.now) b no_node)) % w }
{
    rot_amount(bits_of(bits, node_of(nodes, b)), w)
}

// A problem with the widths of its nodes, as the width pass has them with some array widths and side entries.
#[derive(Clone, Copy)]
pub struct Terms<'a> {
    pub problem: Problem<'a>,
    pub widths: &'a [u64],
    pub ghost usable: { Usable problem.nodes.now problem.bits.now widths.now },
}

impl<'a> Terms<'a> {
    // The amount of a rotation of this width by node b, if b is a constant and the width one that a word holds.
    fn turned(&self, b: u64, w: u64) -> u64
        requires { Steady self.now.problem.nodes.now self.now.problem.bits.now b }
        ensures { result ≡ cond ((ltb 0 w && leb w 64) && eqb (get_or (nodes_of self.now.problem.nodes.now) b no_node).kind Const) (bits_value (constant_bits self.now.problem.bits.now (get_or (nodes_of self.now.problem.nodes.now) b no_node)) % w) 0 }
    {
        match Shape::from(node_of(self.problem.nodes, b).kind) {
            Shape::Const if 0 < w && w <= 64 => {
                amount(self.problem.nodes, self.problem.bits, b, w)
            }
            _ => 0,
        }
    }

    // What is worked out of node i: 0 for what does not fit a word, and for the other kinds.
    // Kept: a number whose meaning goes by the kind, as `value` of trace_terms takes it; an enum of the three would say the kind again, and the other
    // cases in each of its arms could not come.
    fn fixed(&self, entries: &[Option<usize>], i: u64) -> u64
        requires { i < length (nodes_of self.now.problem.nodes.now) }
        ensures { result ≡ fixed_of (nodes_of self.now.problem.nodes.now) self.now.widths.now self.now.problem.bits.now entries.now i }
    {
        let n = node_of(self.problem.nodes, i);
        match Shape::from(n.kind) {
            Shape::Var => looked_up(entries, i).unwrap_or(0) as u64,
            Shape::Const => {
                if n.b > 64 {
                    return 0;
                }
                constant(bits_of(self.problem.bits, n))
            }
            Shape::Rotation(_) => self.turned(n.b, get(self.widths, i)),
            _ => 0,
        }
    }

    // The table of it, for each node. Ruled out: the entry after a variable's for its own; a rotation's amount of a wider rotation, which is
    // left out.
    pub fn fill(&self, entries: &[Option<usize>], out: &mut [u64; MAX_NODES])
        requires { length (nodes_of self.now.problem.nodes.now) ≤ MAX_NODES }
        ensures { Fixed self.now.problem.nodes.now self.now.problem.bits.now self.now.widths.now entries.now out.new }
    {
        for (i, x) in out[..node_count(self.problem.nodes)].iter_mut().enumerate() {
            *x = self.fixed(entries, i as u64);
        }
    }
}
