// A problem as it is lent: its eighteen slices by name. Beside it what all readers of lent slices need: what stands at a place, a
// node's record taken apart, a slice cleared.
// Under "Ruled out" stand wrong programs that a public function's contract refuses.
#![tactic(auto)]

ghost use Rattle.std.specs.Prelude.{◌≡◌, ◌+◌, ◌*◌, ◌^◌, ◌≤◌, ◌<◌, length, get_or, replicate, None};
ghost use Rattle.echo_spec.specs.Input as input;
ghost use Rattle.lent.specs.Records.{node_of};
ghost use Rattle.lent.specs.Clearing.{left};

use refusals::RECORD;

// ---------------------------------------------------------------- the problem

// What an entry point is lent: the nodes, their bits and side entries, the roots, and the tables of variables, arrays and functions, each an
// arena of names and columns of one length.
#[derive(Clone, Copy)]
pub struct Problem<'a> {
    pub nodes: &'a [u8],
    pub bits: &'a [u8],
    pub side: &'a [u64],
    pub roots: &'a [u64],
    pub names: &'a [u8],
    pub name_start: &'a [u64],
    pub name_len: &'a [u64],
    pub var_node: &'a [u64],
    pub var_width: &'a [u64],
    pub anames: &'a [u8],
    pub aname_start: &'a [u64],
    pub aname_len: &'a [u64],
    pub index_width: &'a [u64],
    pub value_width: &'a [u64],
    pub fnames: &'a [u8],
    pub fname_start: &'a [u64],
    pub fname_len: &'a [u64],
    pub func_width: &'a [u64],
}

// ---------------------------------------------------------------- numbers

// 32 bits from place i on, least significant byte first. Ruled out: the most significant byte first; the byte after place i as the lowest.
#[tactic(auto, unfolding(echo_spec::specs::Input::word32))]
pub fn word32(s: &[u8], i: usize) -> u64
    requires { i + 4 ≤ length s.now }
    ensures { (result ≡ input.word32 s.now i) × (result < 2 ^ 32) }
{
    u64::from(u32::from_le_bytes([s[i], s[i + 1], s[i + 2], s[i + 3]]))
}

// What stands at place i, or `past` where that lies past the end. Ruled out: the last element past the end; the element after i.
pub fn at<T: Copy>(xs: &[T], i: u64, past: T) -> T
    ensures { result ≡ get_or xs.now i past }
{
    xs.get(i as usize).copied().unwrap_or(past)
}

// Entry i, or 0 past the end. Ruled out: the last entry where i lies past it; the entry after i.
pub fn get(s: &[u64], i: u64) -> u64
    ensures { result ≡ get_or s.now i 0 }
{
    at(s, i, 0)
}

// ---------------------------------------------------------------- node records

// A record: its kind and its four operands, as wide as the widths and side entries that they are compared with.
#[derive(Clone, Copy, Debug, PartialEq, Eq)]
pub struct Node {
    pub kind: u8,
    pub a: u64,
    pub b: u64,
    pub c: u64,
    pub d: u64,
}

// The node past the last one. Kept: 255, a kind that is in no table, as the definition of that node has it.
const NO_NODE: Node = Node {
    kind: 255,
    a: 0,
    b: 0,
    c: 0,
    d: 0,
};

// How many whole records there are. Ruled out: the count of bytes; one record more where bytes are left over.
pub fn node_count(nodes: &[u8]) -> usize
    ensures { result ≡ length (input.nodes_of nodes.now) }
{
    nodes.len() / RECORD
}

// Record i. Ruled out: the highest byte of an operand first; the record before it.
#[tactic(auto, unfolding(echo_spec::specs::Input::node_at))]
pub fn node_at(nodes: &[u8], i: usize) -> Node
    requires { RECORD * i + RECORD ≤ length nodes.now }
    ensures { node_of result ≡ input.node_at nodes.now i }
{
    let at = RECORD * i;
    Node {
        kind: nodes[at],
        a: word32(nodes, at + 1),
        b: word32(nodes, at + 5),
        c: word32(nodes, at + 9),
        d: word32(nodes, at + 13),
    }
}

// Node x, or the node past the last one. Ruled out: the first node in its place; the last.
pub fn node_of(nodes: &[u8], x: u64) -> Node
    ensures { node_of result ≡ get_or (input.nodes_of nodes.now) x input.no_node }
{
    let i = x as usize;
    if i < node_count(nodes) {
        node_at(nodes, i)
    } else {
        NO_NODE
    }
}

// ---------------------------------------------------------------- what was lent, cleared

// What a cleared slice has at each place.
pub trait Zero: Copy {
    ghost ZERO: { Self };

    const ZERO: Self;
}

impl Zero for u8 {
    ghost ZERO = { 0 };

    const ZERO: u8 = 0;
}

impl Zero for u64 {
    ghost ZERO = { 0 };

    const ZERO: u64 = 0;
}

// A table of places has none.
impl Zero for Option<usize> {
    ghost ZERO = { None };

    const ZERO: Option<usize> = None;
}

// All of what was lent becomes 0. Ruled out: the last place left as it was; a blank in place of 0; only as many cleared as were written.
pub fn clear<T: Zero>(out: &mut [T])
    ensures { out.new ≡ replicate (length out.old) T.ZERO }
{
    // Kept: `fill` asks that a clone cannot fail and is the element itself, which a type parameter would need laws for.
    for x in out.iter_mut() {
        *x = T::ZERO;
    }
}

// What was lent, behind an answer: a refusal clears it. Ruled out: what was written left behind a refusal; a result cleared.
pub fn clear_on_refusal<T: Zero, V, E>(told: &Result<V, E>, out: &mut [T])
    ensures { out.new ≡ left T.ZERO told.now out.old }
{
    if told.is_err() {
        clear(out);
    }
}
