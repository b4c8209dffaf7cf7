// The width pass: selects and calls over the side entries, every node in turn, and the entry point `ext_wf`. Side entries are numbers
// of 64 bits, and one is a node only if it is below the count. Under "Ruled out" stand wrong programs that a public function's
// contract refuses.
#![tactic(auto)]

ghost use Rattle.std.specs.Prelude.{◌≡◌, ◌&&◌, ◌≤◌, ltb, length, drop};
ghost use Rattle.std.specs.Bool.{then_some};
ghost use Rattle.lists.specs.Tests.{every};
ghost use Rattle.echo_spec.specs.Input.{array_columns, pass_within, nodes_of, fits64};
ghost use Rattle.echo_spec.specs.Widths as widths;
ghost use Rattle.lent.specs.Records.{node_of};
ghost use Rattle.lent.specs.Clearing.{left};
ghost use Rattle.echo_spec.specs.Answers.{ext_wf_answer};
ghost use Rattle.sliver_kernel.specs.Arrays.{columns_of};
ghost use Rattle.sliver_kernel.specs.Pass.{Passed};
ghost use Rattle.sliver_kernel.specs.Outcomes.{Measured, answered};
ghost use Rattle.sliver_kernel.specs.Outcomes as outcomes;
ghost use Rattle.refusals.specs.Numbers.{error_number};

use blast_kernel::Shape;
use kernel::{earlier, earlier_of};
use lent::{Node, Problem, at, clear_on_refusal, node_at, node_count};
use refusals::{EchoError, MAX_ARRAY_WIDTH, MAX_ENTRIES, MAX_NODES};

// ---------------------------------------------------------------- the array table

// The two columns of the array table that say how wide an array's index and value are, by its number.
#[derive(Clone, Copy)]
pub struct ArrayWidths<'a> {
    pub index: &'a [u64],
    pub value: &'a [u64],
}

// One width of a column. Ruled out: 0; the limit refused.
fn allowed(w: u64) -> bool
    ensures { result ≡ widths.array_width_ok w }
{
    (1..=MAX_ARRAY_WIDTH).contains(&w)
}

// Every width of a column.
fn column_allowed(column: &[u64]) -> bool
    ensures { result ≡ every widths.array_width_ok column.now }
{
    column.iter().all(|w| allowed(*w))
}

impl<'a> ArrayWidths<'a> {
    // Those of a problem. Ruled out: the two columns exchanged; the columns of the functions.
    pub fn of(problem: &Problem<'a>) -> ArrayWidths<'a>
        ensures { result ≡ record { index = problem.now.index_width; value = problem.now.value_width } }
    {
        ArrayWidths {
            index: problem.index_width,
            value: problem.value_width,
        }
    }

    // The width of an array's index, by its number: the column's, or 32 past its end, as the Rust has it. Ruled out: 64; the array's number; the first
    // entry for all.
    #[tactic(auto, unfolding(echo_spec::specs::Widths::index_width_of))]
    pub fn index_of(&self, array: u64) -> u64
        ensures { result ≡ widths.index_width_of self.now.index.now array }
    {
        at(self.index, array, 32)
    }

    // The width of an array's value, 8 past the column's end. Ruled out: the index's; 1; 0 past the column's end.
    #[tactic(auto, unfolding(echo_spec::specs::Widths::value_width_of))]
    pub fn value_of(&self, array: u64) -> u64
        ensures { result ≡ widths.value_width_of self.now.value.now array }
    {
        at(self.value, array, 8)
    }

    // `ArrayWidth` is where this is false: the widths of every array, used or not. Ruled out: the first array's alone; the values' unchecked.
    #[tactic(auto, unfolding(echo_spec::specs::Widths::array_widths_ok))]
    pub fn allowed(&self) -> bool
        ensures { result ≡ widths.array_widths_ok (columns_of self.now) }
    {
        column_allowed(self.index) && column_allowed(self.value)
    }
}

// `Limit` of the width pass is where this is false. Ruled out: the two columns without a limit; 512 entries refused.
#[tactic(auto, unfolding(echo_spec::specs::Input::pass_within, echo_spec::specs::Input::column_within))]
fn pass_within(nodes: &[u8], bits: &[u8], side: &[u64], arrays: &ArrayWidths) -> bool
    ensures { result ≡ pass_within nodes.now bits.now side.now (columns_of arrays.now) }
{
    blast_kernel::nodes_within(nodes, bits, side)
        && arrays.index.len() <= MAX_ENTRIES
        && arrays.value.len() <= MAX_ENTRIES
}

// ---------------------------------------------------------------- selects and calls

// The entries from place s on, of which there are none past the last.
// Kept: private, beside the line of echo_sharing's `stretch` that says the same: shared, one line would be a public function with edits.
fn entries_from<'a>(side: &'a [u64], s: u64) -> &'a [u64]
    ensures { result.now ≡ drop s side.now }
{
    side.get(s as usize..).unwrap_or(&[])
}

// n pairs of an index and a value from place s of the side entries on. (The Rust's `chain_wf`, with the two widths as parameters.) Ruled
// out: value before index; a last pair of which only the index lies within the entries.
// Kept: a loop, whose pattern takes a pair apart and tells where the entries end; with `chunks_exact` both would be said beside it.
pub fn chain_wf(ws: &[u64], side: &[u64], index: u64, value: u64, s: u64, n: u64) -> bool
    ensures { result ≡ widths.chain_wf index value ws.now n (drop s side.now) }
{
    let mut rest = entries_from(side, s);
    for _pair in 0..n {
        let [x, v, others @ ..] = rest else {
            return false;
        };
        if !earlier_of(ws, index, *x) {
            return false;
        }
        if !earlier_of(ws, value, *v) {
            return false;
        }
        rest = others;
    }
    true
}

// n arguments from place s of the side entries on. Ruled out: an argument that is the call itself; arguments past the entries left out.
pub fn args_wf(ws: &[u64], side: &[u64], s: u64, n: u64) -> bool
    ensures { result ≡ widths.args_wf ws.now n (drop s side.now) }
{
    let rest = entries_from(side, s);
    // Kept: a test and then a cut; in `get(..count).is_some_and(..)` a closure would stand inside a closure.
    let count = n as usize;
    count <= rest.len() && rest[..count].iter().all(|x| earlier(ws, *x))
}

// ---------------------------------------------------------------- the pass

// What the pass looks at beside the widths so far: how many bits there are, the side entries, and the widths of the arrays.
#[derive(Clone, Copy)]
pub struct Pass<'a> {
    pub nbits: usize,
    pub side: &'a [u64],
    pub arrays: ArrayWidths<'a>,
}

impl<'a> Pass<'a> {
    // The pass over a problem's nodes. Ruled out: as many bits as there are nodes; the roots for the side entries.
    pub fn of(problem: &Problem<'a>) -> Pass<'a>
        ensures bits { result.nbits ≡ length problem.now.bits.now }
        ensures side { result.side ≡ problem.now.side }
        ensures arrays { result.arrays ≡ record { index = problem.now.index_width; value = problem.now.value_width } }
    {
        Pass {
            nbits: problem.bits.len(),
            side: problem.side,
            arrays: ArrayWidths::of(problem),
        }
    }

    // The width of a select: array number, index, side start and number of stores.
    fn select_width(&self, ws: &[u64], array: u64, i: u64, s: u64, n: u64) -> Option<u64>
        ensures { result ≡ then_some (widths.earlier_of ws.now (widths.index_width_of self.now.arrays.index.now array) i
            && widths.chain_wf (widths.index_width_of self.now.arrays.index.now array) (widths.value_width_of self.now.arrays.value.now array) ws.now n
            (drop s self.now.side.now)) (widths.value_width_of self.now.arrays.value.now array) }
    {
        let arrays = self.arrays;
        let index = arrays.index_of(array);
        let value = arrays.value_of(array);
        (earlier_of(ws, index, i) && chain_wf(ws, self.side, index, value, s, n)).then_some(value)
    }

    // The width of a call: that, side start and number of arguments.
    fn call_width(&self, ws: &[u64], w: u64, s: u64, n: u64) -> Option<u64>
        ensures { result ≡ then_some (ltb 0 w && (fits64 w && widths.args_wf ws.now n (drop s self.now.side.now))) w }
    {
        (kernel::has_width(w) && args_wf(ws, self.side, s, n)).then_some(w)
    }

    // The width of the node, if it is well formed after nodes of the widths `ws`. (The Rust's `ext_node_wf` and `ext_node_width` at once, but that a
    // kind stands for the case of `ExtNode`.) Ruled out: a call of width 0; a select whose chain is not looked at; a select as wide as its index; a call
    // as wide as its first argument.
    #[tactic(auto, unfolding(echo_spec::specs::Widths::node_wf, echo_spec::specs::Widths::wf_as, echo_spec::specs::Widths::node_width, echo_spec::specs::Widths::width_as))]
    pub fn node_width(&self, ws: &[u64], n: Node) -> Option<u64>
        ensures { result ≡ then_some (widths.node_wf self.now.nbits (columns_of self.now.arrays) self.now.side.now ws.now (node_of n))
            (widths.node_width (columns_of self.now.arrays) ws.now (node_of n)) }
    {
        match Shape::from(n.kind) {
            Shape::Select => self.select_width(ws, n.a, n.b, n.c, n.d),
            Shape::Call => self.call_width(ws, n.b, n.c, n.d),
            _ => kernel::node_width(ws, self.nbits, n),
        }
    }

    // Each node's width in turn, up to the first that is not well formed: the answer is how many were written. (The Rust's `ext_wf` without
    // its `Result`; the printer calls it too.) Ruled out: the node count where a node is refused; a table that is all 0.
    pub fn widths(&self, nodes: &[u8], ws: &mut [u64]) -> usize
        requires { length (nodes_of nodes.now) ≤ length ws.old }
        ensures { Passed self.now.nbits (columns_of self.now.arrays) self.now.side.now (nodes_of nodes.now) result ws.new }
    {
        let count = node_count(nodes);
        // Kept: by places, since a width is made from those before; and the answer is a count, which is what the definition `Passed` tells.
        for i in 0..count {
            let node = node_at(nodes, i);
            let Some(w) = self.node_width(&ws[..i], node) else {
                return i;
            };
            ws[i] = w;
        }
        count
    }
}

// ---------------------------------------------------------------- the entry point

// Why the width pass refuses.
#[derive(Clone, Copy, Debug, PartialEq, Eq)]
pub enum WidthError {
    // The number of the first node that is not well formed, or the node count where the two columns differ in length.
    Malformed(usize),
    // The nodes or bits are encoded wrongly.
    Encoding,
    // An input is over its limit.
    Limit,
    // The lent slice is shorter than the node count.
    Room,
    // A width in the array table is 0 or over 65,536.
    ArrayWidth,
}

// A refusal of the width pass as the printer has it: its number is the same. Ruled out: every one as a node that is not well formed; a
// wrong array width told as a wrong encoding.
impl From<WidthError> for EchoError {
    ghost from_gives = { λ w e. error_number e ≡ outcomes.error_number w };

    fn from(e: WidthError) -> EchoError {
        match e {
            WidthError::Malformed(_) => EchoError::Malformed,
            WidthError::Encoding => EchoError::Encoding,
            WidthError::Limit => EchoError::Limit,
            WidthError::Room => EchoError::Room,
            WidthError::ArrayWidth => EchoError::ArrayWidth,
        }
    }
}

// Every check but the one for room, in order, and the widths of all nodes in a table of the pass's own; or the first refusal.
// Kept: nodes, bits, side entries and arrays as four parameters, here and in `written`: the entry point for C has them one by one, and
// a struct of them would be made for one call.
fn measured(
    nodes: &[u8],
    bits: &[u8],
    side: &[u64],
    arrays: &ArrayWidths,
    ws: &mut [u64; MAX_NODES],
) -> Result<usize, WidthError>
    ensures { Measured nodes.now bits.now side.now (columns_of arrays.now) ws.new result }
{
    if !pass_within(nodes, bits, side, arrays) {
        return Err(WidthError::Limit);
    }
    if !blast_kernel::encoded(nodes, bits) {
        return Err(WidthError::Encoding);
    }
    if arrays.index.len() != arrays.value.len() {
        return Err(WidthError::Malformed(node_count(nodes)));
    }
    if !arrays.allowed() {
        return Err(WidthError::ArrayWidth);
    }
    let nbits = bits.len();
    let pass = Pass {
        nbits,
        side,
        arrays: *arrays,
    };
    let n = pass.widths(nodes, ws);
    if n < node_count(nodes) {
        return Err(WidthError::Malformed(n));
    }
    Ok(n)
}

// The pass, without what a refusal does to the lent slice.
fn written(
    nodes: &[u8],
    bits: &[u8],
    side: &[u64],
    arrays: &ArrayWidths,
    out: &mut [u64],
) -> Result<usize, WidthError>
    ensures { answered result (left 0 result out.new) ≡ ext_wf_answer nodes.now bits.now side.now (columns_of arrays.now) out.old }
{
    let mut ws = [0u64; MAX_NODES];
    let n = measured(nodes, bits, side, arrays, &mut ws)?;
    if n > out.len() {
        return Err(WidthError::Room);
    }
    out[..n].copy_from_slice(&ws[..n]);
    Ok(n)
}

// THE WIDTH PASS. With a slice that is too short every node is still looked at, in a table of the pass's own, so that a node that
// is refused is told before the want of room.
pub fn ext_wf(
    nodes: &[u8],
    bits: &[u8],
    side: &[u64],
    index_width: &[u64],
    value_width: &[u64],
    out: &mut [u64],
) -> Result<usize, WidthError>
    ensures { answered result out.new
        ≡ ext_wf_answer nodes.now bits.now side.now (array_columns index_width.now value_width.now)
        out.old }
{
    let arrays = ArrayWidths {
        index: index_width,
        value: value_width,
    };
    let told = written(nodes, bits, side, &arrays, out);
    clear_on_refusal(&told, out);
    told
}
