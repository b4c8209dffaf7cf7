// The sharing guard: how often each node is used, and that only variables and constants are used more than once.
// Of the Rust's functions `bump_core` is joined with `bump_node`, which has an arm for each shape of `blast_kernel`, the loops of `bump_side`
// and `count_roots` are one, `bump_each`, and the test inside the loop of `no_shared` is `used_once`. The counts are an array of 2,048, the
// limit on nodes, where the Rust has one for each node.
#![tactic(auto)]

ghost use Rattle.std.specs.Prelude.{◌≡◌, ◌||◌, ◌&&◌, not, [], ◌∷◌, ◌++◌, ◌*◌, ◌≤◌, leb, ltb, false, length, take, drop, get_or};
ghost use Rattle.lists.specs.Tests.{every_from};
ghost use Rattle.echo_spec.specs.Shapes.{shape_of, is_leaf};
ghost use Rattle.echo_spec.specs.Input.{shape, nodes_of};
ghost use Rattle.echo_spec.specs.Sharing.{uses_as, uses_of_all, unshared as «Unshared-of»};
ghost use Rattle.lent.specs.Records.{node_of};
ghost use Rattle.echo_sharing.specs.Counts.{bumped, counted, once_in};
ghost use Rattle.echo_sharing.specs.Flags.{Flags, SharedIn};

use blast_kernel::Shape;
use lent::{Node, Problem, at, node_at, node_count};
use refusals::{MAX_NODE_BYTES, MAX_NODES};

// ---------------------------------------------------------------- counting

// One more use of node i, saturating at two. A node past the table is not counted. (Two stores, since with one that is computed from the count each
// use of a node waits for the one before it.)
#[tactic(auto, unfolding(crate::specs::Counts::bumped))]
fn bump(uses: &mut [u8], i: u64)
    ensures { uses.new ≡ bumped uses.old i }
{
    let k = i as usize;
    if k < uses.len() {
        if uses[k] == 0 {
            uses[k] = 1;
        } else {
            uses[k] = 2;
        }
    }
}

// One more use of each node of a list.
#[tactic(auto, unfolding(crate::specs::Counts::counted))]
fn bump_each(uses: &mut [u8], us: &[u64])
    ensures { uses.new ≡ counted uses.old us.now }
{
    for i in us {
        bump(uses, *i);
    }
}

// The n side entries from s on, or as many as there are. Ruled out: the entries from the one after s; no entries where there are fewer than n.
pub fn stretch<'a>(side: &'a [u64], s: u64, n: u64) -> &'a [u64]
    ensures { result.now ≡ take n (drop s side.now) }
{
    let rest = side.get(s as usize..).unwrap_or(&[]);
    rest.get(..n as usize).unwrap_or(rest)
}

// The side entries of n stores from s on, two for each. More stores than entries have no more than all of them, so that the product fits.
// Ruled out: one entry for each; a product that wraps.
pub fn stores<'a>(side: &'a [u64], s: u64, n: u64) -> &'a [u64]
    ensures { result.now ≡ take (2 * n) (drop s side.now) }
{
    let most = side.len() as u64;
    stretch(side, s, 2 * n.min(most))
}

// ---------------------------------------------------------------- the operands of a node

// One more use of each operand of a node that is itself a node, by the node's shape.
#[tactic(auto, unfolding(echo_spec::specs::Sharing::uses_as, crate::specs::Counts::counted))]
fn bump_node(uses: &mut [u8], side: &[u64], node: Node)
    ensures { uses.new ≡ counted uses.old (uses_as side.now (node_of node) (shape (node_of node))) }
{
    match Shape::from(node.kind) {
        Shape::Var | Shape::Const | Shape::Unknown => {}
        Shape::Extraction => bump(uses, node.c),
        Shape::Extension(_) | Shape::Negation | Shape::Unary(_) => bump(uses, node.a),
        Shape::Binary(_)
        | Shape::Rotation(_)
        | Shape::Concat
        | Shape::Comparison(_)
        | Shape::Connective(_) => { bump_each(uses, &[node.a, node.b]) }
        Shape::Ite => bump_each(uses, &[node.a, node.b, node.c]),
        Shape::Select => {
            bump(uses, node.b);
            bump_each(uses, stores(side, node.c, node.d));
        }
        Shape::Call => bump_each(uses, stretch(side, node.c, node.d)),
    }
}

// The uses of every node's operands, counted on. Ruled out: a rotation's amount left out; the operands of a node that no root reaches left out.
pub fn count_operands(uses: &mut [u8], nodes: &[u8], side: &[u64])
    ensures { uses.new ≡ counted uses.old (uses_of_all side.now (nodes_of nodes.now)) }
{
    // Kept: by records' numbers: of a part of `chunks_exact` it would have to be shown that it is the record of that number.
    for i in 0..node_count(nodes) {
        bump_node(uses, side, node_at(nodes, i));
    }
}

// And those of the roots.
fn count_uses(uses: &mut [u8], problem: &Problem)
    ensures { uses.new ≡ counted uses.old (uses_of_all problem.now.side.now (nodes_of problem.now.nodes.now) ++ problem.now.roots.now) }
{
    count_operands(uses, problem.nodes, problem.side);
    bump_each(uses, problem.roots);
}

// ---------------------------------------------------------------- the test

// May a node of this kind be used so often: a variable and a constant may, and the others once.
fn used_once(kind: u8, count: u8) -> bool
    ensures { result ≡ is_leaf (shape_of kind) || leb count 1 }
{
    Shape::from(kind).is_leaf() || count <= 1
}

// Is no operator node used twice? Ruled out: a constant used twice refused; the last node left out.
pub fn no_shared(uses: &[u8], nodes: &[u8]) -> bool
    requires { length (nodes_of nodes.now) ≤ length uses.now }
    ensures { result ≡ every_from (once_in uses.now (nodes_of nodes.now)) 0 (length (nodes_of nodes.now)) }
{
    // Kept: by places, since the counts are known to reach as far as the nodes, and a closure would have to require that of a place.
    for i in 0..node_count(nodes) {
        let node = node_at(nodes, i);
        if !used_once(node.kind, uses[i]) {
            return false;
        }
    }
    true
}

// Is every operator node used once at most, over all nodes, side entries and roots?
// Ruled out: Eq(a,a) counted as one use; roots, a call's side entries, stored values or a rotation's amount left out; a constant used
// twice refused; a second use that is not counted.
pub fn unshared(problem: &Problem) -> bool
    requires { length problem.now.nodes.now ≤ MAX_NODE_BYTES }
    ensures { result ≡ «Unshared-of» (nodes_of problem.now.nodes.now) problem.now.side.now problem.now.roots.now }
{
    let mut uses = [0u8; MAX_NODES];
    count_uses(&mut uses, problem);
    no_shared(&uses, problem.nodes)
}

// ---------------------------------------------------------------- the table of shared operators

// For each node whether it is an operator that is used twice or more. Past the nodes none is.
fn shared_table(uses: &[u8; MAX_NODES], nodes: &[u8]) -> [bool; MAX_NODES]
    requires { length (nodes_of nodes.now) ≤ MAX_NODES }
    ensures { Flags (λ j. ltb j (length (nodes_of nodes.now)) && not (once_in uses.now (nodes_of nodes.now) j)) result }
{
    let mut shared = [false; MAX_NODES];
    // Kept: by places, since a proof knows no element of what `iter_mut` goes over in a chain.
    for i in 0..node_count(nodes) {
        let node = node_at(nodes, i);
        shared[i] = !used_once(node.kind, uses[i]);
    }
    shared
}

// Which operator nodes are used twice or more, where some are.
// Ruled out: a node that is reached twice and used once taken for shared; a call without arguments left out; the table of another problem.
pub fn shared_nodes(problem: &Problem) -> Option<[bool; MAX_NODES]>
    requires { length problem.now.nodes.now ≤ MAX_NODE_BYTES }
    ensures { SharedIn (nodes_of problem.now.nodes.now) problem.now.side.now problem.now.roots.now result }
{
    let mut uses = [0u8; MAX_NODES];
    count_uses(&mut uses, problem);
    if no_shared(&uses, problem.nodes) {
        return None;
    }
    Some(shared_table(&uses, problem.nodes))
}

// Is x a node that is shared, by the table of them. Ruled out: the node after it; the last node past the end.
pub fn flagged(shared: &[bool], x: u64) -> bool
    ensures { result ≡ get_or shared.now x false }
{
    at(shared, x, false)
}
