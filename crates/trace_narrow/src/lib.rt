// The refusal `Wide`: which nodes are at most 64 bits wide, no select and no call, and so all that is reached from them.
#![tactic(auto)]

ghost use Rattle.std.specs.Prelude.{◌≡◌, ◌≤◌, length};
ghost use Rattle.echo_spec.specs.Input.{nodes_of};
ghost use Rattle.trace_narrow.specs.Marks.{marking, Tested, RootsNarrow};
ghost use Rattle.lists.specs.Tests.{every};

use blast_kernel::Shape;
use lent::{at, get, node_count, node_of};
use refusals::MAX_NODES;

// Is each of the nodes marked.
fn all_marked(marks: &[bool], nodes: &[u64]) -> bool
    ensures { result ≡ every (marking marks.now) nodes.now }
{
    nodes.iter().all(|i| at(marks, *i, false))
}

// Node i, from the marks of the nodes before it.
// Kept: by `operands` of echo_tables the kind would be matched twice, and three arms (`Leaf`, `Chain`, `Arguments`) could not come.
fn test(nodes: &[u8], ws: &[u64], marks: &[bool], i: u64) -> bool
    ensures { Tested nodes.now ws.now marks.now i result }
{
    if get(ws, i) > 64 {
        return false;
    }
    let n = node_of(nodes, i);
    match Shape::from(n.kind) {
        Shape::Var | Shape::Const => true,
        Shape::Binary(_) | Shape::Concat | Shape::Comparison(_) | Shape::Connective(_) => {
            all_marked(marks, &[n.a, n.b])
        }
        Shape::Rotation(_) | Shape::Extension(_) | Shape::Negation | Shape::Unary(_) => {
            all_marked(marks, &[n.a])
        }
        Shape::Extraction => all_marked(marks, &[n.c]),
        Shape::Ite => all_marked(marks, &[n.a, n.b, n.c]),
        Shape::Select | Shape::Call | Shape::Unknown => false,
    }
}

// Does the check pass every root: a mark for each node that passes, in node order. Ruled out: a term of 65 bits below a root of 1 bit let through;
// a rotation by a constant of 65 bits refused.
pub fn roots_narrow(nodes: &[u8], ws: &[u64], roots: &[u64]) -> bool
    requires { length (nodes_of nodes.now) ≤ MAX_NODES }
    ensures { RootsNarrow nodes.now ws.now roots.now result }
{
    let mut marks = [false; MAX_NODES];
    for i in 0..node_count(nodes) {
        marks[i] = test(nodes, ws, &marks, i as u64);
    }
    all_marked(&marks, roots)
}
