// The fewest roots by which an operator is shared: none beside the operands, one that an operand uses too, or the two
// first positions of one node.
#![tactic(auto)]

ghost use Rattle.std.specs.Prelude.{◌≡◌, ◌≤◌, ◌<◌, length};
ghost use Rattle.echo_spec.specs.Input.{nodes_of};
ghost use Rattle.fewest_sharing.specs.Found.{used_too, First, Partner, PairOf, Shares, Flagged};

use echo_sharing::flagged;
use lent::{Problem, at};
use refusals::{MAX_NODE_BYTES, MAX_NODES};

// Roots, by their positions.
#[derive(Clone, Copy, Debug, PartialEq, Eq)]
pub enum FewestRoots {
    Empty,
    One(usize),
    Two(usize, usize),
}

// Is x a node that is shared, and used by an operand.
fn used_too(shared: &[bool; MAX_NODES], uses: &[u8; MAX_NODES], x: u64) -> bool
    ensures { result ≡ used_too shared.now uses.now x }
{
    flagged(shared, x) && at(uses, x, 0) > 0
}

// The first position whose root an operand uses too.
fn first_used(roots: &[u64], shared: &[bool; MAX_NODES], uses: &[u8; MAX_NODES]) -> Option<usize>
    ensures { First (used_too shared.now uses.now) roots.now result }
{
    roots.iter().position(|x| used_too(shared, uses, *x))
}

// The next position of the root at position j, where that is shared.
fn partner(roots: &[u64], shared: &[bool; MAX_NODES], j: usize) -> Option<usize>
    requires { j < length roots.now }
    ensures { Partner shared.now roots.now j result }
{
    let x = roots[j];
    if !flagged(shared, x) {
        return None;
    }
    // Kept: positions after j; of `position` in `roots[j + 1..]` the answer would have to be counted on from j.
    for k in j + 1..roots.len() {
        if roots[k] == x {
            return Some(k);
        }
    }
    None
}

// The first position of a shared root that is there again, and the next after it.
fn first_pair(roots: &[u64], shared: &[bool; MAX_NODES]) -> Option<(usize, usize)>
    ensures { PairOf shared.now roots.now result }
{
    // Kept: j is known to be a position, which a closure of `find_map` would have to require.
    for j in 0..roots.len() {
        if let Some(k) = partner(roots, shared, j) {
            return Some((j, k));
        }
    }
    None
}

// The fewest roots, where the roots share an operator; the operators that are shared are flagged.
fn among_roots(problem: &Problem, shared: &[bool; MAX_NODES]) -> Option<FewestRoots>
    requires { Flagged problem.now.nodes.now problem.now.side.now problem.now.roots.now shared.now }
    ensures { Shares (nodes_of problem.now.nodes.now) problem.now.side.now problem.now.roots.now result }
{
    let mut uses = [0u8; MAX_NODES];
    echo_sharing::count_operands(&mut uses, problem.nodes, problem.side);
    if !echo_sharing::no_shared(&uses, problem.nodes) {
        return Some(FewestRoots::Empty);
    }
    if let Some(k) = first_used(problem.roots, shared, &uses) {
        return Some(FewestRoots::One(k));
    }
    let (j, k) = first_pair(problem.roots, shared)?;
    Some(FewestRoots::Two(j, k))
}

// The fewest roots by which an operator is shared, where one is: none if operands share it. Ruled out: two positions where one suffices; the last position of a node for its
// second; a root past the nodes, or a variable, taken for shared.
pub fn shared_roots(problem: &Problem) -> Option<FewestRoots>
    requires { length problem.now.nodes.now ≤ MAX_NODE_BYTES }
    ensures { Shares (nodes_of problem.now.nodes.now) problem.now.side.now problem.now.roots.now result }
{
    let shared = echo_sharing::shared_nodes(problem)?;
    among_roots(problem, &shared)
}
