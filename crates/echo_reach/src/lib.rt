// The nodes that are bound in a root's assertion: marks from the root down, since operands are lower nodes, and of the
// marked nodes those that are shared.
#![tactic(auto)]

ghost use Rattle.std.specs.Prelude.{◌≡◌, ◌&&◌, [], ◌∷◌, false, ◌+◌, ◌≤◌, ◌<◌, length, get_or};
ghost use Rattle.lists.specs.Tests.{among};
ghost use Rattle.lets.specs.Lets.{operands_of, uses_in, shared as «shared-in», binds};
ghost use Rattle.lent.specs.Lent.{problem_at, dag_at};
ghost use Rattle.echo_tables.specs.Forms.{form_operands};
ghost use Rattle.echo_tables.specs.Uses.{FormInside};
ghost use Rattle.echo_sharing.specs.Flags.{Flags};
ghost use Rattle.echo_reach.specs.Marks.{Adds, nodes_in, BothTo, Whole};

use echo_sharing::{stores, stretch};
use echo_tables::{Form, operands};
use lent::{Problem, node_at};
use refusals::MAX_NODES;

// ---------------------------------------------------------------- marks

// Marks node i. A node past the table is not marked.
fn mark_one(marks: &mut [bool], i: u64)
    ensures { Adds (among (i ∷ [])) marks.old marks.new }
{
    let k = i as usize;
    if k < marks.len() {
        marks[k] = true;
    }
}

// Marks each node of a list.
fn mark_each(marks: &mut [bool], xs: &[u64])
    ensures { Adds (among xs.now) marks.old marks.new }
{
    for x in xs {
        mark_one(marks, *x);
    }
}

// Marks the operands of a form.
fn mark_form(marks: &mut [bool], side: &[u64], f: Form)
    requires { FormInside side.now f }
    ensures { Adds (among (nodes_in (form_operands side.now f))) marks.old marks.new }
{
    // Kept: an arm for each form, as in `form_sum`, which says why.
    match f {
        Form::Leaf => {}
        Form::One(a, _) => mark_one(marks, a),
        Form::Two(a, b, _) => mark_each(marks, &[a, b]),
        Form::Choice(a, b, c) => mark_each(marks, &[a, b, c]),
        Form::Chain(j, s, n) => {
            mark_one(marks, j);
            mark_each(marks, stores(side, s, n));
        }
        Form::Arguments(s, n) => mark_each(marks, stretch(side, s, n)),
    }
}

// ---------------------------------------------------------------- from the root down

// Node i is visited: if it is marked its operands are.
fn visit(problem: &Problem, i: usize, marks: &mut [bool])
    requires { Whole problem.now × (i < length (dag_at problem.now).nodes) × (length marks.old ≡ MAX_NODES) }
    ensures { Adds (λ j. get_or marks.old i false && among (operands_of (dag_at problem.now) i) j) marks.old marks.new }
{
    if marks[i] {
        let n = node_at(problem.nodes, i);
        mark_form(marks, problem.side, operands(n));
    }
}

// Takes the marks out of the first n nodes but those that are shared.
fn keep(shared: &[bool], marks: &mut [bool], n: usize)
    requires { n ≤ length marks.old }
    ensures { BothTo shared.now marks.old n marks.new }
{
    // Kept: by places, since a proof knows no element of what `iter_mut` goes over in a chain; in two loops, so that neither asks at each node
    // whether it has a flag.
    let m = n.min(shared.len());
    for i in 0..m {
        marks[i] = shared[i] & marks[i];
    }
    for j in m..n {
        marks[j] = false;
    }
}

// For each node whether it is bound in the assertion of a root that is a node: it is shared, and the root reaches it by operands. What was lent
// for it may have the nodes that are bound for another root.
// Ruled out: a rotation's amount reached; a shared node that another root alone reaches; a root with two uses that is not bound.
pub fn bound_nodes(problem: &Problem, root: u64, shared: &[bool], bound: &mut [bool; MAX_NODES])
    requires { Whole problem.now × (root < length (dag_at problem.now).nodes) × Flags («shared-in» (dag_at problem.now) (uses_in (dag_at problem.now) (problem_at problem.now).roots)) shared.now }
    ensures { Flags (binds (dag_at problem.now) (uses_in (dag_at problem.now) (problem_at problem.now).roots) root) bound.new }
{
    bound.fill(false);
    mark_one(bound, root);
    for i in (0..root as usize + 1).rev() {
        visit(problem, i, bound);
    }
    // No node above the root is marked.
    keep(shared, bound, root as usize + 1);
}
