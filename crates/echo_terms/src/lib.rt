// The terms that the walk enters, counted in one pass over the nodes in order. Sums are held at the largest number; the count of a problem
// that is printed is far below it.
#![tactic(auto)]

ghost use Rattle.std.specs.Prelude.{◌≡◌, length};
ghost use Rattle.echo_spec.specs.Input.{nodes_of};
ghost use Rattle.echo_spec.specs.Input as input;
ghost use Rattle.lent.specs.Records.{node_of};
ghost use Rattle.echo_tables.specs.Forms.{form_as};
ghost use Rattle.echo_tables.specs.Uses.{FormInside};
ghost use Rattle.sizes.specs.Sums.{sum_over};
ghost use Rattle.sizes.specs.Count.{counts_below};
ghost use Rattle.echo_terms.specs.TermTable.{held, counted, form_sum, Countable};

use echo_sharing::{stores, stretch};
use echo_tables::{Form, operands};
use lent::{Node, Problem, at, node_at, node_count};
use refusals::MAX_NODES;

// So much, and the entries of each node of a list, as often as it stands there; past the table's end there is 1. Ruled out: a node that stands there twice added once; a
// sum that wraps.
pub fn add_each(t: &[u64], c: u64, xs: &[u64]) -> u64
    ensures { result ≡ counted t.now c xs.now }
{
    xs.iter().fold(c, |sum, x| sum.saturating_add(at(t, *x, 1)))
}

// So much, and the entries of the operands of a form. Ruled out: a rotation's amount added; the values of stores left out.
#[tactic(auto, unfolding(crate::specs::TermTable::form_sum, crate::specs::TermTable::counted, sizes::specs::Sums::sum_over))]
#[inline(always)]
pub fn form_sum(t: &[u64], c: u64, side: &[u64], f: Form) -> u64
    requires { FormInside side.now f }
    ensures { result ≡ form_sum t.now c side.now f }
{
    // Kept: an arm for each form, as in `mark_form` and `operands_told`: one function over a form's operands would take a closure, and a law of
    // the list that it is called for.
    match f {
        Form::Leaf => c,
        Form::One(a, _) => add_each(t, c, &[a]),
        Form::Two(a, b, _) => add_each(t, c, &[a, b]),
        Form::Choice(a, b, d) => add_each(t, c, &[a, b, d]),
        Form::Chain(j, s, n) => add_each(t, add_each(t, c, &[j]), stores(side, s, n)),
        Form::Arguments(s, n) => add_each(t, c, stretch(side, s, n)),
    }
}

// The terms of a node, by the terms of the nodes below it.
fn node_terms(t: &[u64], side: &[u64], n: Node) -> u64
    requires { FormInside side.now (form_as (node_of n) (input.shape (node_of n))) }
    ensures { result ≡ form_sum t.now 1 side.now (form_as (node_of n) (input.shape (node_of n))) }
{
    form_sum(t, 1, side, operands(n))
}

// The terms of the roots' trees, together. Ruled out: a leaf that is entered twice counted once; a rotation's amount counted; a store
// counted beside its index and value; nodes that no root reaches counted.
pub fn count_terms(problem: &Problem) -> u64
    requires { Countable problem.now.nodes.now problem.now.side.now }
    ensures { result ≡ held (sum_over (counts_below problem.now.side.now (nodes_of problem.now.nodes.now) (length (nodes_of problem.now.nodes.now))) problem.now.roots.now) }
{
    let mut t = [1u64; MAX_NODES];
    // Kept: an entry is made from those before it, so that they are written by their places.
    for i in 0..node_count(problem.nodes) {
        t[i] = node_terms(&t, problem.side, node_at(problem.nodes, i));
    }
    add_each(&t, 0, problem.roots)
}
