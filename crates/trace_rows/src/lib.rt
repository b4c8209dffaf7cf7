// A row's mask, and for each row of a trace its mask and how many of the mask's bits are ones.
#![tactic(auto)]

ghost use Rattle.std.specs.Prelude.{◌≡◌, ◌≤◌, length};
ghost use Rattle.trace_rows.specs.Masks.{RootsOf, MaskOf};
ghost use Rattle.trace_rows.specs.Rows.{TraceOf, DoneOf};

use trace_terms::Evaluation;

// Bit k is 1 where root k holds on the row: from the last root to the first.
// Ruled out: bit k for root k + 1; the roots from the first to the last, so that the first has the highest bit.
pub fn mask(evaluation: &Evaluation, row: &[u64], roots: &[u64]) -> u64
    requires { RootsOf evaluation.now row.now roots.now }
    ensures { MaskOf evaluation.now row.now roots.now result }
{
    let mut m: u64 = 0;
    for i in roots.iter().rev() {
        m = 2 * m + evaluation.value(row, *i).number;
    }
    m
}

// The masks of n rows, and beside each mask, at the same place, its count.
// Ruled out: the count of the row before; a row that starts one value late.
// Kept: masks and counts are two slices, as the C interface lends them, written by index at once, since of what a `zip` of two `iter_mut` goes over a
// proof knows no element; a row may have no values, which `chunks_exact` does not take.
pub fn rows(
    evaluation: &Evaluation,
    values: &[u64],
    roots: &[u64],
    n: usize,
    masks: &mut [u64],
    counts: &mut [u64],
)
    requires trace { TraceOf evaluation.now values.now roots.now n }
    requires room { (n ≤ length masks.old) × (n ≤ length counts.old) }
    ensures { DoneOf evaluation.now values.now roots.now masks.old counts.old n masks.new counts.new }
{
    let v = evaluation.terms.problem.var_width.len();
    for j in 0..n {
        let from = j * v;
        let m = mask(evaluation, &values[from..from + v], roots);
        masks[j] = m;
        counts[j] = u64::from(m.count_ones());
    }
}
