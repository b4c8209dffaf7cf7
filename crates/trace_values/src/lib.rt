// The refusal `Values`: the values of a trace are a whole number of rows, and each fits its width.
#![tactic(auto)]

ghost use Rattle.std.specs.Prelude.{◌≡◌};
ghost use Rattle.traces.specs.Trace as trace;

// Ruled out: 2 ^ w let through; every value of a width over 64 refused.
pub fn fits(w: u64, x: u64) -> bool
    ensures { result ≡ trace.fits w x }
{
    w >= 64 || x >> w == 0
}

// Ruled out: a row that lacks its last value; the width of the column before.
// Kept: a loop, and not `all`: that k % v is a column asks for facts that a closure is not told.
pub fn values_fit(widths: &[u64], values: &[u64]) -> bool
    ensures { result ≡ trace.values_fit widths.now values.now }
{
    let v = widths.len();
    if !values.len().is_multiple_of(v) {
        return false;
    }
    for (k, x) in values.iter().enumerate() {
        if !fits(widths[k % v], *x) {
            return false;
        }
    }
    true
}

// How many rows there are. Ruled out: none where there is no variable; the values left over as one more.
pub fn row_count(v: usize, len: usize) -> usize
    ensures { result ≡ trace.row_count v len }
{
    len.checked_div(v).unwrap_or(1)
}
