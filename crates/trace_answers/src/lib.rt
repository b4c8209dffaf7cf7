// What the replay of a trace answers in two numbers, as C takes it.
#![tactic(auto)]

ghost use Rattle.std.specs.Prelude.{◌≡◌};
ghost use Rattle.replay_trace.specs.Traced as traced;

use replay_trace::TraceError;

// Number 0: the masks and counts of so many rows are written. Any other number: a refusal, and rows is 0.
#[repr(C)]
#[derive(Clone, Copy, Debug, PartialEq, Eq)]
pub struct TraceAnswer {
    pub number: u64,
    pub rows: u64,
}

// Ruled out: the rows of an acceptance left out; the numbers of `Wide` and `Values` the other way about.
impl From<Result<usize, TraceError>> for TraceAnswer {
    ghost from_gives = { λ r a. (a.number ≡ traced.number r) × (a.rows ≡ traced.rows r) };

    fn from(r: Result<usize, TraceError>) -> TraceAnswer {
        match r {
            Ok(n) => TraceAnswer {
                number: 0,
                rows: n as u64,
            },
            Err(e) => TraceAnswer {
                number: u64::from(e),
                rows: 0,
            },
        }
    }
}
