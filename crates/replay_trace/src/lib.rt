// Replay of a probe trace: the entry point `replay_trace` over a problem, rows of values and two lent outputs, masks and counts.
#![tactic(auto)]

ghost use Rattle.std.specs.Prelude.{◌≡◌, length};
ghost use Rattle.refusals.specs.Numbers.{refused};
ghost use Rattle.echo_spec.specs.Answers.{endless_refusal};
ghost use Rattle.lent.specs.Lent.{problem_at};
ghost use Rattle.traces.specs.Trace.{replay_trace_answer};
ghost use Rattle.replay_trace.specs.Errors.{trace_number, Refused};
ghost use Rattle.replay_trace.specs.Traced.{answered, told, Ran, first_refusal, later_refusal, Widths, Traceable, Written};

use lent::{Problem, clear_on_refusal};
use refusals::{EchoError, MAX_NODES};
use sliver_kernel::Pass;
use trace_tables::Terms;
use trace_terms::Evaluation;

// A mask has a bit for each root.
const MAX_MASK: usize = 64;

// Why a trace is not replayed.
#[derive(Clone, Copy, Debug, PartialEq, Eq)]
pub enum TraceError {
    // One of the printer's refusals; want of room is that of the outputs.
    Refused(EchoError),
    // A term that a root reaches is wider than 64 bits, or a select or call.
    Wide,
    // The values are no whole number of rows, or one does not fit its width.
    Values,
}

// A refusal of the printer's stays what it is. Ruled out: every one told as the want of room; the printer's limit as a term too wide.
impl From<EchoError> for TraceError {
    ghost from_gives = { λ e t. t ≡ Refused e };

    fn from(refusal: EchoError) -> TraceError {
        TraceError::Refused(refusal)
    }
}

// A refusal's number: 14 and 15 are those that the printer has not. Ruled out: 14 and 15 the other way about; 0 for the printer's.
impl From<TraceError> for u64 {
    ghost from_gives = { λ e n. n ≡ trace_number e };

    fn from(e: TraceError) -> u64 {
        match e {
            TraceError::Refused(e) => u64::from(e),
            TraceError::Wide => 14,
            TraceError::Values => 15,
        }
    }
}

// ---------------------------------------------------------------- the checks

// More roots than a mask has bits, and then what printing is refused with where there is endless room.
fn printing(problem: &Problem) -> Result<(), EchoError>
    ensures { refused result ≡ first_refusal (problem_at problem.now) }
{
    if problem.roots.len() > MAX_MASK {
        return Err(EchoError::Limit);
    }
    let mut none = [0u8; 0];
    echo_script::checked(problem, &mut none)?;
    Ok(())
}

// `Wide`, `Values` and want of room, of a problem that has passed those and whose nodes have these widths; n rows.
fn tracing(
    terms: &Terms,
    values: &[u64],
    n: usize,
    masks: usize,
    counts: usize,
) -> Result<(), TraceError>
    requires { Widths (problem_at terms.now.problem) terms.now.widths.now }
    ensures { told result ≡ later_refusal (problem_at terms.now.problem) values.now n masks counts }
{
    let problem = terms.problem;
    if !trace_narrow::roots_narrow(problem.nodes, terms.widths, problem.roots) {
        return Err(TraceError::Wide);
    }
    if !trace_values::values_fit(problem.var_width, values) {
        return Err(TraceError::Values);
    }
    if n > masks || n > counts {
        return Err(TraceError::Refused(EchoError::Room));
    }
    Ok(())
}

// ---------------------------------------------------------------- the rows

// The masks and counts of n rows. The tables are filled once, before the rows.
fn evaluate(terms: &Terms, values: &[u64], n: usize, masks: &mut [u64], counts: &mut [u64])
    requires widths { Widths (problem_at terms.now.problem) terms.now.widths.now }
    requires traceable { Traceable (problem_at terms.now.problem) values.now n (length masks.old) (length counts.old) }
    ensures { Written (problem_at terms.now.problem) values.now n masks.old counts.old masks.new counts.new }
{
    let mut entries = [None; MAX_NODES];
    echo_tables::entries(terms.problem.var_node, &mut entries);
    let mut fixed = [0u64; MAX_NODES];
    terms.fill(&entries, &mut fixed);
    let evaluation = Evaluation {
        terms: *terms,
        entries: &entries,
        fixed: &fixed,
    };
    trace_rows::rows(&evaluation, values, terms.problem.roots, n, masks, counts)
}

// ---------------------------------------------------------------- the entry point

// The replay, without what a refusal does to the outputs.
fn replay(
    problem: &Problem,
    values: &[u64],
    masks: &mut [u64],
    counts: &mut [u64],
) -> Result<usize, TraceError>
    ensures { Ran (problem_at problem.now) values.now masks.old counts.old result masks.new counts.new }
{
    printing(problem)?;
    let mut ws = [0u64; MAX_NODES];
    let count = Pass::of(problem).widths(problem.nodes, &mut ws);
    let terms = Terms {
        problem: *problem,
        widths: &ws[..count],
    };
    let n = trace_values::row_count(problem.var_width.len(), values.len());
    tracing(&terms, values, n, masks.len(), counts.len())?;
    evaluate(&terms, values, n, masks, counts);
    Ok(n)
}

// THE REPLAY of a trace: rows of values, one for each declared variable in table order. For each row a mask, bit k for root k, and beside it,
// at the same place of the other output, how many of its bits are ones; the answer is how many rows there are. A refusal clears both outputs;
// an acceptance leaves what lies past the rows as it was.
pub fn replay_trace(
    problem: &Problem,
    values: &[u64],
    masks: &mut [u64],
    counts: &mut [u64],
) -> Result<usize, TraceError>
    ensures { answered result masks.new counts.new ≡ replay_trace_answer (problem_at problem.now) values.now masks.old counts.old }
{
    let told = replay(problem, values, masks, counts);
    clear_on_refusal(&told, masks);
    clear_on_refusal(&told, counts);
    told
}
