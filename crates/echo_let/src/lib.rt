// Shared terms printed with `let`: the order of the checks, and the entry point `echo_let` over the inputs of `echo_ext` and an output.
#![tactic(auto)]

ghost use Rattle.std.specs.Prelude.{◌≡◌};
ghost use Rattle.echo_spec.specs.Input.{query_of};
ghost use Rattle.lets.specs.Lets.{let_script, endless_let, echo_let_answer};
ghost use Rattle.lent.specs.Lent.{problem_at};
ghost use Rattle.echo_bytes.specs.Page.{page, start};
ghost use Rattle.echo_script.specs.Outcomes.{Wrote};
ghost use Rattle.echo_kernel.specs.Answered.{answered};
ghost use Rattle.let_script.specs.Printing.{shared_script, let_tables_refusal};

use echo_bytes::Place;
use echo_checks::names_ok;
use echo_clash::names_clear;
use echo_kernel::settle;
use echo_script::{Formed, measure};
use echo_sharing::shared_nodes;
use lent::Problem;
use let_script::{SharedOperators, let_filled, plain_filled};
use refusals::{EchoError, MAX_NODES};

// ---------------------------------------------------------------- the checks

// From the names on: no declared name is that of a shared operator, where some are shared.
#[tactic(auto, unfolding(let_script::specs::Printing::let_tables_refusal, echo_spec::specs::Input::dag_of))]
fn let_tables(formed: &Formed, out: &mut [u8]) -> Result<Place, EchoError>
    ensures { Wrote (let_tables_refusal (problem_at formed.now.problem.now) formed.now.widths.now) (shared_script (problem_at formed.now.problem.now) formed.now.widths.now) (page start out.old) result out.new }
{
    let problem = formed.problem;
    if !names_ok(problem) {
        return Err(EchoError::Name);
    }
    let shared = shared_nodes(problem);
    let Some(shared) = &shared else {
        return plain_filled(formed, out);
    };
    if !names_clear(problem, shared) {
        return Err(EchoError::Clash);
    }
    let operators = SharedOperators { formed, shared };
    let_filled(&operators, out)
}

// Every check but the one for room, in order, and then the script as far as it fits; the place has the length that is needed.
#[tactic(auto, unfolding(lets::specs::Lets::endless_let, lets::specs::Lets::let_refusal_with, echo_spec::specs::Input::dag_of))]
fn let_checked(problem: &Problem, out: &mut [u8]) -> Result<Place, EchoError>
    ensures { Wrote (endless_let (problem_at problem.now)) (let_script (query_of (problem_at problem.now))) (page start out.old) result out.new }
{
    let mut ws = [0u64; MAX_NODES];
    let n = measure(problem, &mut ws)?;
    let formed = Formed {
        problem: &*problem,
        widths: &ws[..n],
    };
    let_tables(&formed, out)
}

// ---------------------------------------------------------------- the entry point

// THE PRINTER WITH LET. In each assertion every operator that its root reaches and that has two uses or more is bound, the lowest node outermost.
// An acceptance writes the script and leaves the rest of the buffer as it was; a refusal clears the buffer.
#[tactic(auto, unfolding(lets::specs::Lets::echo_let_answer))]
pub fn echo_let(problem: &Problem, out: &mut [u8]) -> Result<usize, EchoError>
    ensures { answered result out.new ≡ echo_let_answer (problem_at problem.now) out.old }
{
    let told = let_checked(problem, out);
    settle(told, out)
}
