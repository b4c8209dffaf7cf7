// The printer's entry point `echo_ext` (ordeal's "THE SCRIPT"), and what it and the other printers answer once their text is written.
// Under "Ruled out" stand wrong programs that a public function's contract refuses.
#![tactic(auto)]

ghost use Rattle.std.specs.Prelude.{◌≡◌, length};
ghost use Rattle.echo_spec.specs.Answers.{echo_ext_answer};
ghost use Rattle.lent.specs.Lent.{problem_at};
ghost use Rattle.lent.specs.Clearing.{left};
ghost use Rattle.echo_kernel.specs.Answered.{answered};
ghost use Rattle.echo_kernel.specs.Settled.{settled_as};

use echo_bytes::Place;
use echo_script::checked;
use lent::{Problem, clear_on_refusal};
use refusals::EchoError;

// What an entry point answers where this was told of its checks and its text: the length of the text where the buffer has it whole, or else a
// refusal, which clears the buffer. Ruled out: a text that is too long answered as far as it fits; a refusal that leaves what was written.
pub fn settle(told: Result<Place, EchoError>, out: &mut [u8]) -> Result<usize, EchoError>
    ensures answer { result ≡ settled_as told (length out.old) }
    ensures buffer { out.new ≡ left 0 result out.old }
{
    let answer = match told {
        Ok(p) if p.need <= out.len() => Ok(p.need),
        Ok(_) => Err(EchoError::Room),
        Err(e) => Err(e),
    };
    clear_on_refusal(&answer, out);
    answer
}

// THE PRINTER. An acceptance writes the script and leaves the rest of the buffer as it was; a refusal clears the buffer. A buffer that is too
// short stops nothing, so that a refusal of a later root is told before the want of room.
#[tactic(auto, unfolding(echo_spec::specs::Answers::echo_ext_answer))]
pub fn echo_ext(problem: &Problem, out: &mut [u8]) -> Result<usize, EchoError>
    ensures { answered result out.new ≡ echo_ext_answer (problem_at problem.now) out.old }
{
    let told = checked(problem, out);
    settle(told, out)
}
