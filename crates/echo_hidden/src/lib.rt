// Scripts with addresses hidden: the entry point `echo_hidden` over the inputs and the output of `echo_ext`.
//
// The printer writes the plain script, and then the digits of its constants are covered where they stand. Every refusal is the
// printer's, the one for room too, since the hidden script is as long as the plain one.
#![tactic(auto)]

ghost use Rattle.std.specs.Prelude.{◌≡◌, ◌≤◌, length};
ghost use Rattle.lent.specs.Lent.{problem_at};
ghost use Rattle.echo_kernel.specs.Answered.{answered};
ghost use Rattle.hidden.specs.Hidden.{echo_hidden_answer};
ghost use Rattle.echo_hidden.specs.Covered.{outside, inName, inConstant, shown, covered, Came};

use echo_kernel::echo_ext;
use lent::Problem;
use refusals::EchoError;

// From place i on in a name: the place behind its second bar.
// Kept: a `for` that answers the place; `position` counts from i, so that its answer would be added to i again, with an arm for none.
fn past_name(out: &[u8], i: usize) -> usize
    requires { i ≤ length out.now }
    ensures { Came inName i out.now outside result out.now }
{
    for k in i..out.len() {
        if out[k] == b'|' {
            return k + 1;
        }
    }
    out.len()
}

// What is left of a byte of a constant.
#[tactic(auto, unfolding(crate::specs::Covered::shown))]
fn left_of(b: u8) -> u8
    ensures { result ≡ shown inConstant b }
{
    if b == b'1' { b'0' } else { b }
}

// From place i on in a constant: its digits made 0, and the place behind the byte that ends it.
// Kept: by place, since the place is the answer.
fn cover_digits(out: &mut [u8], i: usize) -> usize
    requires { i ≤ length out.old }
    ensures { Came inConstant i out.old outside result out.new }
{
    for k in i..out.len() {
        let b = out[k];
        if b < b'0' {
            return k + 1;
        }
        out[k] = left_of(b);
    }
    out.len()
}

// The constants of a script, covered.
// Kept: a `while`, since a name or a constant is passed in one turn. A `for` over the bytes that keeps where each one stands took three times
// as long.
fn cover(out: &mut [u8])
    ensures { out.new ≡ covered outside out.old }
{
    let mut i = 0;
    while i < out.len() {
        let b = out[i];
        if b == b'|' {
            i = past_name(out, i + 1);
        } else if b == b'#' {
            i = cover_digits(out, i + 1);
        } else {
            i += 1;
        }
    }
}

// THE HIDDEN FORM. An acceptance writes the plain script with zeros for the digits of each constant, and leaves the rest of the buffer
// as it was; a refusal clears the buffer. Names, widths, rotation amounts and the shape of terms are shown.
pub fn echo_hidden(problem: &Problem, out: &mut [u8]) -> Result<usize, EchoError>
    ensures { answered result out.new ≡ echo_hidden_answer (problem_at problem.now) out.old }
{
    let n = echo_ext(problem, out)?;
    cover(&mut out[..n]);
    Ok(n)
}
