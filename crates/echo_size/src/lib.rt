// Room for a script, known beforehand: the entry point `echo_size`, of the same problem as `echo_ext` and no output.
#![tactic(auto)]

ghost use Rattle.std.specs.Prelude.{◌≡◌, ℕ, ◌<◌, ◌^◌, get_or};
ghost use Rattle.lent.specs.Lent.{problem_at};
ghost use Rattle.sizes.specs.Size.{echo_size_answer};
ghost use Rattle.echo_size.specs.Sized.{answered};

use echo_lengths::script_length;
use echo_script::{Formed, Tables, measure};
use echo_tables::BLANK;
use echo_terms::count_terms;
use lent::Problem;
use refusals::{EchoError, MAX_ENTRIES, MAX_NODES};

// What is told of a script: its length, and how many terms the walk enters.
#[derive(Clone, Copy, Debug, PartialEq, Eq)]
pub struct Size {
    pub length: usize,
    pub terms: u64,
}

// What the type of a lent column says: each of its numbers has 64 bits. Nothing is done.
fn fits(column: &[u64])
    ensures { (i : ℕ) → get_or column.now i 0 < 2 ^ 64 }
{}

// From the names on.
fn sized(formed: &Formed) -> Result<Size, EchoError>
    ensures { answered result ≡ echo_size_answer (problem_at formed.now.problem.now) }
{
    // Made where they stand: a function that answers them has them on the stack more than once.
    let mut tables = Tables {
        entries: [None; MAX_NODES],
        marks: [BLANK; MAX_NODES],
    };
    let mut first = [None; MAX_ENTRIES];
    tables.prepare(formed, &mut first)?;
    let problem = formed.problem;
    fits(problem.var_width);
    fits(problem.func_width);
    Ok(Size {
        length: script_length(formed, &tables, &first),
        terms: count_terms(problem),
    })
}

// THE SIZE of the script that `echo_ext` prints where there is room, and the number of terms that its walk enters; or the refusal that
// `echo_ext` answers whatever the buffer, which is never for want of room. Ruled out: a length told for a problem that is refused; the
// refusal of a later check.
pub fn echo_size(problem: &Problem) -> Result<Size, EchoError>
    ensures { answered result ≡ echo_size_answer (problem_at problem.now) }
{
    let mut ws = [0u64; MAX_NODES];
    let n = measure(problem, &mut ws)?;
    let formed = Formed {
        problem: &*problem,
        widths: &ws[..n],
    };
    sized(&formed)
}
