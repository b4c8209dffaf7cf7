// Terms as formulas in the map file: the entry point `echo_formulas` over the inputs of `echo_ext` and an output.
//
// The checks and tables are the plain printer's; each root is then written as a line.
#![tactic(auto)]

ghost use Rattle.std.specs.Prelude.{◌≡◌};
ghost use Rattle.echo_spec.specs.Input.{query_of};
ghost use Rattle.echo_spec.specs.Answers.{endless_refusal};
ghost use Rattle.lent.specs.Lent.{problem_at};
ghost use Rattle.echo_bytes.specs.Page.{page, start, written};
ghost use Rattle.formula_answers.specs.Answers.{formula_lines, echo_formulas_answer};
ghost use Rattle.echo_openings.specs.Placed.{placed_at};
ghost use Rattle.echo_roots.specs.Roots.{AllFine};
ghost use Rattle.echo_script.specs.Scripts.{tables_refusal};
ghost use Rattle.echo_script.specs.Outcomes.{Wrote};
ghost use Rattle.echo_kernel.specs.Answered.{answered};
ghost use Rattle.echo_formulas.specs.Lines.{lines_text, lines_with};

use echo_bytes::Place;
use echo_formula::formula_node;
use echo_kernel::settle;
use echo_script::{Formed, Tables, measure};
use echo_tables::BLANK;
use echo_walk::Walk;
use lent::Problem;
use refusals::{EchoError, MAX_ENTRIES, MAX_NODES};

// The roots in order, each as a line. A full buffer stops nothing.
fn lines(walk: &Walk, roots: &[u64], p: Place, out: &mut [u8]) -> Place
    requires { AllFine walk.now roots.now }
    ensures { page result out.new ≡ written (page p out.old) (lines_text (placed_at walk.now 0) roots.now) }
{
    let mut q = p;
    for root in roots {
        let r = formula_node(walk, q, *root, 0, out);
        q = r.byte(out, b'\n');
    }
    q
}

// From the names on.
fn from_names(formed: &Formed, out: &mut [u8]) -> Result<Place, EchoError>
    ensures { Wrote (tables_refusal (problem_at formed.now.problem.now) formed.now.widths.now) (lines_with (problem_at formed.now.problem.now) formed.now.widths.now) (page start out.old) result out.new }
{
    // Made where they stand: a function that answers them has them on the stack more than once.
    let mut tables = Tables {
        entries: [None; MAX_NODES],
        marks: [BLANK; MAX_NODES],
    };
    let mut first = [None; MAX_ENTRIES];
    tables.prepare(formed, &mut first)?;
    let problem = formed.problem;
    let walk = Walk {
        problem: &*problem,
        widths: &*formed.widths,
        entries: &tables.entries,
        marks: &tables.marks,
    };
    Ok(lines(&walk, problem.roots, echo_bytes::start(), out))
}

// Every check but the one for room, in order, and then the lines as far as they fit; the place has the length that is needed.
fn checked(problem: &Problem, out: &mut [u8]) -> Result<Place, EchoError>
    ensures { Wrote (endless_refusal (problem_at problem.now)) (formula_lines (query_of (problem_at problem.now))) (page start out.old) result out.new }
{
    let mut ws = [0u64; MAX_NODES];
    let n = measure(problem, &mut ws)?;
    let formed = Formed {
        problem: &*problem,
        widths: &ws[..n],
    };
    from_names(&formed, out)
}

// THE MAP FILE'S LINES. One line a root, the root as a formula with no bracket too many, ended by byte 10. An acceptance writes the lines and
// leaves the rest of the buffer as it was; a refusal, the printer's, clears the buffer. No roots: length 0.
pub fn echo_formulas(problem: &Problem, out: &mut [u8]) -> Result<usize, EchoError>
    ensures { answered result out.new ≡ echo_formulas_answer (problem_at problem.now) out.old }
{
    let told = checked(problem, out);
    settle(told, out)
}
