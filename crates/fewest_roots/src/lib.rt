// The fewest roots that still refuse: the entry point `fewest_roots`, of the same problem as `echo_ext` and no output.
#![tactic(auto)]

ghost use Rattle.std.specs.Prelude.{◌≡◌};
ghost use Rattle.lent.specs.Lent.{problem_at, dag_at};
ghost use Rattle.echo_tables.specs.Filling.{Refusable};
ghost use Rattle.fewest.specs.Fewest.{fewest_roots_answer};
ghost use Rattle.fewest_sharing.specs.declared.FewestRoots.TheVariants.{Empty};
ghost use Rattle.fewest_roots.specs.Answered.{answered, told, Walked, Apart};

use echo_checks::names_ok;
use echo_script::{Formed, Tables, measure};
use echo_tables::{Mark, roots_told};
use fewest_sharing::shared_roots;
use lent::Problem;
use refusals::{EchoError, MAX_ENTRIES, MAX_NODES};

// The roots by their positions.
pub use fewest_sharing::FewestRoots;

// What is told of a problem: the refusal that the printer has with endless room, or none, and the roots that still give it.
// Kept: two fields, and not a `Result` as inside: the answer for C is made of them one by one, and has the empty list where there is no
// refusal.
#[derive(Clone, Copy, Debug, PartialEq, Eq)]
pub struct Fewest {
    pub refusal: Option<EchoError>,
    pub roots: FewestRoots,
}

// A refusal, and the roots that still give it.
struct Refused(EchoError, FewestRoots);

// A refusal before the roots are looked at has no list.
impl From<EchoError> for Refused {
    ghost from_gives = { λ e r. r ≡ record { 0 = e; 1 = Empty } };

    fn from(refusal: EchoError) -> Refused {
        Refused(refusal, FewestRoots::Empty)
    }
}

// The first root that is refused by the marks, and why.
fn first_refused(problem: &Problem, ws: &[u64], marks: &[Mark]) -> Option<(usize, EchoError)>
    requires { Refusable problem.now ws.now marks.now }
    ensures { Walked (dag_at problem.now) ws.now problem.now.roots.now result }
{
    let roots = problem.roots;
    for (k, x) in roots.iter().enumerate() {
        if let Err(refusal) = roots_told(problem, ws, marks, &[*x]) {
            return Some((k, refusal));
        }
    }
    None
}

// From the declared variables on: the names are allowed and no operator is shared.
fn from_declared(formed: &Formed) -> Result<(), Refused>
    requires { Apart (problem_at formed.now.problem.now) formed.now.widths.now }
    ensures { told result ≡ fewest_roots_answer (problem_at formed.now.problem.now) }
{
    let mut tables = Tables::new();
    let mut first = [None; MAX_ENTRIES];
    tables.fill(formed, &mut first)?;
    match first_refused(formed.problem, formed.widths, &tables.marks) {
        None => Ok(()),
        Some((k, refusal)) => Err(Refused(refusal, FewestRoots::One(k))),
    }
}

// From the names on.
fn from_names(formed: &Formed) -> Result<(), Refused>
    ensures { told result ≡ fewest_roots_answer (problem_at formed.now.problem.now) }
{
    let problem = formed.problem;
    if !names_ok(problem) {
        return Err(Refused::from(EchoError::Name));
    }
    match shared_roots(problem) {
        None => from_declared(formed),
        Some(roots) => Err(Refused(EchoError::Shared, roots)),
    }
}

// The fewest roots of a problem that is refused: every check but the one for room, each made once.
fn fewest_of(problem: &Problem) -> Result<(), Refused>
    ensures { told result ≡ fewest_roots_answer (problem_at problem.now) }
{
    let mut ws = [0u64; MAX_NODES];
    let n = measure(problem, &mut ws)?;
    let formed = Formed {
        problem: &*problem,
        widths: &ws[..n],
    };
    from_names(&formed)
}

// THE FEWEST ROOTS with which the problem is still refused as `echo_ext` refuses it with endless room, which is told too. A problem that is
// accepted, or refused for its encoding, a limit or an array's width, has no list. Ruled out: the last root that is refused for the first;
// a list for a refusal that no root is needed for.
pub fn fewest_roots(problem: &Problem) -> Fewest
    ensures { answered result ≡ fewest_roots_answer (problem_at problem.now) }
{
    match fewest_of(problem) {
        Ok(()) => Fewest {
            refusal: None,
            roots: FewestRoots::Empty,
        },
        Err(Refused(refusal, roots)) => Fewest {
            refusal: Some(refusal),
            roots,
        },
    }
}
