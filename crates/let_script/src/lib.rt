// The script with `let` from the declared variables on, and the plain one where nothing is shared: the tables, what the roots are refused
// with, and the text. Which tables stand on the stack during the walk is told in docs/DECISIONS.md.
// Under "Ruled out" stand wrong programs that a public function's contract refuses.
#![tactic(auto)]

ghost use Rattle.std.specs.Prelude.{◌≡◌, ◌≤◌, length, replicate};
ghost use Rattle.echo_spec.specs.Walk.{walk_roots};
ghost use Rattle.lets.specs.Lets.{shared as «shared-in», let_roots};
ghost use Rattle.lent.specs.Lent.{problem_at, dag_at};
ghost use Rattle.echo_bytes.specs.Page.{page, start, written};
ghost use Rattle.echo_sharing.specs.Flags.{Flags};
ghost use Rattle.echo_bindings.specs.Checking.{uses_at};
ghost use Rattle.echo_bindings.specs.Naming.{assertion_text, Told};
ghost use Rattle.echo_bindings.specs.Parts.{problem_in, widths_in};
ghost use Rattle.echo_roots.specs.Roots.{roots_text};
ghost use Rattle.echo_script.specs.Scripts.{plain_script, declared_checks};
ghost use Rattle.echo_script.specs.Outcomes.{Wrote};
ghost use Rattle.let_script.specs.Printing.{shared_script, RootsFree, Opened};

use echo_bindings::{Assertions, Sharing};
use echo_bytes::Place;
use echo_decls::Declarations;
use echo_lines::check_sat;
use echo_roots::echo_roots;
use echo_script::{Formed, Tables};
use echo_tables::{BLANK, Mark, roots_told};
use echo_walk::Walk;
use refusals::{EchoError, MAX_ENTRIES, MAX_NODES};

// ---------------------------------------------------------------- roots

// The roots in order, each written into the rest of the buffer. A full buffer stops nothing.
// Kept: the loop of `echo_roots` with a writer that changes the marks. One function would take the writer as a closure, and its contract would
// have to say what is told of the marks from one root to the next.
fn let_roots(
    assertions: &Assertions,
    roots: &[u64],
    p: Place,
    marks: &mut [Mark; MAX_NODES],
    bound: &mut [bool; MAX_NODES],
    out: &mut [u8],
) -> Place
    requires told { Told (dag_at (problem_in assertions.now)) (widths_in assertions.now) marks.old }
    requires free { RootsFree (problem_in assertions.now) (widths_in assertions.now) roots.now }
    requires inside { p.at ≤ length out.old }
    ensures { page result out.new ≡ written (page p out.old) (roots_text (assertion_text (problem_in assertions.now) (widths_in assertions.now)) roots.now) }
{
    let mut q = p;
    for root in roots {
        let at = q.at;
        let r = assertions.echo_assertion(*root, marks, bound, &mut out[at..]);
        q = q.moved(r.at, r.need);
    }
    q
}

// ---------------------------------------------------------------- the script
//
// A compiler puts the arrays of all that it inlines into one frame. So what fills the tables is not inlined, whose table of first calls stands in
// a frame that is left before the walk; nor is one of the two ways, whose tables would stand in the frame of the other. The tables are made
// where they stand, since `Tables::new` makes them and then copies them.

// What is declared: its refusal, or the tables that the walk looks up and the lines before the roots.
#[inline(never)]
fn let_declared(formed: &Formed, tables: &mut Tables, out: &mut [u8]) -> Result<Place, EchoError>
    requires { tables.old.marks ≡ replicate MAX_NODES BLANK }
    ensures { Opened formed.now.problem.now formed.now.widths.now out.old result tables.new out.new }
{
    let mut first = [None; MAX_ENTRIES];
    tables.fill(formed, &mut first)?;
    let declarations = Declarations {
        problem: formed.problem,
        widths: formed.widths,
        first: &first,
    };
    Ok(declarations.declare(out))
}

// The plain script of a problem without shared operators, from the declared variables on. Ruled out: a script though a root is refused; the
// roots before the declarations.
#[inline(never)]
pub fn plain_filled(formed: &Formed, out: &mut [u8]) -> Result<Place, EchoError>
    ensures { Wrote (declared_checks (dag_at formed.now.problem.now) formed.now.widths.now (walk_roots (dag_at formed.now.problem.now) formed.now.widths.now (problem_at formed.now.problem.now).roots)) (plain_script (problem_at formed.now.problem.now) formed.now.widths.now) (page start out.old) result out.new }
{
    let mut tables = Tables {
        entries: [None; MAX_NODES],
        marks: [BLANK; MAX_NODES],
    };
    let declared = let_declared(formed, &mut tables, out)?;
    roots_told(
        formed.problem,
        formed.widths,
        &tables.marks,
        formed.problem.roots,
    )?;
    let walk = Walk {
        problem: formed.problem,
        widths: formed.widths,
        entries: &tables.entries,
        marks: &tables.marks,
    };
    let asserted = echo_roots(&walk, formed.problem.roots, declared, out);
    Ok(check_sat(asserted, out))
}

// A problem that passed the checks before the names, and which of its operators are shared.
// Kept: beside `Sharing` of echo_bindings, which asks less of the problem.
#[derive(Clone, Copy)]
pub struct SharedOperators<'a> {
    pub formed: &'a Formed<'a>,
    pub shared: &'a [bool],
    ghost flags: { Flags («shared-in» (dag_at formed.now.problem.now) (uses_at formed.now.problem.now)) shared.now },
}

// The script with `let` of a problem with these shared operators, from the declared variables on. Ruled out: a root's refusal told for that
// of a bound term before it; a script though a bound term is refused.
#[inline(never)]
pub fn let_filled(operators: &SharedOperators, out: &mut [u8]) -> Result<Place, EchoError>
    ensures { Wrote (declared_checks (dag_at operators.now.formed.now.problem.now) operators.now.formed.now.widths.now (let_roots (dag_at operators.now.formed.now.problem.now) operators.now.formed.now.widths.now (uses_at operators.now.formed.now.problem.now) (problem_at operators.now.formed.now.problem.now).roots)) (shared_script (problem_at operators.now.formed.now.problem.now) operators.now.formed.now.widths.now) (page start out.old) result out.new }
{
    let formed = operators.formed;
    let mut tables = Tables {
        entries: [None; MAX_NODES],
        marks: [BLANK; MAX_NODES],
    };
    let declared = let_declared(formed, &mut tables, out)?;
    let mut bound = [false; MAX_NODES];
    let sharing = Sharing {
        problem: formed.problem,
        widths: formed.widths,
        shared: operators.shared,
    };
    sharing.roots_told(&tables.marks, formed.problem.roots, &mut bound)?;
    let assertions = Assertions {
        sharing,
        entries: &tables.entries,
    };
    let asserted = let_roots(
        &assertions,
        formed.problem.roots,
        declared,
        &mut tables.marks,
        &mut bound,
        out,
    );
    Ok(check_sat(asserted, out))
}
