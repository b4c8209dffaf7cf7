// The checks in their order, the tables that they fill, and the plain script behind them (ordeal's "THE SCRIPT"). The printer, the size, the
// script with `let`, formulas, the fewest roots and traces have their checks from here.
// Under "Ruled out" stand wrong programs that a public function's contract refuses.
#![tactic(auto)]

ghost use Rattle.std.specs.Prelude.{◌≡◌, replicate, None};
ghost use Rattle.echo_spec.specs.Input.{query_of};
ghost use Rattle.echo_spec.specs.Answers.{script, endless_refusal};
ghost use Rattle.refusals.specs.Numbers.{refused};
ghost use Rattle.lent.specs.Lent.{problem_at};
ghost use Rattle.echo_bytes.specs.Page.{page, start, written};
ghost use Rattle.echo_script.specs.Scripts.{plain_script, tables_refusal};
ghost use Rattle.echo_script.specs.Outcomes.{Wrote};
ghost use Rattle.echo_script.specs.Prepared.{Prepared, WellFormed, Filling, Preparing, Measure};

use blast_kernel::encoded;
use echo_bytes::Place;
use echo_checks::{Signatures, columns_ok, decl_vars_ok, names_ok, within_limits};
use echo_decls::Declarations;
use echo_lines::check_sat;
use echo_roots::echo_roots;
use echo_sharing::unshared;
use echo_tables::{BLANK, Lookups, Mark, entries, first_calls, roots_told};
use echo_walk::Walk;
use lent::{Problem, node_count};
use refusals::{EchoError, MAX_ENTRIES, MAX_NODES};
use sliver_kernel::Pass;

// ---------------------------------------------------------------- a problem that is well formed

// A problem that passed the checks before the names, and the widths of its nodes.
// Kept: `Lookups`, `Signatures`, `Declarations`, `Walk` and `Sharing` have these two fields and no `Formed`: what they ask of them is less.
#[derive(Clone, Copy)]
pub struct Formed<'a> {
    pub problem: &'a Problem<'a>,
    pub widths: &'a [u64],
    ghost formed: { WellFormed (problem_at problem.now) widths.now },
}

// ---------------------------------------------------------------- the tables

// The tables that the walk looks up: the entry of each variable's node, and each node's mark.
#[derive(Drop)]
pub struct Tables {
    pub entries: [Option<usize>; MAX_NODES],
    pub marks: [Mark; MAX_NODES],
}

impl Tables {
    // No node has an entry or a mark. Ruled out: marks that have a name; an entry that is the first for all.
    pub fn new() -> Tables
        ensures { result ≡ record { entries = replicate MAX_NODES None; marks = replicate MAX_NODES BLANK } }
    {
        Tables {
            entries: [None; MAX_NODES],
            marks: [BLANK; MAX_NODES],
        }
    }

    // What is declared, and the tables that the walk looks up: the refusal of a declared variable or function, or the tables filled, which
    // had no marks. Ruled out: `Signature` before `Var`; a signature from a call that is not the first.
    pub fn fill(
        &mut self,
        formed: &Formed,
        first: &mut [Option<usize>; MAX_ENTRIES],
    ) -> Result<(), EchoError>
        requires { self.old.marks ≡ replicate MAX_NODES BLANK }
        ensures { Filling formed.now.problem.now formed.now.widths.now (refused result) self.new first.new }
    {
        let problem = formed.problem;
        if !decl_vars_ok(problem) {
            return Err(EchoError::Var);
        }
        first_calls(problem.nodes, first);
        let signatures = Signatures {
            problem: &*problem,
            widths: &*formed.widths,
            first: &*first,
        };
        if !signatures.all_ok() {
            return Err(EchoError::Signature);
        }
        entries(problem.var_node, &mut self.entries);
        let lookups = Lookups {
            problem: &*problem,
            widths: &*formed.widths,
            entries: &self.entries,
            first: &*first,
        };
        lookups.mark(&mut self.marks);
        Ok(())
    }

    // The checks from the names on, in order: the first refusal, or the tables filled that the walk looks up, which had no marks.
    // Ruled out: a root's refusal before that of a declared function; a shared operator let through.
    #[tactic(auto, unfolding(crate::specs::Scripts::tables_refusal, echo_spec::specs::Input::dag_of))]
    pub fn prepare(
        &mut self,
        formed: &Formed,
        first: &mut [Option<usize>; MAX_ENTRIES],
    ) -> Result<(), EchoError>
        requires { self.old.marks ≡ replicate MAX_NODES BLANK }
        ensures { Preparing formed.now.problem.now formed.now.widths.now (refused result) self.new first.new }
    {
        let problem = formed.problem;
        if !names_ok(problem) {
            return Err(EchoError::Name);
        }
        if !unshared(problem) {
            return Err(EchoError::Shared);
        }
        self.fill(formed, first)?;
        roots_told(problem, formed.widths, &self.marks, problem.roots)
    }
}

// ---------------------------------------------------------------- the script

// The script of a problem that passed every check but the one for room, with the tables that were filled. Ruled out: a script without its
// last line; the declarations in place of the whole.
pub fn print(
    formed: &Formed,
    tables: &Tables,
    first: &[Option<usize>; MAX_ENTRIES],
    out: &mut [u8],
) -> Place
    requires { Prepared formed.now.problem.now formed.now.widths.now tables.now first.now }
    ensures { page result out.new ≡ written (page start out.old) (plain_script (problem_at formed.now.problem.now) formed.now.widths.now) }
{
    let problem = formed.problem;
    // Kept: made of the same values in each printer. A function that made them would say each field again in its contract.
    let declarations = Declarations {
        problem,
        widths: formed.widths,
        first: &*first,
    };
    let walk = Walk {
        problem,
        widths: formed.widths,
        entries: &tables.entries,
        marks: &tables.marks,
    };
    let declared = declarations.declare(out);
    let asserted = echo_roots(&walk, problem.roots, declared, out);
    check_sat(asserted, out)
}

// ---------------------------------------------------------------- the checks

// From the names on.
fn from_names(formed: &Formed, out: &mut [u8]) -> Result<Place, EchoError>
    ensures { Wrote (tables_refusal (problem_at formed.now.problem.now) formed.now.widths.now) (plain_script (problem_at formed.now.problem.now) formed.now.widths.now) (page start out.old) result out.new }
{
    // Made where they stand: a function that answers them has them on the stack more than once.
    let mut tables = Tables {
        entries: [None; MAX_NODES],
        marks: [BLANK; MAX_NODES],
    };
    let mut first = [None; MAX_ENTRIES];
    tables.prepare(formed, &mut first)?;
    Ok(print(formed, &tables, &first, out))
}

// The checks before the names, in order, and the widths of the nodes: how many there are.
// Kept: each entry point makes its `Formed` of this number; in an answer, `Formed` would have a shared part of what was lent to be written.
// Ruled out: a limit told after the encoding; a node
// that is not well formed let through.
#[tactic(auto, unfolding(echo_spec::specs::Answers::endless_with, echo_spec::specs::Input::dag_of))]
pub fn measure(problem: &Problem, ws: &mut [u64; MAX_NODES]) -> Result<usize, EchoError>
    ensures { Measure (problem_at problem.now) result ws.new }
{
    if !within_limits(problem) {
        return Err(EchoError::Limit);
    }
    if !encoded(problem.nodes, problem.bits) {
        return Err(EchoError::Encoding);
    }
    if !columns_ok(problem) {
        return Err(EchoError::Malformed);
    }
    let pass = Pass::of(problem);
    let arrays = pass.arrays;
    if !arrays.allowed() {
        return Err(EchoError::ArrayWidth);
    }
    let n = pass.widths(problem.nodes, ws);
    if n < node_count(problem.nodes) {
        return Err(EchoError::Malformed);
    }
    Ok(n)
}

// Every check but the one for room, in order, and then the script as far as it fits; the place has the length that is needed.
// Ruled out: a refusal by another number than the first check's; a length of what fitted and not of the script.
pub fn checked(problem: &Problem, out: &mut [u8]) -> Result<Place, EchoError>
    ensures { Wrote (endless_refusal (problem_at problem.now)) (script (query_of (problem_at problem.now))) (page start out.old) result out.new }
{
    let mut ws = [0u64; MAX_NODES];
    let n = measure(problem, &mut ws)?;
    let formed = Formed {
        problem: &*problem,
        widths: &ws[..n],
    };
    from_names(&formed, out)
}
