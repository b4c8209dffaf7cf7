// The length of the plain script, without the walk: one pass over the nodes in order fills a table of lengths, in which the operands of a
// node stand before it. An operator that is used often costs what one use costs. Lengths are held at the largest number, as a place holds
// what it needs.
#![tactic(auto)]

ghost use Rattle.std.specs.Prelude.{◌≡◌, ◌+◌, ◌≤◌, ◌<◌, length};
ghost use Rattle.lent.specs.Lent.{problem_at};
ghost use Rattle.echo_walk.specs.Walks.{widths_in, text_at};
ghost use Rattle.echo_terms.specs.TermTable.{held};
ghost use Rattle.echo_roots.specs.Roots.{roots_text, AllFine};
ghost use Rattle.echo_script.specs.Scripts.{plain_script};
ghost use Rattle.echo_script.specs.Prepared.{Prepared};
ghost use Rattle.echo_lengths.specs.LengthTable.{closings, Long, Longs};

use echo_bytes::start;
use echo_decls::Declarations;
use echo_lines::check_sat;
use echo_script::{Formed, Tables};
use echo_tables::Form;
use echo_walk::Walk;
use refusals::{MAX_ENTRIES, MAX_NODES};

// ---------------------------------------------------------------- a node

// So many bytes, and the closing brackets behind the operands of a form.
#[tactic(auto, unfolding(crate::specs::LengthTable::closings))]
#[inline(always)]
fn closed(c: u64, f: Form) -> u64
    ensures { result ≡ held (c + closings f) }
{
    match f {
        Form::Leaf => c,
        Form::Chain(_, _, n) => c.saturating_add(n).saturating_add(1),
        Form::One(..) | Form::Two(..) | Form::Choice(..) | Form::Arguments(..) => {
            c.saturating_add(1)
        }
    }
}

// The length of a blank and node i as a term, by those of the nodes below it. A node that is refused has no length.
fn node_length(walk: &Walk, lens: &[u64], i: u64) -> u64
    requires { (i < length (widths_in walk.now)) × Longs walk.now lens.now i }
    ensures { Long walk.now i result }
{
    if walk.mark(i).told.is_err() {
        return 0;
    }
    let head = walk.open_head(start(), i, &mut []);
    let f = walk.operands_at(i);
    echo_terms::form_sum(lens, closed(head.need as u64, f), walk.problem.side, f)
}

// ---------------------------------------------------------------- the script

// What a root's line has beside its term: `(assert` and `)` with the end of the line.
const LINE: usize = 9;

// So many bytes, and the lines of the roots.
fn roots_length(walk: &Walk, roots: &[u64], c: usize) -> u64
    requires { AllFine walk.now roots.now × (length (widths_in walk.now) ≤ MAX_NODES) }
    ensures { result ≡ held (c + length (roots_text (text_at walk.now) roots.now)) }
{
    let mut lens = [0u64; MAX_NODES];
    for i in 0..walk.widths.len() {
        lens[i] = node_length(walk, &lens, i as u64);
    }
    let lines = c.saturating_add(LINE * roots.len());
    echo_terms::add_each(&lens, lines as u64, roots)
}

// The length of the script of a problem that passed every check but the one for room, with the tables that were filled. Ruled out: a length
// without the closing brackets; the lengths of the nodes that no root reaches added.
pub fn script_length(
    formed: &Formed,
    tables: &Tables,
    first: &[Option<usize>; MAX_ENTRIES],
) -> usize
    requires { Prepared formed.now.problem.now formed.now.widths.now tables.now first.now }
    ensures { result ≡ held (length (plain_script (problem_at formed.now.problem.now) formed.now.widths.now)) }
{
    let problem = formed.problem;
    let declarations = Declarations {
        problem,
        widths: formed.widths,
        first: &*first,
    };
    // Kept: the parts as in `echo_script::print`.
    let walk = Walk {
        problem,
        widths: formed.widths,
        entries: &tables.entries,
        marks: &tables.marks,
    };
    let declared = declarations.declare(&mut []);
    let framed = check_sat(declared, &mut []);
    roots_length(&walk, problem.roots, framed.need) as usize
}
