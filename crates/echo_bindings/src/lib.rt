// One assertion with `let`: what it is refused with, and its text.
//
// A node's mark tells what its whole term is refused with. A bound term is checked before any use of it, so that the marks serve here too:
// the bound nodes in rising order, and then the root. While the text is written a bound node is named in its mark once its binding is
// written; the next assertion takes the names out first.
#![tactic(auto)]

ghost use Rattle.std.specs.Prelude.{◌≡◌, cond, [], ◌∷◌, ◌++◌, ◌≤◌, map, length};
ghost use Rattle.lists.specs.Bytes.{bytes as literal};
ghost use Rattle.refusals.specs.Numbers.{refused};
ghost use Rattle.echo_bytes.specs.Page.{page, written};
ghost use Rattle.echo_walk.specs.Texts.{named};
ghost use Rattle.echo_bindings.specs.LetRefused.{first_from};
ghost use Rattle.echo_bindings.specs.Checking.{flagged, bound_refusal, Sharing};
ghost use Rattle.echo_bindings.specs.LetLines.{closes_from};
ghost use Rattle.echo_bindings.specs.Naming.{unnamed, Walkable};

use echo_bytes::{Place, start};
use echo_lines::{close_line, open_assert};
use echo_reach::bound_nodes;
use echo_tables::{Mark, roots_told};
use echo_walk::{Walk, push_named};
use lent::Problem;
use refusals::{EchoError, MAX_NODES};

// ---------------------------------------------------------------- what an assertion is refused with

// The first refusal of the bound nodes, in rising order.
fn first_told(marks: &[Mark; MAX_NODES], bound: &[bool]) -> Result<(), EchoError>
    ensures { refused result ≡ first_from (bound_refusal marks.now (flagged bound.now)) 0 (length bound.now) }
{
    for (m, b) in marks.iter().zip(bound) {
        if *b {
            m.told?;
        }
    }
    Ok(())
}

// The problem, each node's width, and which operators are shared.
// Kept: the marks are lent beside it, and that they are made is asked at each use, since the assertions that are written by it change the
// names in them.
#[derive(Clone, Copy)]
pub struct Sharing<'a> {
    pub problem: &'a Problem<'a>,
    pub widths: &'a [u64],
    // The flags of the nodes. Flags past the last node are asked for nothing: who has more cuts them.
    pub shared: &'a [bool],
    ghost known: { Sharing problem.now widths.now shared.now },
}

impl<'a> Sharing<'a> {
    ghost use Rattle.std.specs.Prelude.{◌≡◌};
    ghost use Rattle.refusals.specs.Numbers.{refused};
    ghost use Rattle.lets.specs.Lets.{binds, assertion_refusal, let_roots};
    ghost use Rattle.lent.specs.Lent.{dag_at};
    ghost use Rattle.echo_tables.specs.Refused.{refused_at};
    ghost use Rattle.echo_tables.specs.Filling.{Marked};
    ghost use Rattle.echo_bindings.specs.LetRefused.{first_from, of_bound};
    ghost use Rattle.echo_bindings.specs.Checking.{uses_at};

    // The first refusal of the nodes that are bound in a root's assertion. A root that is no node reaches none.
    fn bound_told(
        &self,
        marks: &[Mark; MAX_NODES],
        root: u64,
        bound: &mut [bool; MAX_NODES],
    ) -> Result<(), EchoError>
        requires { Marked (dag_at self.now.problem.now) self.now.widths.now marks.now }
        ensures { refused result ≡ first_from (of_bound (binds (dag_at self.now.problem.now) (uses_at self.now.problem.now) root) (refused_at (dag_at self.now.problem.now) self.now.widths.now)) 0 (length (dag_at self.now.problem.now).nodes) }
    {
        let n = self.widths.len();
        if root >= n as u64 {
            return Ok(());
        }
        bound_nodes(self.problem, root, self.shared, bound);
        let first = &bound[..n];
        first_told(marks, first)
    }

    // What the assertion of a root is refused with.
    fn assertion_told(
        &self,
        marks: &[Mark; MAX_NODES],
        root: u64,
        bound: &mut [bool; MAX_NODES],
    ) -> Result<(), EchoError>
        requires { Marked (dag_at self.now.problem.now) self.now.widths.now marks.now }
        ensures { refused result ≡ assertion_refusal (dag_at self.now.problem.now) self.now.widths.now (binds (dag_at self.now.problem.now) (uses_at self.now.problem.now) root) root }
    {
        self.bound_told(marks, root, bound)?;
        roots_told(self.problem, self.widths, marks, &[root])
    }

    // The first refusal of the roots' assertions in order. Where every root's whole term passes, every assertion does, and none is gone through by
    // itself. What is lent for the bound nodes may have those of another root. Ruled out: the root's sort told before a bound term's refusal; the
    // bound terms of a later root checked before an earlier root.
    pub fn roots_told(
        &self,
        marks: &[Mark; MAX_NODES],
        roots: &[u64],
        bound: &mut [bool; MAX_NODES],
    ) -> Result<(), EchoError>
        requires { Marked (dag_at self.now.problem.now) self.now.widths.now marks.now }
        ensures { refused result ≡ let_roots (dag_at self.now.problem.now) self.now.widths.now (uses_at self.now.problem.now) roots.now }
    {
        if roots_told(self.problem, self.widths, marks, roots).is_ok() {
            return Ok(());
        }
        for root in roots {
            self.assertion_told(marks, *root, bound)?;
        }
        Ok(())
    }
}

// ---------------------------------------------------------------- its text

// The start of a binding, ` (let ((|d2|` for node 2.
fn open_binding(p: Place, i: u64, out: &mut [u8]) -> Place
    ensures { page result out.new ≡ written (page p out.old) (literal " (let ((" ++ named i) }
{
    push_named(p.word(out, b" (let (("), i, out)
}

// A closing bracket for each bound node.
fn close_bindings(bound: &[bool], p: Place, out: &mut [u8]) -> Place
    ensures { page result out.new ≡ written (page p out.old) (closes_from (flagged bound.now) 0 (length bound.now)) }
{
    let mut q = p;
    for b in bound {
        if *b {
            q = q.byte(out, b')');
        }
    }
    q
}

// Takes the names out of the marks.
fn unname(marks: &mut [Mark; MAX_NODES])
    ensures { marks.new ≡ map unnamed marks.old }
{
    for m in marks.iter_mut() {
        m.named = false;
    }
}

// What assertions are written by: which operators are shared, and the entry of a variable's node.
#[derive(Clone, Copy)]
pub struct Assertions<'a> {
    pub sharing: Sharing<'a>,
    pub entries: &'a [Option<usize>],
    ghost walkable: { Walkable sharing.problem.now sharing.widths.now entries.now },
}

impl<'a> Assertions<'a> {
    ghost use Rattle.std.specs.Prelude.{◌≡◌, ◌∷◌, ◌++◌, map, length};
    ghost use Rattle.lists.specs.Bytes.{bytes as literal};
    ghost use Rattle.lent.specs.Lent.{dag_at};
    ghost use Rattle.echo_bytes.specs.Page.{page, start, written};
    ghost use Rattle.echo_bindings.specs.Checking.{flagged};
    ghost use Rattle.echo_bindings.specs.LetLines.{open_text, opens_from};
    ghost use Rattle.echo_bindings.specs.Naming.{unnamed, named_at, NamedTo, text_by, own_text, assertion_text, Told, Bindable, Writable, Assertable};
    ghost use Rattle.echo_bindings.specs.Parts.{problem_in, widths_in};

    // A blank, and node i as a term by its mark and those below it.
    fn term(&self, p: Place, i: u64, marks: &[Mark; MAX_NODES], out: &mut [u8]) -> Place
        requires { Writable (problem_in self.now) (widths_in self.now) marks.now i }
        ensures { page result out.new ≡ written (page p out.old) (32 ∷ text_by (problem_in self.now) (widths_in self.now) marks.now i) }
    {
        let walk = Walk {
            problem: self.sharing.problem,
            widths: self.sharing.widths,
            entries: self.entries,
            marks,
        };
        walk.echo_node(p, i, out)
    }

    // The binding of node i, which is then named.
    fn bind(&self, p: Place, i: usize, marks: &mut [Mark; MAX_NODES], out: &mut [u8]) -> Place
        requires { Writable (problem_in self.now) (widths_in self.now) marks.old i }
        ensures text { page result out.new ≡ written (page p out.old) (open_text (text_by (problem_in self.now) (widths_in self.now) marks.old) i) }
        ensures names { marks.new ≡ named_at marks.old i }
    {
        let opened = open_binding(p, i as u64, out);
        let written = self.term(opened, i as u64, marks, out);
        let closed = written.word(out, b"))");
        marks[i].named = true;
        closed
    }

    // The bindings of the bound nodes, the lowest first.
    fn bindings(
        &self,
        bound: &[bool],
        p: Place,
        marks: &mut [Mark; MAX_NODES],
        out: &mut [u8],
    ) -> Place
        requires told { Told (dag_at (problem_in self.now)) (widths_in self.now) marks.old }
        requires bindable { Bindable (problem_in self.now) (widths_in self.now) (flagged bound.now) }
        requires names { NamedTo (flagged bound.now) 0 marks.old }
        ensures text { page result out.new ≡ written (page p out.old) (opens_from (own_text (problem_in self.now) (widths_in self.now) (flagged bound.now)) (flagged bound.now) 0 (length bound.now)) }
        ensures names { NamedTo (flagged bound.now) (length bound.now) marks.new }
        ensures told { map unnamed marks.new ≡ map unnamed marks.old }
    {
        let mut q = p;
        for (i, b) in bound.iter().enumerate() {
            if *b {
                q = self.bind(q, i, marks, out);
            }
        }
        q
    }

    // The assertion of a root at the start of what is lent: its bindings, the lowest node outermost, then the root, and the brackets. The marks may
    // have the names of another root's assertion, and what is lent for the bound nodes those of another root. Ruled out: the highest node outermost;
    // a shared node bound that the root does not reach; the term of a bound node again where it is used; a mark changed but for its name.
    pub fn echo_assertion(
        &self,
        root: u64,
        marks: &mut [Mark; MAX_NODES],
        bound: &mut [bool; MAX_NODES],
        out: &mut [u8],
    ) -> Place
        requires { Assertable (problem_in self.now) (widths_in self.now) marks.old root }
        ensures text { page result out.new ≡ written (page start out.old) (literal "(assert" ++ ((32 ∷ assertion_text (problem_in self.now) (widths_in self.now) root) ++ literal ")\n")) }
        ensures told { map unnamed marks.new ≡ map unnamed marks.old }
    {
        bound_nodes(self.sharing.problem, root, self.sharing.shared, bound);
        let first = &bound[..self.sharing.widths.len()];
        unname(marks);
        let opened = open_assert(start(), out);
        let bindings = self.bindings(first, opened, marks, out);
        let body = self.term(bindings, root, marks, out);
        let closed = close_bindings(first, body, out);
        close_line(closed, out)
    }
}
