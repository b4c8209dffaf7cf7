// The tables that are filled once before the walk: lookups, and for each node its shape and what its whole term is refused with. After
// that the roots are tested by one table, and the walk can refuse nothing.
// Under "Ruled out" stand wrong programs that a public function's contract refuses.
#![tactic(auto)]

ghost use Rattle.std.specs.Prelude.{◌≡◌, true, false, map, ℕ, ◌≤◌, ◌<◌, ◌%◌, ◌+◌, ◌*◌, eqb, length, slice_index_or, drop, replicate, None, option_copied};
ghost use Rattle.lists.specs.Tests.{same};
ghost use Rattle.reading.specs.Kinds.{Const as const_kind, Call as call_kind};
ghost use Rattle.echo_spec.specs.Refusals.{unless};
ghost use Rattle.echo_spec.specs.Input.{nodes_of};
ghost use Rattle.echo_spec.specs.Input as input;
ghost use Rattle.echo_spec.specs.Trees.{bits_value};
ghost use Rattle.echo_spec.specs.Walk.{args_match, vector, levels, walk_all, walk, walk_roots, variable_ok, rotation_ok, call_ok, asked_as};
ghost use Rattle.refusals.specs.Numbers.{refused, error_number};
ghost use Rattle.lent.specs.Lent.{problem_at, dag_at};
ghost use Rattle.lent.specs.Records.{node_of};
ghost use Rattle.echo_tables.specs.Found.{Entries, Calls};
ghost use Rattle.echo_tables.specs.Steps.{widths, CutOut};
ghost use Rattle.echo_tables.specs.Forms.{call_form, form_as, form_operands};
ghost use Rattle.echo_tables.specs.Marks.{mark_at, use_of, Marks};
ghost use Rattle.echo_tables.specs.Refused.{refused_at};
ghost use Rattle.echo_tables.specs.Uses.{FormInside};
ghost use Rattle.echo_tables.specs.Filling.{Filled, Marking, Marked, Refusable};

use blast_kernel::Shape;
use lent::{Node, Problem, at, clear, get, node_at, node_count, node_of};
use refusals::{EchoError, MAX_ENTRIES, MAX_NODES, MAX_ROTATED};

// ---------------------------------------------------------------- kinds

// Is the node a constant.
fn is_const(n: Node) -> bool
    ensures { result ≡ eqb n.kind const_kind }
{
    matches!(Shape::from(n.kind), Shape::Const)
}

// Is the node a call.
fn is_call(n: Node) -> bool
    ensures { result ≡ eqb n.kind call_kind }
{
    matches!(Shape::from(n.kind), Shape::Call)
}

// ---------------------------------------------------------------- tables filled once

// What a table that was filled holds for number i. Ruled out: the place after it; the last one past the end.
pub fn looked_up(table: &[Option<usize>], i: u64) -> Option<usize>
    ensures { result ≡ slice_index_or table.now i None }
{
    at(table, i, None)
}

// The entry of each node: from the last entry to the first, so that the first wins. Ruled out: the last entry of a node in place of the
// first; a node's entry kept from what was lent.
pub fn entries(var_node: &[u64], entry: &mut [Option<usize>; MAX_NODES])
    ensures { Entries var_node.now entry.new }
{
    clear(entry);
    // Kept: places, which are what is stored; `iter().enumerate().rev()` would say no more.
    for k in (0..var_node.len()).rev() {
        let x = var_node[k] as usize;
        if x < MAX_NODES {
            entry[x] = Some(k);
        }
    }
}

// The first call of each function, by its node: from the last node to the first, so that the first wins. Ruled out: the last call of a
// function in place of the first; a select taken for a call.
pub fn first_calls(nodes: &[u8], first: &mut [Option<usize>; MAX_ENTRIES])
    ensures { Calls (nodes_of nodes.now) first.new }
{
    clear(first);
    // Kept: places, which are what is stored, and a record is taken apart at its place.
    for i in (0..node_count(nodes)).rev() {
        let n = node_at(nodes, i);
        let g = n.a as usize;
        if is_call(n) && g < MAX_ENTRIES {
            first[g] = Some(i);
        }
    }
}

// ---------------------------------------------------------------- calls

// Have the two lists of nodes the same widths.
fn same_widths(ws: &[u64], a: &[u64], b: &[u64]) -> bool
    requires { length a.now ≡ length b.now }
    ensures { result ≡ same (widths ws.now a.now) (widths ws.now b.now) }
{
    a.iter().zip(b).all(|(x, y)| get(ws, *x) == get(ws, *y))
}

// The call's arguments, where they lie inside the side entries. Ruled out: a start alone that is looked at; as many as there are, where
// there are fewer.
pub fn arguments<'a>(side: &'a [u64], n: Node) -> Option<&'a [u64]>
    ensures { CutOut side.now (node_of n) (option_copied result) }
{
    side.get(n.c as usize..)?.get(..n.d as usize)
}

// Have the two calls as many arguments, inside the side entries, of the same widths.
// Ruled out: arguments counted and their widths not compared; a call past the side entries taken for one without arguments.
pub fn args_match(ws: &[u64], side: &[u64], n: Node, f: Node) -> bool
    ensures { result ≡ args_match ws.now side.now (node_of n) (node_of f) }
{
    if f.d != n.d {
        return false;
    }
    let Some(own) = arguments(side, n) else {
        return false;
    };
    let Some(first) = arguments(side, f) else {
        return false;
    };
    same_widths(ws, own, first)
}

// ---------------------------------------------------------------- rotations

// A number with one bit more at its end, modulo w.
fn doubled(k: u64, b: u8, w: u64) -> u64
    requires { (k < MAX_ROTATED) × (0 < w) }
    ensures { result ≡ (2 * k + b) % w }
{
    (2 * k + u64::from(b)) % w
}

// The number that the bits stand for, the lowest first, modulo w: from the highest bit down, so that one number is kept and it stays
// below w. Ruled out: the number not reduced; the highest bit taken for the first.
pub fn rot_amount(bits: &[u8], w: u64) -> u64
    requires { (0 < w) × (w ≤ MAX_ROTATED) }
    ensures { result ≡ bits_value bits.now % w }
{
    let mut k: u64 = 0;
    // Kept: k stays below w from turn to turn, which a closure of `rev().fold(..)` would have to require.
    for b in bits.iter().rev() {
        k = doubled(k, *b, w);
    }
    k
}

// ---------------------------------------------------------------- what operands a node has

// What operands follow the head of a term.
// Kept: side entries by where they stand, though each caller has them: a form is what `operands` makes of a node alone, in the definitions too.
#[derive(Clone, Copy, Debug, PartialEq, Eq)]
pub enum Form {
    // none
    Leaf,
    // one, and whether a Bool is wanted
    // Kept: a bool, as an operand of the definitions has it; of an enum each clause would have to say which bool it stands for.
    One(u64, bool),
    Two(u64, u64, bool),
    // a Bool, and two bit-vectors
    Choice(u64, u64, u64),
    // the index of a select, and where its stores stand in the side entries and how many there are
    Chain(u64, u64, u64),
    // where a call's arguments stand in the side entries and how many there are
    Arguments(u64, u64),
}

// A call's arguments, or a leaf where it has none. Ruled out: no arguments as a list of none; a call with one argument as a leaf.
#[tactic(auto, unfolding(crate::specs::Forms::call_form))]
pub fn call_form(s: u64, n: u64) -> Form
    ensures { result ≡ call_form s n }
{
    if n == 0 {
        Form::Leaf
    } else {
        Form::Arguments(s, n)
    }
}

// What operands follow the head of a node. Ruled out: a rotation's amount as an operand; a Bool wanted of a comparison's operands.
#[tactic(auto, unfolding(crate::specs::Forms::form_as))]
pub fn operands(n: Node) -> Form
    ensures { result ≡ form_as (node_of n) (input.shape (node_of n)) }
{
    match Shape::from(n.kind) {
        Shape::Var | Shape::Const | Shape::Unknown => Form::Leaf,
        Shape::Rotation(_) | Shape::Extension(_) | Shape::Unary(_) => Form::One(n.a, false),
        Shape::Extraction => Form::One(n.c, false),
        Shape::Negation => Form::One(n.a, true),
        Shape::Binary(_) | Shape::Concat | Shape::Comparison(_) => Form::Two(n.a, n.b, false),
        Shape::Connective(_) => Form::Two(n.a, n.b, true),
        Shape::Ite => Form::Choice(n.a, n.b, n.c),
        Shape::Select => Form::Chain(n.b, n.c, n.d),
        Shape::Call => call_form(n.c, n.d),
    }
}

// ---------------------------------------------------------------- marks

// What is told of a node once: its shape, what its whole term is refused with where the sort that is wanted is the one that it has, and
// whether a `let` has given it a name.
#[derive(Clone, Copy, Debug, PartialEq, Eq)]
pub struct Mark {
    pub shape: Shape,
    pub told: Result<(), EchoError>,
    pub named: bool,
}

// Of a place that is no node's. Ruled out: a mark with a name; one that is refused.
pub const BLANK: Mark = Mark {
    shape: Shape::Unknown,
    told: Ok(()),
    named: false,
};

// The mark of node x. Ruled out: the mark of the node after it; the last one past the end.
pub fn mark_of(marks: &[Mark], x: u64) -> Mark
    ensures { result ≡ mark_at marks.now x }
{
    at(marks, x, BLANK)
}

// ---------------------------------------------------------------- operands by the table

// The refusal, unless the test is passed.
fn check(passed: bool, refusal: EchoError) -> Result<(), EchoError>
    ensures { refused result ≡ unless passed (error_number refusal) }
{
    if passed { Ok(()) } else { Err(refusal) }
}

// Node x where a Bool is wanted, or a bit-vector: a wrong sort, or what its mark tells.
#[tactic(auto, unfolding(crate::specs::Marks::use_of))]
fn use_of(marks: &[Mark], x: u64, want_bool: bool) -> Result<(), EchoError>
    ensures { refused result ≡ use_of marks.now x want_bool }
{
    let m = mark_of(marks, x);
    check(m.shape.is_bool() == want_bool, EchoError::Sort)?;
    m.told
}

// Of n pairs of side entries from place s on: the last pair first, an index before its value.
fn pairs_told(marks: &[Mark], side: &[u64], s: u64, n: u64) -> Result<(), EchoError>
    requires { n + n ≤ length (drop s side.now) }
    ensures { refused result ≡ walk_all (use_of marks.now) (levels n (drop s side.now)) }
{
    let from = s as usize;
    // Kept: the pairs by their places: of a part of `rchunks_exact(2)` the two entries are taken by index too, and it would have to be shown
    // which two they are.
    for k in (0..n as usize).rev() {
        let at = from + (k + k);
        use_of(marks, side[at], false)?;
        use_of(marks, side[at + 1], false)?;
    }
    Ok(())
}

// Of a call's arguments.
fn arguments_told(marks: &[Mark], args: &[u64]) -> Result<(), EchoError>
    ensures { refused result ≡ walk_all (use_of marks.now) (map vector «args».now) }
{
    for x in args {
        use_of(marks, *x, false)?;
    }
    Ok(())
}

// The operands of a form, in printing order.
fn operands_told(marks: &[Mark], side: &[u64], f: Form) -> Result<(), EchoError>
    requires { FormInside side.now f }
    ensures { refused result ≡ walk_all (use_of marks.now) (form_operands side.now f) }
{
    match f {
        Form::Leaf => Ok(()),
        Form::One(a, w) => use_of(marks, a, w),
        Form::Two(a, b, w) => {
            use_of(marks, a, w)?;
            use_of(marks, b, w)
        }
        Form::Choice(a, b, c) => {
            use_of(marks, a, true)?;
            use_of(marks, b, false)?;
            use_of(marks, c, false)
        }
        Form::Chain(j, s, n) => {
            pairs_told(marks, side, s, n)?;
            use_of(marks, j, false)
        }
        Form::Arguments(s, n) => {
            let from = s as usize;
            let to = from + n as usize;
            arguments_told(marks, &side[from..to])
        }
    }
}

// ---------------------------------------------------------------- what the tables ask of a node

// The tables that are looked up, filled from a problem that is within the limits, each node well formed after those before it.
#[derive(Clone, Copy)]
pub struct Lookups<'a> {
    pub problem: &'a Problem<'a>,
    pub widths: &'a [u64],
    pub entries: &'a [Option<usize>],
    pub first: &'a [Option<usize>],
    ghost filled: { Filled problem.now widths.now entries.now first.now },
}

impl<'a> Lookups<'a> {
    // The first entry that has node i has the node's width.
    fn variable_ok(&self, i: u64, n: Node) -> bool
        requires { i < MAX_NODES }
        ensures { result ≡ variable_ok (dag_at self.now.problem.now) i (node_of n) }
    {
        match looked_up(self.entries, i) {
            None => false,
            Some(k) => get(self.problem.var_width, k as u64) == n.a,
        }
    }

    // The width is from 1 to 65,536 and the amount is a constant.
    fn rotation_ok(&self, i: u64, n: Node) -> bool
        ensures { result ≡ rotation_ok (dag_at self.now.problem.now) self.now.widths.now i (node_of n) }
    {
        let w = get(self.widths, i);
        (1..=MAX_ROTATED).contains(&w) && is_const(node_of(self.problem.nodes, n.b))
    }

    // The call has its function's declared width, and the arguments of the function's first call.
    fn call_ok(&self, n: Node) -> bool
        requires { n.a < MAX_ENTRIES }
        ensures { result ≡ call_ok (dag_at self.now.problem.now) self.now.widths.now (node_of n) }
    {
        if get(self.problem.func_width, n.a) != n.b {
            return false;
        }
        match looked_up(self.first, n.a) {
            None => false,
            Some(c) => args_match(
                self.widths,
                self.problem.side,
                n,
                node_of(self.problem.nodes, c as u64),
            ),
        }
    }

    // What the tables ask of node i by itself.
    fn ask(&self, i: u64, n: Node) -> Result<(), EchoError>
        requires { i < MAX_NODES }
        ensures { refused result ≡ asked_as (dag_at self.now.problem.now) self.now.widths.now i (node_of n) (input.shape (node_of n)) }
    {
        match Shape::from(n.kind) {
            Shape::Var => check(self.variable_ok(i, n), EchoError::Var),
            Shape::Rotation(_) => check(self.rotation_ok(i, n), EchoError::Rotate),
            Shape::Select => {
                let arrays = self.problem.aname_start.len() as u64;
                check(n.a < arrays, EchoError::Malformed)
            }
            Shape::Call => {
                let functions = self.problem.fname_start.len() as u64;
                check(n.a < functions, EchoError::Malformed)?;
                check(self.call_ok(n), EchoError::Signature)
            }
            _ => Ok(()),
        }
    }

    // What node i is refused with, where the sort that is wanted is the one that it has: what the tables ask of it, and then its operands,
    // whose marks are made.
    fn tell(&self, marks: &[Mark], i: u64, n: Node) -> Result<(), EchoError>
        requires { Marking self.now.problem.now self.now.widths.now marks.now i (node_of n) }
        ensures { refused result ≡ refused_at (dag_at self.now.problem.now) self.now.widths.now i }
    {
        self.ask(i, n)?;
        operands_told(marks, self.problem.side, operands(n))
    }

    // The mark of node i, whose operands have theirs.
    fn mark_node(&self, marks: &[Mark], i: u64, n: Node) -> Mark
        requires { Marking self.now.problem.now self.now.widths.now marks.now i (node_of n) }
        ensures is { Marks (dag_at self.now.problem.now) self.now.widths.now i result }
        ensures unnamed { result.named ≡ false }
    {
        Mark {
            shape: Shape::from(n.kind),
            told: self.tell(marks, i, n),
            named: false,
        }
    }

    // For each node its mark, in node order, since the operands of a node are lower nodes. Ruled out: a call's signature taken from another
    // call than the first; a rotation of width 65,537 let through; a refusal of a later operand in place of that of an earlier one.
    pub fn mark(&self, marks: &mut [Mark; MAX_NODES])
        requires { marks.old ≡ replicate MAX_NODES BLANK }
        ensures { Marked (dag_at self.now.problem.now) self.now.widths.now marks.new }
    {
        let nodes = self.problem.nodes;
        // Kept: a node's mark is made from the marks before it, so that they are written by their places.
        for i in 0..node_count(nodes) {
            let m = self.mark_node(marks, i as u64, node_at(nodes, i));
            marks[i] = m;
        }
    }
}

// ---------------------------------------------------------------- roots

// What root x is refused with: it exists and it is a Bool, and its term passes.
// Kept: the problem, its widths and its marks as three parameters, here and in `roots_told`: each caller has them for one call.
fn root_told(problem: &Problem, ws: &[u64], marks: &[Mark], x: u64) -> Result<(), EchoError>
    requires { Refusable problem.now ws.now marks.now }
    ensures { refused result ≡ walk (dag_at problem.now) ws.now x true }
{
    check(x < ws.len() as u64, EchoError::Malformed)?;
    use_of(marks, x, true)
}

// The first refusal of the roots in order. Ruled out: a root that is a bit-vector let through; the last root's refusal in place of
// the first one's.
pub fn roots_told(
    problem: &Problem,
    ws: &[u64],
    marks: &[Mark],
    roots: &[u64],
) -> Result<(), EchoError>
    requires { Refusable problem.now ws.now marks.now }
    ensures { refused result ≡ walk_roots (dag_at problem.now) ws.now roots.now }
{
    for x in roots {
        root_told(problem, ws, marks, *x)?;
    }
    Ok(())
}
