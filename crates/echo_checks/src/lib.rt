// The entry point's checks that need no walk: limits, columns, names, and what is declared.
// Under "Ruled out" stand wrong programs that a public function's contract refuses.
#![tactic(auto)]

ghost use Rattle.std.specs.Prelude.{◌≡◌, ◌&&◌, ◌<◌, leb, ltb, eqb, length};
ghost use Rattle.lists.specs.Tests.{every};
ghost use Rattle.echo_spec.specs.Input.{within_limits};
ghost use Rattle.echo_spec.specs.Names.{names_ok};
ghost use Rattle.echo_spec.specs.Tables.{columns_ok, arguments_inside, argument_widths, decl_vars_ok, decl_func_ok, decl_funcs_ok};
ghost use Rattle.echo_spec.specs.ColumnLaws.{Aligned};
ghost use Rattle.lent.specs.Lent.{problem_at, dag_at};
ghost use Rattle.lent.specs.Records.{node_of};
ghost use Rattle.echo_checks.specs.Functions.{has_width, FirstCalls};
ghost use Rattle.echo_checks.specs.Tables.{NamesOf};

use blast_kernel::nodes_within;
use echo_names::NameTable;
use echo_tables::{arguments, looked_up};
use lent::{Node, Problem, get, node_of};
use refusals::{MAX_ARENA, MAX_ENTRIES, MAX_ROOTS};

// ---------------------------------------------------------------- limits

// Is none of these longer than the limit.
fn all_within<T>(slices: &[&[T]], limit: usize) -> bool
    ensures { result ≡ every (λ s. leb (length s.now) limit) slices.now }
{
    slices.iter().all(|s| s.len() <= limit)
}

// `Limit` is where this is false. (The limits of the nodes, bits and side entries are tested with the nodes.) Ruled out: a limit that is
// itself refused; a column of 513 entries let through.
#[tactic(auto, unfolding(echo_spec::specs::Input::within_limits, echo_spec::specs::Input::column_within, echo_spec::specs::Input::arena_within))]
pub fn within_limits(problem: &Problem) -> bool
    ensures { result ≡ within_limits (problem_at problem.now) }
{
    let columns = [
        problem.name_start,
        problem.name_len,
        problem.var_node,
        problem.var_width,
        problem.aname_start,
        problem.aname_len,
        problem.index_width,
        problem.value_width,
        problem.fname_start,
        problem.fname_len,
        problem.func_width,
    ];
    let arenas = [problem.names, problem.anames, problem.fnames];
    nodes_within(problem.nodes, problem.bits, problem.side)
        && problem.roots.len() <= MAX_ROOTS
        && all_within(&columns, MAX_ENTRIES)
        && all_within(&arenas, MAX_ARENA)
}

// ---------------------------------------------------------------- columns

// Has each of these columns n entries.
fn all_of(columns: &[&[u64]], n: usize) -> bool
    ensures { result ≡ every (λ c. eqb (length c.now) n) columns.now }
{
    columns.iter().all(|c| c.len() == n)
}

// Are the columns of each table of one length. Ruled out: a column that is longer than its table's first; the widths of the variables
// not compared.
#[tactic(auto, unfolding(echo_spec::specs::Tables::columns_ok, echo_spec::specs::Tables::one_length, echo_spec::specs::Input::dag_of))]
pub fn columns_ok(problem: &Problem) -> bool
    ensures { result ≡ columns_ok (dag_at problem.now) }
{
    let variables = [problem.name_len, problem.var_node, problem.var_width];
    let arrays = [problem.aname_len, problem.index_width, problem.value_width];
    let functions = [problem.fname_len, problem.func_width];
    all_of(&variables, problem.name_start.len())
        && all_of(&arrays, problem.aname_start.len())
        && all_of(&functions, problem.fname_start.len())
}

// ---------------------------------------------------------------- names

// The names of a problem, by table.
#[derive(Clone, Copy)]
pub struct Names<'a> {
    pub variables: NameTable<'a>,
    pub arrays: NameTable<'a>,
    pub functions: NameTable<'a>,
}

impl<'a> Names<'a> {
    // Those that a problem has, where each table's columns are of one length. Ruled out: the arrays' names for the functions'; the names
    // of the variables cut out of another arena.
    #[tactic(auto, unfolding(echo_spec::specs::Input::dag_of))]
    pub fn of(problem: &Problem<'a>) -> Names<'a>
        requires { Aligned (dag_at problem.now) }
        ensures { NamesOf (dag_at problem.now) result }
    {
        Names {
            variables: NameTable {
                arena: problem.names,
                starts: problem.name_start,
                lens: problem.name_len,
            },
            arrays: NameTable {
                arena: problem.anames,
                starts: problem.aname_start,
                lens: problem.aname_len,
            },
            functions: NameTable {
                arena: problem.fnames,
                starts: problem.fname_start,
                lens: problem.fname_len,
            },
        }
    }
}

// `Name` is where this is false: each table's names after those of the tables before it.
// Ruled out: an array that has a variable's name; a function's name not looked at.
#[tactic(auto, unfolding(echo_spec::specs::Names::names_ok, echo_spec::specs::Input::names_of))]
pub fn names_ok(problem: &Problem) -> bool
    requires { Aligned (dag_at problem.now) }
    ensures { result ≡ names_ok (dag_at problem.now) }
{
    let none = NameTable {
        arena: &[],
        starts: &[],
        lens: &[],
    };
    let names = Names::of(problem);
    names.variables.accepted(&none, &none)
        && names.arrays.accepted(&names.variables, &none)
        && names.functions.accepted(&names.variables, &names.arrays)
}

// ---------------------------------------------------------------- declarations

// Is no width 0.
fn widths_ok(widths: &[u64]) -> bool
    ensures { result ≡ every (ltb 0) widths.now }
{
    widths.iter().all(|w| *w > 0)
}

// `Var` is where this is false. Ruled out: the last variable's width not looked at; a width of 0 let through.
#[tactic(auto, unfolding(echo_spec::specs::Tables::decl_vars_ok, echo_spec::specs::Input::dag_of))]
pub fn decl_vars_ok(problem: &Problem) -> bool
    ensures { result ≡ decl_vars_ok (dag_at problem.now) }
{
    widths_ok(problem.var_width)
}

// Has each of these nodes a width.
fn have_widths(ws: &[u64], xs: &[u64]) -> bool
    ensures { result ≡ every (has_width ws.now) xs.now }
{
    xs.iter().all(|x| get(ws, *x) > 0)
}

// The call's arguments lie inside the side entries and have widths.
fn arguments_ok(ws: &[u64], side: &[u64], f: Node) -> bool
    ensures { result ≡ (arguments_inside side.now (node_of f)
        && every (ltb 0) (argument_widths ws.now side.now (node_of f))) }
{
    match arguments(side, f) {
        None => false,
        Some(xs) => have_widths(ws, xs),
    }
}

// What functions are declared from: the problem, the widths of its nodes, and the first call of each function.
// Kept: beside `Declarations` of echo_decls, which has the same three fields: that asks besides that each function is called, which is found out here.
#[derive(Clone, Copy)]
pub struct Signatures<'a> {
    pub problem: &'a Problem<'a>,
    pub widths: &'a [u64],
    pub first: &'a [Option<usize>],
    ghost filled: { FirstCalls problem.now first.now },
}

impl<'a> Signatures<'a> {
    // Function g has a width, and a first call whose arguments lie inside the side entries and have widths.
    fn function_ok(&self, g: u64) -> bool
        requires { g < MAX_ENTRIES }
        ensures { result ≡ decl_func_ok (dag_at self.now.problem.now) self.now.widths.now g }
    {
        if get(self.problem.func_width, g) == 0 {
            return false;
        }
        match looked_up(self.first, g) {
            None => false,
            Some(c) => arguments_ok(
                self.widths,
                self.problem.side,
                node_of(self.problem.nodes, c as u64),
            ),
        }
    }

    // `Signature` is where this is false, as far as declarations go.
    // Ruled out: a function that is never called let through; an argument of width 0.
    pub fn all_ok(&self) -> bool
        ensures { result ≡ decl_funcs_ok (dag_at self.now.problem.now) self.now.widths.now }
    {
        // Kept: g is known to be a function's, which a closure of `all` would have to require.
        for g in 0..self.problem.fname_start.len() {
            if !self.function_ok(g as u64) {
                return false;
            }
        }
        true
    }
}
