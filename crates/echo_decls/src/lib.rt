// The lines before the roots: the logic, and one declaration for each entry of each table, at a place in the lent buffer.
//
// The caller has made the tests that the Rust makes here: no width is 0, and each function has a first call whose arguments lie inside the
// side entries. So no function here refuses. Under "Ruled out" stand wrong programs that a public function's contract refuses.
#![tactic(auto)]

ghost use Rattle.std.specs.Prelude.{◌≡◌, ◌<◌, length};
ghost use Rattle.echo_spec.specs.Tables.{variables_of, arrays_of, functions_of, declarations_of};
ghost use Rattle.echo_spec.specs.Render.{texts, variable_text, array_text, function_text};
ghost use Rattle.lent.specs.Lent.{dag_at};
ghost use Rattle.echo_bytes.specs.Page.{page, start, written};
ghost use Rattle.echo_decls.specs.Declarable.{Declarable};
ghost use Rattle.echo_decls.specs.DeclaredLines.{variable_line, array_line, function_line, opening};

use echo_bytes::{Place, start};
use echo_lines::{decl_array, decl_func, decl_var, push_logic};
use echo_names::name_at;
use echo_tables::{arguments, looked_up};
use lent::{Problem, get, node_of};
use sliver_kernel::ArrayWidths;

// What is declared: the tables of a problem, with the widths of its nodes and the first call of each function.
#[derive(Clone, Copy)]
pub struct Declarations<'a> {
    pub problem: &'a Problem<'a>,
    pub widths: &'a [u64],
    pub first: &'a [Option<usize>],
    ghost declarable: { Declarable problem.now first.now },
}

impl<'a> Declarations<'a> {
    // The line of variable k.
    fn variable(&self, k: usize, p: Place, out: &mut [u8]) -> Place
        requires { k < length self.now.problem.now.name_start.now }
        ensures { page result out.new ≡ written (page p out.old) (variable_line (dag_at self.now.problem.now) k) }
    {
        let problem = self.problem;
        let name = name_at(
            problem.names,
            problem.name_start,
            problem.name_len,
            k as u64,
        );
        decl_var(name, get(problem.var_width, k as u64), p, out)
    }

    // The variables, in table order.
    // Kept: a loop for each table; a trait of tables would have as many impls, with two clauses each, for one loop of three lines.
    fn variables(&self, p: Place, out: &mut [u8]) -> Place
        ensures { page result out.new
            ≡ written (page p out.old) (texts variable_text (variables_of (dag_at self.now.problem.now))) }
    {
        let mut q = p;
        for k in 0..self.problem.name_start.len() {
            q = self.variable(k, q, out);
        }
        q
    }

    // The line of array k, by the widths that the table has for it.
    fn array(&self, k: usize, p: Place, out: &mut [u8]) -> Place
        requires { k < length self.now.problem.now.aname_start.now }
        ensures { page result out.new ≡ written (page p out.old) (array_line (dag_at self.now.problem.now) k) }
    {
        let problem = self.problem;
        let name = name_at(
            problem.anames,
            problem.aname_start,
            problem.aname_len,
            k as u64,
        );
        let widths = ArrayWidths::of(problem);
        let index = widths.index_of(k as u64);
        let value = widths.value_of(k as u64);
        decl_array(name, index, value, p, out)
    }

    // The arrays, in table order.
    fn arrays(&self, p: Place, out: &mut [u8]) -> Place
        ensures { page result out.new
            ≡ written (page p out.old) (texts array_text (arrays_of (dag_at self.now.problem.now))) }
    {
        let mut q = p;
        for k in 0..self.problem.aname_start.len() {
            q = self.array(k, q, out);
        }
        q
    }

    // The line of function g, with the signature of its first call, which each function has.
    fn function(&self, g: usize, p: Place, out: &mut [u8]) -> Place
        requires { g < length self.now.problem.now.fname_start.now }
        ensures { page result out.new
            ≡ written (page p out.old) (function_line (dag_at self.now.problem.now) self.now.widths.now g) }
    {
        let problem = self.problem;
        let c = looked_up(self.first, g as u64).unwrap();
        let call = node_of(problem.nodes, c as u64);
        let xs = arguments(problem.side, call).unwrap();
        let name = name_at(
            problem.fnames,
            problem.fname_start,
            problem.fname_len,
            g as u64,
        );
        let width = get(problem.func_width, g as u64);
        decl_func(name, self.widths, xs, width, p, out)
    }

    // The functions, in table order.
    fn functions(&self, p: Place, out: &mut [u8]) -> Place
        ensures { page result out.new
            ≡ written (page p out.old)
            (texts function_text (functions_of (dag_at self.now.problem.now) self.now.widths.now)) }
    {
        let mut q = p;
        for g in 0..self.problem.fname_start.len() {
            q = self.function(g, q, out);
        }
        q
    }

    // The lines before the roots, from the start of the buffer on: the logic, the variables, the arrays, the functions.
    // Ruled out: the last variable left out; a function with the signature of another function's call.
    pub fn declare(&self, out: &mut [u8]) -> Place
        ensures { page result out.new
            ≡ written (page start out.old)
            (opening (declarations_of (dag_at self.now.problem.now) self.now.widths.now)) }
    {
        let arrays = self.problem.aname_start.len();
        let functions = self.problem.fname_start.len();
        let logic = push_logic(arrays, functions, start(), out);
        let variables_declared = self.variables(logic, out);
        let arrays_declared = self.arrays(variables_declared, out);
        self.functions(arrays_declared, out)
    }
}
