// A term's value on a row of values, from its operands' values.
#![tactic(auto)]

ghost use Rattle.std.specs.Prelude.{◌≡◌, eqb};
ghost use Rattle.trace_tables.specs.Fixed.{Fixed};

use blast_kernel::Shape;
use bv::Vector;
use lent::{get, node_at};
use trace_tables::Terms;

// What rows are evaluated with, worked out once before them: the entries of the variables, and of each node what `trace_tables` fills in.
#[derive(Clone, Copy)]
pub struct Evaluation<'a> {
    pub terms: Terms<'a>,
    // Kept: no code reads it, but the contracts say by it where a row has a variable's value; a ghost field holds a fact, and no list.
    pub entries: &'a [Option<usize>],
    pub fixed: &'a [u64],
    pub ghost filled: { Fixed terms.problem.nodes.now terms.problem.bits.now terms.widths.now entries.now fixed.now },
}

// A Bool as a vector of one place.
// Kept: an enum of Bools and vectors would have an arm in each shape that cannot come.
fn bit(b: bool) -> Vector
    ensures width { result.width ≡ 1 }
    ensures number { eqb result.number 1 ≡ b }
{
    Vector {
        width: 1,
        number: u64::from(b),
    }
}

// Is the Bool true.
fn holds(v: Vector) -> bool
    ensures { result ≡ eqb v.number 1 }
{
    v.number == 1
}

impl<'a> Evaluation<'a> {
    ghost use Rattle.trace_terms.specs.Places.{Good, Valued};

    // The value of node i on the row, a Bool as a vector of one place. Its operands' numbers are lower. Ruled out: a variable's entry for its
    // value; the operand of an `ite` that is not chosen.
    // Kept: operands are named by their place among the lent records, which have no other names; the library has no heap.
    pub fn value(&self, row: &[u64], i: u64) -> Vector
        requires { Good self.now row.now i }
        ensures { Valued self.now row.now i result }
    {
        let n = node_at(self.terms.problem.nodes, i as usize);
        match Shape::from(n.kind) {
            Shape::Var => Vector::new(get(self.terms.widths, i), get(row, get(self.fixed, i))),
            Shape::Const => Vector::new(get(self.terms.widths, i), get(self.fixed, i)),
            Shape::Binary(o) => {
                let x = self.value(row, n.a);
                let y = self.value(row, n.b);
                operators::binary(o, x, y)
            }
            Shape::Rotation(o) => {
                let x = self.value(row, n.a);
                operators::rotation(o, x, get(self.fixed, i))
            }
            Shape::Extraction => {
                let x = self.value(row, n.c);
                x.extract(n.a, n.b)
            }
            Shape::Concat => {
                let x = self.value(row, n.a);
                let y = self.value(row, n.b);
                x.concat(y)
            }
            Shape::Extension(o) => {
                let x = self.value(row, n.a);
                operators::extension(o, x, n.b)
            }
            Shape::Ite => {
                let x = self.value(row, n.a);
                if holds(x) {
                    self.value(row, n.b)
                } else {
                    self.value(row, n.c)
                }
            }
            Shape::Comparison(o) => {
                let x = self.value(row, n.a);
                let y = self.value(row, n.b);
                bit(operators::comparison(o, x, y))
            }
            Shape::Negation => {
                let x = self.value(row, n.a);
                bit(!holds(x))
            }
            Shape::Connective(o) => {
                let x = self.value(row, n.a);
                let y = self.value(row, n.b);
                bit(operators::connective(o, holds(x), holds(y)))
            }
            Shape::Unary(o) => {
                let x = self.value(row, n.a);
                operators::unary(o, x)
            }
            Shape::Select | Shape::Call | Shape::Unknown => bit(false),
        }
    }
}
