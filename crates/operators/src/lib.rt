// What the operators of each shape do to vectors and Bools.
#![tactic(auto)]

ghost use Rattle.std.specs.Prelude.{◌≡◌, ◌+◌, ◌<◌, ◌≤◌};
ghost use Rattle.operators.specs.Operators.{binary_of, comparison_of, unary_of, rotation_of, extension_of, connective_of};

use blast_kernel::{Binary, Comparison, Connective, Extension, Rotation, Unary};
use bv::Vector;

// A vector of the width of the two. Ruled out: another operator's result; the operands exchanged.
pub fn binary(o: Binary, s: Vector, t: Vector) -> Vector
    requires { t.width ≡ s.width }
    ensures width { result.width ≡ s.width }
    ensures number { result.number ≡ binary_of o s.width s.number t.number }
{
    match o {
        Binary::Add => s.bvadd(t),
        Binary::Sub => s.bvsub(t),
        Binary::Mul => s.bvmul(t),
        Binary::Udiv => s.bvudiv(t),
        Binary::Urem => s.bvurem(t),
        Binary::And => s.bvand(t),
        Binary::Or => s.bvor(t),
        Binary::Xor => s.bvxor(t),
        Binary::Shl => s.bvshl(t),
        Binary::Lshr => s.bvlshr(t),
        Binary::Ashr => s.bvashr(t),
        Binary::Sdiv => s.bvsdiv(t),
        Binary::Srem => s.bvsrem(t),
    }
}

// A Bool of two vectors. Ruled out: the order the other way about; equality alone.
pub fn comparison(o: Comparison, s: Vector, t: Vector) -> bool
    requires { t.width ≡ s.width }
    ensures { result ≡ comparison_of o s.width s.number t.number }
{
    match o {
        Comparison::Equal => s.number == t.number,
        Comparison::Different => s.number != t.number,
        Comparison::Ult => s.number < t.number,
        Comparison::Ule => s.number <= t.number,
        Comparison::Ugt => t.number < s.number,
        Comparison::Uge => t.number <= s.number,
        Comparison::Slt => s.bvslt(t),
        Comparison::Sle => s.bvsle(t),
        Comparison::Sgt => t.bvslt(s),
        Comparison::Sge => t.bvsle(s),
    }
}

// Ruled out: one for the other; the operand as it is.
pub fn unary(o: Unary, s: Vector) -> Vector
    ensures width { result.width ≡ s.width }
    ensures number { result.number ≡ unary_of o s.width s.number }
{
    match o {
        Unary::Not => s.bvnot(),
        Unary::Neg => s.bvneg(),
    }
}

// By k places. Ruled out: one for the other; by the width less k.
pub fn rotation(o: Rotation, s: Vector, k: u64) -> Vector
    requires { k < s.width }
    ensures width { result.width ≡ s.width }
    ensures number { result.number ≡ rotation_of o k s.width s.number }
{
    match o {
        Rotation::Right => s.rotate_right(k),
        Rotation::Left => s.rotate_left(k),
    }
}

// By i places. Ruled out: one for the other; to a width of i.
pub fn extension(o: Extension, s: Vector, i: u64) -> Vector
    requires { s.width + i ≤ 64 }
    ensures width { result.width ≡ s.width + i }
    ensures number { result.number ≡ extension_of o i s.width s.number }
{
    match o {
        Extension::Zero => s.zero_extend(i),
        Extension::Sign => s.sign_extend(i),
    }
}

// A Bool of two. Ruled out: one for the other; true where one alone is.
pub fn connective(o: Connective, x: bool, y: bool) -> bool
    ensures { result ≡ connective_of o x y }
{
    match o {
        Connective::And => x && y,
        Connective::Or => x || y,
    }
}
