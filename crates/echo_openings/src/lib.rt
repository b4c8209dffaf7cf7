// The openings of formulas: what is written of a node before its first operand, which is all of a variable and of a constant.
// Under "Ruled out" stand wrong programs that a public function's contract refuses.
#![tactic(auto)]

ghost use Rattle.std.specs.Prelude.{◌≡◌, ◌++◌, ◌+◌, ◌%◌, ◌<◌, T, leb, length, get_or};
ghost use Rattle.lists.specs.Bytes.{bytes as literal};
ghost use Rattle.lists.specs.Tests.{every};
ghost use Rattle.echo_spec.specs.Render.{binary_digits, quoted};
ghost use Rattle.echo_bytes.specs.Page.{page, written};
ghost use Rattle.echo_lines.specs.Heads.{repeated};
ghost use Rattle.echo_spec.specs.Shapes.{var};
ghost use Rattle.echo_spec.specs.Trees.{constant_bits, variable_name};
ghost use Rattle.echo_walk.specs.Walks.{problem_in, dag_in, node_within, Taken, Constant, LeafAt, TermAt};
ghost use Rattle.echo_pieces.specs.Signs.{sign_of};
ghost use Rattle.echo_openings.specs.Openings.{plain_opening, numbered, call_opening};
ghost use Rattle.echo_openings.specs.Placed.{opening_of};

use blast_kernel::Shape;
use echo_bytes::Place;
use echo_lines::push_repeated;
use echo_pieces::{Notation, push_enclosed, push_sign};
use echo_walk::Walk;

// ---------------------------------------------------------------- constants

// The digit of bit i.
fn digit(bits: &[u8], i: usize) -> u8
    requires { (i < length bits.now) × T (every (λ b. leb b 1) bits.now) }
    ensures { result ≡ 48 + get_or bits.now i 0 }
{
    48 + bits[i]
}

// The digits of bits, the highest first, for a multiple of eight.
// Kept: eight are read before one is stored, which is compiled to one load and one store.
#[inline(always)]
fn write_eights(to: &mut [u8], bits: &[u8])
    requires { (length to.old ≡ length bits.now) × (length bits.now % 8 ≡ 0) × T (every (λ b. leb b 1) bits.now) }
    ensures { to.new ≡ binary_digits bits.now }
{
    let n = bits.len();
    for i in 0..n / 8 {
        let at = 8 * i;
        let left = n - at;
        let a = digit(bits, left - 1);
        let b = digit(bits, left - 2);
        let c = digit(bits, left - 3);
        let d = digit(bits, left - 4);
        let e = digit(bits, left - 5);
        let f = digit(bits, left - 6);
        let g = digit(bits, left - 7);
        let h = digit(bits, left - 8);
        to[at] = a;
        to[at + 1] = b;
        to[at + 2] = c;
        to[at + 3] = d;
        to[at + 4] = e;
        to[at + 5] = f;
        to[at + 6] = g;
        to[at + 7] = h;
    }
}

// A constant of any width, that may not fit.
#[inline(never)]
fn any_constant(bits: &[u8], p: Place, out: &mut [u8]) -> Place
    requires { T (every (λ b. leb b 1) bits.now) }
    ensures { page result out.new ≡ written (page p out.old) (literal "#b" ++ binary_digits bits.now) }
{
    p.constant(out, bits)
}

// `#b0101`, one piece where it fits.
// Kept: apart for widths that are multiples of eight up to 64; beyond that the compiler's own loop is as fast.
#[inline(always)]
fn write_constant(bits: &[u8], p: Place, out: &mut [u8]) -> Place
    requires { T (every (λ b. leb b 1) bits.now) }
    ensures { page result out.new ≡ written (page p out.old) (literal "#b" ++ binary_digits bits.now) }
{
    let all = bits.len() + 2;
    if p.at < out.len() && all <= out.len() - p.at {
        if bits.len() % 8 == 0 && bits.len() <= 64 {
            out[p.at] = b'#';
            out[p.at + 1] = b'b';
            write_eights(&mut out[p.at + 2..p.at + all], bits);
            return p.moved(all, all);
        }
    }
    any_constant(bits, p, out)
}

// ---------------------------------------------------------------- texts

// `|name|`, one piece where it fits.
#[inline(always)]
#[tactic(auto, unfolding(lists::specs::Bytes::bytes, echo_spec::specs::Render::quoted))]
fn push_name(name: &[u8], p: Place, out: &mut [u8]) -> Place
    ensures { page result out.new ≡ written (page p out.old) (quoted name.now) }
{
    push_enclosed(b"|", name, b"|", p, out)
}

// `extract(7, 0, `: each numeral before a comma. Compiled into its callers, which know how many there are.
#[inline(always)]
fn open_numbered(kind: u8, numerals: &[u64], p: Place, out: &mut [u8]) -> Place
    ensures { page result out.new ≡ written (page p out.old) (sign_of kind ++ numbered numerals.now) }
{
    let mut q = push_sign(kind, p, out);
    for k in numerals {
        q = q.number(out, *k).word(out, b", ");
    }
    q
}

// `select(store(store(|name|, `, with n stores.
fn open_select(name: &[u8], n: u64, p: Place, out: &mut [u8]) -> Place
    ensures { page result out.new
        ≡ written (page p out.old) (literal "select(" ++ (repeated n (literal "store(") ++ (quoted name.now ++ literal ", "))) }
{
    let opened = p.word(out, b"select(");
    push_enclosed(
        b"|",
        name,
        b"|, ",
        push_repeated(b"store(", n, opened, out),
        out,
    )
}

// `|name|(`, or `|name|` for a call without arguments.
#[tactic(auto, unfolding(lists::specs::Bytes::bytes, crate::specs::Openings::call_opening), using(echo_bytes::specs::Laws::written_then))]
fn open_call(name: &[u8], n: u64, p: Place, out: &mut [u8]) -> Place
    ensures { page result out.new ≡ written (page p out.old) (call_opening n (quoted name.now)) }
{
    let named = push_name(name, p, out);
    if n == 0 {
        return named;
    }
    named.byte(out, b'(')
}

// The sign of an operator, unless it stands between its operands.
#[tactic(auto, unfolding(crate::specs::Openings::plain_opening))]
fn open_plain(kind: u8, p: Place, out: &mut [u8]) -> Place
    ensures { page result out.new ≡ written (page p out.old) (plain_opening kind) }
{
    match Notation::from(kind) {
        Notation::Between(..) => p,
        Notation::Before(_) | Notation::Named => push_sign(kind, p, out),
    }
}

// ---------------------------------------------------------------- nodes

// A variable's name.
#[inline(never)]
fn open_variable(walk: &Walk, p: Place, i: u64, out: &mut [u8]) -> Place
    requires { Taken walk.now i var }
    ensures { page result out.new ≡ written (page p out.old) (quoted (variable_name (dag_in walk.now) i)) }
{
    push_name(walk.variable_name(i), p, out)
}

// A constant.
#[inline(never)]
fn open_constant(walk: &Walk, p: Place, i: u64, out: &mut [u8]) -> Place
    requires { Constant walk.now i }
    ensures { page result out.new ≡ written (page p out.old) (literal "#b" ++ binary_digits (constant_bits (problem_in walk.now).bits (node_within walk.now i))) }
{
    write_constant(walk.constant(i), p, out)
}

// All of a leaf: a variable's name or a constant. Ruled out: a name without its bars; a constant with its lowest bit first.
// Kept: compiled into its callers, which have asked whether it is a leaf.
#[inline(always)]
pub fn open_leaf(walk: &Walk, p: Place, i: u64, out: &mut [u8]) -> Place
    requires { LeafAt walk.now i }
    ensures { page result out.new ≡ written (page p out.old) (opening_of walk.now i) }
{
    match walk.mark(i).shape {
        Shape::Var => open_variable(walk, p, i, out),
        _ => open_constant(walk, p, i, out),
    }
}

// The opening of node i, which is no leaf. Ruled out: a sign before the first operand of `+`; an extraction's numerals
// exchanged.
// Kept: compiled into its callers, one of which knows the shape.
#[inline(always)]
pub fn open_term(walk: &Walk, p: Place, i: u64, out: &mut [u8]) -> Place
    requires { TermAt walk.now i }
    ensures { page result out.new ≡ written (page p out.old) (opening_of walk.now i) }
{
    let n = walk.node(i);
    match walk.mark(i).shape {
        Shape::Rotation(_) => open_numbered(n.kind, &[walk.amount(i)], p, out),
        Shape::Extraction => open_numbered(n.kind, &[n.a, n.b], p, out),
        Shape::Extension(_) => open_numbered(n.kind, &[n.b], p, out),
        Shape::Select => open_select(walk.array_name(n.a), n.d, p, out),
        Shape::Call => open_call(walk.function_name(n.a), n.d, p, out),
        _ => open_plain(n.kind, p, out),
    }
}
