// The formula of a node in pieces: how each kind is written, its sign and its level, as one table, and for each operand of a node its node,
// the level that is wanted there, and what is written behind it. Under "Ruled out" stand wrong programs that a public function's contract
// refuses.
#![tactic(auto)]

ghost use Rattle.std.specs.Prelude.{◌≡◌, ◌++◌, ◌+◌, ◌^◌, ◌≤◌, ◌<◌, length, get_or, drop};
ghost use Rattle.echo_bytes.specs.Page.{page, written};
ghost use Rattle.echo_tables.specs.Uses.{FormInside};
ghost use Rattle.echo_pieces.specs.declared.TheConstants.{WORD};
ghost use Rattle.echo_pieces.specs.Signs.{sign_of, level_of};
ghost use Rattle.echo_pieces.specs.Notated.{Notated};
ghost use Rattle.echo_pieces.specs.Pieces.{piece, behind_text, one_pieces, two_pieces, choice_pieces, chain_pieces, arg_pieces, pieces_of, count_of};
ghost use Rattle.echo_pieces.specs.PieceLaws.{no_piece};

use echo_bytes::Place;
use echo_lines::symbol;
use echo_tables::Form;
use lent::{at, get};

// ---------------------------------------------------------------- words

// All of w, its first N bytes and its last N, which may be the same in part. Compiled into its callers.
// Kept: both are read before one is stored, so that each is one load and one store.
#[inline(always)]
fn copy_ends<const N: usize>(to: &mut [u8], w: &[u8])
    requires { (length to.old ≡ length w.now) × (N ≤ length w.now) × (length w.now ≤ N + N) }
    ensures { to.new ≡ w.now }
{
    let rest = w.len() - N;
    let mut first = [0u8; N];
    first.copy_from_slice(&w[..N]);
    let mut last = [0u8; N];
    last.copy_from_slice(&w[rest..]);
    to[..N].copy_from_slice(&first);
    to[rest..].copy_from_slice(&last);
}

// The longest word that is stored as one piece: a block of eight bytes twice.
const WORD: usize = 16;

// All of w, a word that is no longer than that.
// Kept: by its length, as two blocks of a known one: most signs and names are a few bytes, and a loop takes twice as many instructions for them.
#[inline(always)]
fn copy_word(to: &mut [u8], w: &[u8])
    requires { (length to.old ≡ length w.now) × (length w.now ≤ WORD) }
    ensures { to.new ≡ w.now }
{
    match w.len() {
        0 => {}
        1 => to[0] = w[0],
        2..=3 => copy_ends::<2>(to, w),
        4..=7 => copy_ends::<4>(to, w),
        _ => copy_ends::<8>(to, w),
    }
}

// Three words, any of which may be long or may not fit.
#[cold]
#[inline(never)]
fn push_apart(a: &[u8], w: &[u8], b: &[u8], p: Place, out: &mut [u8]) -> Place
    ensures { page result out.new ≡ written (page p out.old) (a.now ++ (w.now ++ b.now)) }
{
    p.word(out, a).word(out, w).word(out, b)
}

// A word between two others, one piece where it is short and fits. Compiled into its callers, which know the other two: their bounds keep the sum of
// the three below 2^64. Ruled out: the last word left out; the three counted as far as they were written.
#[inline(always)]
pub fn push_enclosed(a: &[u8], w: &[u8], b: &[u8], p: Place, out: &mut [u8]) -> Place
    requires { (length a.now ≤ WORD) × (length b.now ≤ WORD) }
    ensures { page result out.new ≡ written (page p out.old) (a.now ++ (w.now ++ b.now)) }
{
    let first = a.len();
    let last = first + w.len();
    let all = last + b.len();
    if p.at < out.len() && all <= out.len() - p.at {
        if w.len() <= WORD {
            // Kept: by blocks; copy_from_slice needs memmove of the C library.
            copy_word(&mut out[p.at..p.at + first], a);
            copy_word(&mut out[p.at + first..p.at + last], w);
            copy_word(&mut out[p.at + last..p.at + all], b);
            return p.moved(all, all);
        }
    }
    push_apart(a, w, b, p, out)
}

// ---------------------------------------------------------------- signs

// How a kind is written.
#[derive(Clone, Copy, Debug, PartialEq, Eq)]
pub enum Notation {
    // a sign between two operands, on a level; the loosest is 0
    Between(u64, &'static [u8]),
    // a sign before one operand
    Before(&'static [u8]),
    // SMT-LIB's name, before parentheses
    Named,
}

// For each kind from 0 to 36.
// Kept: a table by the number of a kind, as the symbols are (`echo_lines`).
static NOTATIONS: [Notation; 37] = [
    Notation::Named, // a variable
    Notation::Named, // a constant
    Notation::Between(8, b" + "),
    Notation::Between(8, b" - "),
    Notation::Between(9, b" * "),
    Notation::Between(9, b" / "),
    Notation::Between(9, b" % "),
    Notation::Between(4, b" band "),
    Notation::Between(2, b" bor "),
    Notation::Between(3, b" bxor "),
    Notation::Between(7, b" << "),
    Notation::Between(7, b" >> "),
    Notation::Named, // bvashr
    Notation::Named, // rotate_right
    Notation::Named, // extract
    Notation::Named, // concat
    Notation::Named, // zero_extend
    Notation::Named, // sign_extend
    Notation::Named, // ite
    Notation::Between(5, b" == "),
    Notation::Between(5, b" != "),
    Notation::Between(6, b" < "),
    Notation::Between(6, b" <= "),
    Notation::Between(6, b" > "),
    Notation::Between(6, b" >= "),
    Notation::Named, // bvslt
    Notation::Named, // bvsle
    Notation::Named, // bvsgt
    Notation::Named, // bvsge
    Notation::Before(b"!"),
    Notation::Between(1, b" and "),
    Notation::Between(0, b" or "),
    Notation::Before(b"~"),
    Notation::Before(b"-"),
    Notation::Named, // rotate_left
    Notation::Named, // bvsdiv
    Notation::Named, // bvsrem
];

// How a kind is written; one past the last has no name. Ruled out: the notation of another kind; the arithmetic shift as `>>`.
impl From<u8> for Notation {
    ghost from_gives = { Notated };

    fn from(kind: u8) -> Notation {
        at(&NOTATIONS, kind as u64, Notation::Named)
    }
}

// The levels above those of a sign between operands, which are 0 to 9: that of a sign before one operand, and of what is closed in itself.
pub const PREFIX: u64 = 10;

pub const CLOSED: u64 = 11;

// The level of a kind. Ruled out: two levels exchanged; 0 for a select.
pub fn level(kind: u8) -> u64
    ensures { result ≡ level_of kind }
{
    match Notation::from(kind) {
        Notation::Between(l, _) => l,
        Notation::Before(_) => PREFIX,
        Notation::Named => CLOSED,
    }
}

// A sign between operands, of three to six bytes, as two blocks of three where it fits. Compiled into its callers. Ruled out: the last byte left
// out; a sign that does not fit counted as far as it was written.
#[inline(always)]
pub fn push_between(sign: &[u8], p: Place, out: &mut [u8]) -> Place
    ensures { page result out.new ≡ written (page p out.old) sign.now }
{
    let n = sign.len();
    if 3 <= n && n <= 6 && p.at < out.len() && n <= out.len() - p.at {
        copy_ends::<3>(&mut out[p.at..p.at + n], sign);
        return p.moved(n, n);
    }
    push_apart(b"", sign, b"", p, out)
}

// The sign of a kind; of one that has a name, that and its parenthesis. Ruled out: the sign of another kind; a name without its parenthesis.
pub fn push_sign(kind: u8, p: Place, out: &mut [u8]) -> Place
    ensures { page result out.new ≡ written (page p out.old) (sign_of kind) }
{
    match Notation::from(kind) {
        Notation::Between(_, s) => p.word(out, s),
        Notation::Before(s) => p.word(out, s),
        Notation::Named => push_enclosed(b"", symbol(kind), b"(", p, out),
    }
}

// ---------------------------------------------------------------- operands

// What is written behind an operand.
#[derive(Clone, Copy, Debug, PartialEq, Eq)]
pub enum Behind {
    Nothing,
    // the operator's sign
    Sign,
    Comma,
    Close,
    CloseComma,
}

// An operand: its node, the level that may stand there without brackets, and what is written behind it.
#[derive(Clone, Copy, Debug, PartialEq, Eq)]
pub struct Piece {
    pub node: u64,
    pub level: u64,
    pub behind: Behind,
}

impl Piece {
    fn new(node: u64, level: u64, behind: Behind) -> Piece
        ensures { result ≡ piece node level behind }
    {
        Piece {
            node,
            level,
            behind,
        }
    }
}

fn one_piece(kind: u8, a: u64) -> Piece
    ensures { result ≡ get_or (one_pieces (level_of kind) a) 0 no_piece }
{
    match Notation::from(kind) {
        Notation::Before(_) => Piece::new(a, PREFIX, Behind::Nothing),
        Notation::Between(..) | Notation::Named => Piece::new(a, 0, Behind::Close),
    }
}

fn two_piece(kind: u8, a: u64, b: u64, k: u64) -> Piece
    requires { k < 2 }
    ensures { result ≡ get_or (two_pieces (level_of kind) a b) k no_piece }
{
    match Notation::from(kind) {
        Notation::Between(l, _) => match k {
            0 => Piece::new(a, l, Behind::Sign),
            _ => Piece::new(b, l + 1, Behind::Nothing),
        },
        Notation::Before(_) | Notation::Named => match k {
            0 => Piece::new(a, 0, Behind::Comma),
            _ => Piece::new(b, 0, Behind::Close),
        },
    }
}

#[tactic(auto, unfolding(crate::specs::Pieces::choice_pieces))]
fn choice_piece(a: u64, b: u64, c: u64, k: u64) -> Piece
    requires { k < 3 }
    ensures { result ≡ get_or (choice_pieces a b c) k no_piece }
{
    match k {
        0 => Piece::new(a, 0, Behind::Comma),
        1 => Piece::new(b, 0, Behind::Comma),
        _ => Piece::new(c, 0, Behind::Close),
    }
}

// Of n stores over the pairs of side entries from place s on, the last first, and then the index.
fn chain_piece(side: &[u64], j: u64, s: u64, n: u64, k: u64) -> Piece
    requires { (k < n + n + 1) × (n + n ≤ length (drop s side.now)) }
    ensures { result ≡ get_or (chain_pieces side.now j s n) k no_piece }
{
    let m = n + n;
    if k == m {
        return Piece::new(j, 0, Behind::Close);
    }
    if k % 2 == 0 {
        return Piece::new(get(side, s + (m - 2 - k)), 0, Behind::Comma);
    }
    Piece::new(get(side, s + (m - k)), 0, Behind::CloseComma)
}

fn arg_piece(side: &[u64], s: u64, n: u64, k: u64) -> Piece
    requires { (k < n) × (s + n ≤ length side.now) }
    ensures { result ≡ get_or (arg_pieces side.now s n) k no_piece }
{
    let node = get(side, s + k);
    if k + 1 == n {
        return Piece::new(node, 0, Behind::Close);
    }
    Piece::new(node, 0, Behind::Comma)
}

// How many operands a form has. Ruled out: a chain's pairs counted once; a chain without its index.
#[tactic(auto, unfolding(crate::specs::Pieces::count_of))]
pub fn count(f: Form) -> u64
    requires { count_of f < 2 ^ 64 }
    ensures { result ≡ count_of f }
{
    match f {
        Form::Leaf => 0,
        Form::One(_, _) => 1,
        Form::Two(_, _, _) => 2,
        Form::Choice(_, _, _) => 3,
        Form::Chain(_, _, n) => n + n + 1,
        Form::Arguments(_, n) => n,
    }
}

// Operand k of a form of a node of this kind.
// Kept: stores and arguments too, which `echo_formula` writes by loops of their own: without them this would ask for another form.
// Ruled out: the operator's own level for the right operand; a chain's first pair first.
#[tactic(auto, unfolding(crate::specs::Pieces::pieces_of, crate::specs::Pieces::count_of))]
pub fn operand(f: Form, side: &[u64], kind: u8, k: u64) -> Piece
    requires { (k < count_of f) × FormInside side.now f }
    ensures { result ≡ get_or (pieces_of (level_of kind) side.now f) k no_piece }
{
    match f {
        Form::Leaf => Piece::new(0, 0, Behind::Nothing),
        Form::One(a, _) => one_piece(kind, a),
        Form::Two(a, b, _) => two_piece(kind, a, b, k),
        Form::Choice(a, b, c) => choice_piece(a, b, c, k),
        Form::Chain(j, s, n) => chain_piece(side, j, s, n, k),
        Form::Arguments(s, n) => arg_piece(side, s, n, k),
    }
}

// What is written behind an operand of a kind. Ruled out: a comma without its blank; a bracket that is not closed.
#[tactic(auto, unfolding(crate::specs::Pieces::behind_text, lists::specs::Bytes::bytes))]
pub fn push_behind(kind: u8, behind: Behind, p: Place, out: &mut [u8]) -> Place
    ensures { page result out.new ≡ written (page p out.old) (behind_text (sign_of kind) behind) }
{
    match behind {
        Behind::Nothing => p,
        Behind::Sign => push_sign(kind, p, out),
        Behind::Comma => p.word(out, b", "),
        Behind::Close => p.byte(out, b')'),
        Behind::CloseComma => p.word(out, b"), "),
    }
}
