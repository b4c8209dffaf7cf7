// A node as a formula: functions that call each other, the level that is wanted passed down: leaves, operators between their operands and before
// one, named shapes with one operand, stores, arguments, and all others, with a loop over the operands.
//
// A place that came back from a writer is taken apart before it is handed on, and `lim` stands among the arguments, as in the walk.
#![tactic(auto)]

ghost use Rattle.std.specs.Prelude.{◌≡◌, ◌++◌, ◌≤◌, ◌<◌, get_or};
ghost use Rattle.lists.specs.Bytes.{bytes as literal};
ghost use Rattle.echo_bytes.specs.Page.{page, written};
ghost use Rattle.echo_walk.specs.Operands.{OverForm};
ghost use Rattle.echo_walk.specs.Walks.{problem_in, node_within, Fine, Under, TermAt};
ghost use Rattle.echo_pieces.specs.declared.TheConstants.{PREFIX, CLOSED};
ghost use Rattle.echo_pieces.specs.Signs.{sign_of, level_of};
ghost use Rattle.echo_pieces.specs.Pieces.{chain_pieces, arg_pieces, pieces_of, count_of};
ghost use Rattle.echo_pieces.specs.PieceLaws.{no_piece};
ghost use Rattle.echo_openings.specs.Placed.{placed_at};
ghost use Rattle.echo_formula.specs.Texts.{bracket_text, form_at, list_text, operands_text};

use blast_kernel::Shape;
use echo_bytes::Place;
use echo_openings::{open_leaf, open_term};
use echo_pieces::{Notation, PREFIX, Piece, count, level, operand, push_behind, push_between};
use echo_tables::{Form, operands};
use echo_walk::Walk;
use lent::get;

// A bracket where there is to be one.
#[tactic(auto, unfolding(crate::specs::Texts::bracket_text))]
fn push_bracket(there: bool, b: u8, p: Place, out: &mut [u8]) -> Place
    ensures { page result out.new ≡ written (page p out.old) (bracket_text there b) }
{
    if there {
        return p.byte(out, b);
    }
    p
}

// An operator between its operands: its sign between them, and nothing before the first. Its level and its sign are what is told of its kind.
#[cycle(formula)]
#[inline(always)]
fn formula_infix(
    walk: &Walk,
    p: Place,
    i: u64,
    l: u64,
    own: u64,
    sign: &[u8],
    out: &mut [u8],
) -> Place
    requires fine { Fine walk.now i × (level_of (node_within walk.now i).kind < PREFIX) }
    requires own { own ≡ level_of (node_within walk.now i).kind }
    requires sign { sign.now ≡ sign_of (node_within walk.now i).kind }
    ensures { page result out.new ≡ written (page p out.old) (placed_at walk.now l i) }
{
    let n = walk.node(i);
    let a = push_bracket(own < l, b'(', p, out);
    let b = formula_node(
        walk,
        Place {
            at: a.at,
            need: a.need,
        },
        n.a,
        own,
        out,
    );
    let c = push_between(
        sign,
        Place {
            at: b.at,
            need: b.need,
        },
        out,
    );
    let d = formula_node(
        walk,
        Place {
            at: c.at,
            need: c.need,
        },
        n.b,
        own + 1,
        out,
    );
    push_bracket(
        own < l,
        b')',
        Place {
            at: d.at,
            need: d.need,
        },
        out,
    )
}

// The last operand inside parentheses, where any level may stand, and what closes them. lim is what it is below.
#[cycle(formula)]
#[inline(always)]
fn formula_last(walk: &Walk, p: Place, lim: u64, a: u64, out: &mut [u8]) -> Place
    requires { Under walk.now lim a }
    ensures { page result out.new ≡ written (page p out.old) (placed_at walk.now 0 a ++ literal ")") }
{
    let q = formula_node(walk, p, a, 0, out);
    Place {
        at: q.at,
        need: q.need,
    }
    .byte(out, b')')
}

// n stores over the pairs of side entries from place s on, the last pair first, and then the index j; all of these nodes are below lim.
// Kept: two entries by their numbers in each turn; a chain over pairs from the last would take them by number as well.
#[cycle(formula)]
#[inline(always)]
fn formula_chain(walk: &Walk, p: Place, lim: u64, j: u64, s: u64, n: u64, out: &mut [u8]) -> Place
    requires { OverForm (Under walk.now lim) (problem_in walk.now).side (Form.Chain j s n) }
    ensures { page result out.new ≡ written (page p out.old) (list_text walk.now (chain_pieces (problem_in walk.now).side j s n)) }
{
    let side = walk.problem.side;
    let mut q = Place {
        at: p.at,
        need: p.need,
    };
    for left in (0..n).rev() {
        let x = get(side, s + (left + left));
        let v = get(side, s + (left + left + 1));
        let a = formula_node(walk, q, x, 0, out);
        let b = Place {
            at: a.at,
            need: a.need,
        }
        .word(out, b", ");
        let c = formula_node(
            walk,
            Place {
                at: b.at,
                need: b.need,
            },
            v,
            0,
            out,
        );
        let d = Place {
            at: c.at,
            need: c.need,
        }
        .word(out, b"), ");
        q = Place {
            at: d.at,
            need: d.need,
        };
    }
    let a = formula_node(walk, q, j, 0, out);
    Place {
        at: a.at,
        need: a.need,
    }
    .byte(out, b')')
}

// n arguments, the side entries from place s on; all of these nodes are below lim.
// Kept: by their numbers, by which it is known that each is below lim; the last one apart, since another text stands behind it.
#[cycle(formula)]
#[inline(always)]
fn formula_args(walk: &Walk, p: Place, lim: u64, s: u64, n: u64, out: &mut [u8]) -> Place
    requires { OverForm (Under walk.now lim) (problem_in walk.now).side (Form.Arguments s n) }
    ensures { page result out.new ≡ written (page p out.old) (list_text walk.now (arg_pieces (problem_in walk.now).side s n)) }
{
    if n == 0 {
        return p;
    }
    let side = walk.problem.side;
    let last = n - 1;
    let mut q = Place {
        at: p.at,
        need: p.need,
    };
    for k in 0..last {
        let x = get(side, s + k);
        let a = formula_node(walk, q, x, 0, out);
        let b = Place {
            at: a.at,
            need: a.need,
        }
        .word(out, b", ");
        q = Place {
            at: b.at,
            need: b.need,
        };
    }
    let y = get(side, s + last);
    let a = formula_node(walk, q, y, 0, out);
    Place {
        at: a.at,
        need: a.need,
    }
    .byte(out, b')')
}

// Operand k of node i.
// Kept: a function by itself, with a node's record and form that are taken apart for each operand, so that `formula_operands` has a small frame.
#[inline(never)]
fn operand_at(walk: &Walk, i: u64, k: u64) -> Piece
    requires { Fine walk.now i × (k < count_of (form_at walk.now i)) }
    ensures { result ≡ get_or (pieces_of (level_of (node_within walk.now i).kind) (problem_in walk.now).side (form_at walk.now i)) k no_piece }
{
    let n = walk.node(i);
    operand(operands(n), walk.problem.side, n.kind, k)
}

// The operands of node i, which is of this kind and has so many, each with what is behind it.
// Kept: an operand by its number, for any form in one loop; an arm for each form would write an operand and what is behind it six times.
#[cycle(formula)]
#[inline(always)]
fn formula_operands(walk: &Walk, p: Place, i: u64, kind: u8, n: u64, out: &mut [u8]) -> Place
    requires { Fine walk.now i × (n ≡ count_of (form_at walk.now i)) × (kind ≡ (node_within walk.now i).kind) }
    ensures { page result out.new ≡ written (page p out.old) (operands_text walk.now kind (pieces_of (level_of kind) (problem_in walk.now).side (form_at walk.now i))) }
{
    let mut q = Place {
        at: p.at,
        need: p.need,
    };
    for k in 0..n {
        let x = operand_at(walk, i, k);
        let a = formula_node(walk, q, x.node, x.level, out);
        let b = push_behind(
            kind,
            x.behind,
            Place {
                at: a.at,
                need: a.need,
            },
            out,
        );
        q = Place {
            at: b.at,
            need: b.need,
        };
    }
    q
}

// A sign before one operand. The sign is what is told of its kind.
#[cycle(formula)]
#[inline(always)]
fn formula_prefix(walk: &Walk, p: Place, i: u64, l: u64, sign: &[u8], out: &mut [u8]) -> Place
    requires fine { Fine walk.now i × (level_of (node_within walk.now i).kind ≡ PREFIX) }
    requires sign { sign.now ≡ sign_of (node_within walk.now i).kind }
    ensures { page result out.new ≡ written (page p out.old) (placed_at walk.now l i) }
{
    let n = walk.node(i);
    let a = push_bracket(PREFIX < l, b'(', p, out);
    let b = a.word(out, sign);
    let c = formula_node(
        walk,
        Place {
            at: b.at,
            need: b.need,
        },
        n.a,
        PREFIX,
        out,
    );
    push_bracket(
        PREFIX < l,
        b')',
        Place {
            at: c.at,
            need: c.need,
        },
        out,
    )
}

// Any node that is no leaf: its opening, and its operands.
#[cycle(formula)]
#[inline(never)]
fn formula_other(walk: &Walk, p: Place, i: u64, l: u64, out: &mut [u8]) -> Place
    requires { Fine walk.now i × TermAt walk.now i }
    ensures { page result out.new ≡ written (page p out.old) (placed_at walk.now l i) }
{
    let n = walk.node(i);
    let own = level(n.kind);
    let a = push_bracket(own < l, b'(', p, out);
    let b = open_term(walk, a, i, out);
    let c = formula_operands(
        walk,
        Place {
            at: b.at,
            need: b.need,
        },
        i,
        n.kind,
        count(operands(n)),
        out,
    );
    push_bracket(
        own < l,
        b')',
        Place {
            at: c.at,
            need: c.need,
        },
        out,
    )
}

// A node whose shape has a name and is met often: numerals, stores and arguments.
// Kept: by itself, with a form that is not asked for; of any other shape it does what `formula_other` does.
#[cycle(formula)]
#[inline(never)]
fn formula_named(walk: &Walk, p: Place, i: u64, l: u64, out: &mut [u8]) -> Place
    requires { Fine walk.now i × TermAt walk.now i × (l ≤ CLOSED) }
    ensures { page result out.new ≡ written (page p out.old) (placed_at walk.now l i) }
{
    let n = walk.node(i);
    match walk.mark(i).shape {
        Shape::Rotation(_) | Shape::Extension(_) => {
            let b = open_term(walk, p, i, out);
            formula_last(
                walk,
                Place {
                    at: b.at,
                    need: b.need,
                },
                i,
                n.a,
                out,
            )
        }
        Shape::Extraction => {
            let b = open_term(walk, p, i, out);
            formula_last(
                walk,
                Place {
                    at: b.at,
                    need: b.need,
                },
                i,
                n.c,
                out,
            )
        }
        Shape::Select => {
            let b = open_term(walk, p, i, out);
            formula_chain(
                walk,
                Place {
                    at: b.at,
                    need: b.need,
                },
                i,
                n.b,
                n.c,
                n.d,
                out,
            )
        }
        Shape::Call if 0 < n.d => {
            let b = open_term(walk, p, i, out);
            formula_args(
                walk,
                Place {
                    at: b.at,
                    need: b.need,
                },
                i,
                n.c,
                n.d,
                out,
            )
        }
        _ => formula_other(walk, p, i, l, out),
    }
}

// An operator between its operands, one before its operand, or any other node that is no leaf.
#[cycle(formula)]
#[inline(never)]
fn formula_term(walk: &Walk, p: Place, i: u64, l: u64, out: &mut [u8]) -> Place
    requires { Fine walk.now i × TermAt walk.now i }
    ensures { page result out.new ≡ written (page p out.old) (placed_at walk.now l i) }
{
    let n = walk.node(i);
    match Notation::from(n.kind) {
        Notation::Between(own, sign) => formula_infix(walk, p, i, l, own, sign, out),
        Notation::Before(sign) => formula_prefix(walk, p, i, l, sign, out),
        Notation::Named => formula_other(walk, p, i, l, out),
    }
}

// Node i where level l or a tighter one may stand as it is. Ruled out: brackets around what is as tight as wanted; the left operand's level for
// the right one; an operand left out.
// Kept: compiled into its callers, so that a leaf is written without a further level.
#[cycle(formula)]
#[inline(always)]
pub fn formula_node(walk: &Walk, p: Place, i: u64, l: u64, out: &mut [u8]) -> Place
    requires { Fine walk.now i × (l ≤ CLOSED) }
    ensures { page result out.new ≡ written (page p out.old) (placed_at walk.now l i) }
{
    if walk.is_leaf(i) {
        return open_leaf(walk, p, i, out);
    }
    match walk.mark(i).shape {
        Shape::Rotation(_)
        | Shape::Extraction
        | Shape::Extension(_)
        | Shape::Select
        | Shape::Call => formula_named(walk, p, i, l, out),
        _ => formula_term(walk, p, i, l, out),
    }
}
