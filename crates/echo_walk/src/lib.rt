// The walk: a node as a term, written at a place in the lent buffer (ordeal's "THE WALK").
//
// Six writers call each other: `echo_node`, `echo_operand`, `echo_one`, `echo_two`, `echo_levels`, `echo_args`. A node's operands have lower
// numbers, and in a list the entries left grow fewer, so the walk ends. What a term is refused with stands in its mark, made before the
// walk: a writer is called for a node that is not refused, and cannot fail. The text before a node's operands, its head, is written by a
// function outside the cycle.
//
// The problem and the tables that were filled are one thing, which the writers share. One walk serves every script: a node's mark says
// whether it is written as a term, or as the name that a `let` gave it.
#![tactic(auto)]

ghost use Rattle.std.specs.Prelude.{◌≡◌};
ghost use Rattle.echo_bytes.specs.Page.{page, written};
ghost use Rattle.echo_walk.specs.Texts.{named};
ghost use Rattle.echo_walk.specs.Ready.{Ready};

use blast_kernel::Shape;
use echo_bytes::Place;
use echo_lines::{open_call, open_indexed, open_select, spaced_plain};
use echo_names::name_at;
use echo_sharing::stretch;
use echo_tables::{Form, Mark, looked_up, mark_of, operands, rot_amount};
use lent::{Node, Problem, get, node_at};

// ---------------------------------------------------------------- names

// The name of node i: `|d2|` for node 2. Ruled out: the number without the letter; a name without its bars.
pub fn push_named(p: Place, i: u64, out: &mut [u8]) -> Place
    ensures { page result out.new ≡ written (page p out.old) (named i) }
{
    p.byte(out, b'|')
        .byte(out, b'd')
        .number(out, i)
        .byte(out, b'|')
}

// ---------------------------------------------------------------- the problem and its tables

// The problem, each node's width, the entry of a variable's node, and each node's mark.
#[derive(Clone, Copy)]
pub struct Walk<'a> {
    pub problem: &'a Problem<'a>,
    pub widths: &'a [u64],
    pub entries: &'a [Option<usize>],
    pub marks: &'a [Mark],
    ghost ready: { Ready problem.now widths.now entries.now marks.now },
}

impl<'a> Walk<'a> {
    ghost use Rattle.std.specs.Prelude.{◌≡◌, [], ◌∷◌, ◌++◌, ◌+◌, ◌<◌, T, leb, length, get_or};
    ghost use Rattle.lists.specs.Bytes.{bytes as literal};
    ghost use Rattle.lists.specs.Tests.{every};
    ghost use Rattle.echo_spec.specs.Shapes.{var, rotation, extraction, extension, select, call, is_leaf};
    ghost use Rattle.echo_spec.specs.Input.{nodes_of, aname_table, fname_table};
    ghost use Rattle.echo_spec.specs.Trees.{constant_bits, amount_of, variable_name};
    ghost use Rattle.echo_spec.specs.Render.{symbol_of, binary_digits};
    ghost use Rattle.lent.specs.Records.{node_of};
    ghost use Rattle.blast_kernel.specs.Kinds.{shape_in};
    ghost use Rattle.echo_bytes.specs.Page.{page, written};
    ghost use Rattle.echo_walk.specs.Operands.{Entries};
    ghost use Rattle.echo_walk.specs.Texts.{head_of, one_text, two_text, levels_text, args_text};
    ghost use Rattle.echo_walk.specs.Walks.{problem_in, dag_in, widths_in, mark_in, node_within, style_at, text_at, head_found_at, Fine, Under, Taken, Constant, LeafAt, TermAt};

    // The mark of node i. Ruled out: that of the node after it; a blank one for all.
    pub fn mark(&self, i: u64) -> Mark
        ensures { result ≡ mark_in self.now i }
    {
        mark_of(self.marks, i)
    }

    // Record i of the nodes. Ruled out: the record after it; its operands in another order.
    pub fn node(&self, i: u64) -> Node
        requires { i < length (nodes_of (problem_in self.now).nodes) }
        ensures { node_of result ≡ node_within self.now i }
    {
        node_at(self.problem.nodes, i as usize)
    }

    // Is it a variable or a constant. Ruled out: a node that is named taken for a leaf; variables alone.
    pub fn is_leaf(&self, i: u64) -> bool
        ensures { result ≡ is_leaf (shape_in (mark_in self.now i).shape) }
    {
        self.mark(i).shape.is_leaf()
    }

    // ------------------------------------------------------------ parts of what is lent

    // The name of node i, a variable: that of its entry. Ruled out: the name of the entry after it; no name.
    pub fn variable_name(&self, i: u64) -> &'a [u8]
        requires { Taken self.now i var }
        ensures { result.now ≡ variable_name (dag_in self.now) i }
    {
        let problem = self.problem;
        let k = looked_up(self.entries, i).unwrap();
        name_at(
            problem.names,
            problem.name_start,
            problem.name_len,
            k as u64,
        )
    }

    // The name of array a. Ruled out: the name of the array after it; the rest of the arena.
    #[tactic(auto, unfolding(echo_spec::specs::Input::dag_of))]
    pub fn array_name(&self, a: u64) -> &'a [u8]
        requires { a < length (problem_in self.now).aname_start }
        ensures { result.now ≡ get_or (aname_table (dag_in self.now)) a [] }
    {
        let problem = self.problem;
        name_at(problem.anames, problem.aname_start, problem.aname_len, a)
    }

    // The name of function f. Ruled out: the name of an array; that of the function after it.
    #[tactic(auto, unfolding(echo_spec::specs::Input::dag_of))]
    pub fn function_name(&self, f: u64) -> &'a [u8]
        requires { f < length (problem_in self.now).fname_start }
        ensures { result.now ≡ get_or (fname_table (dag_in self.now)) f [] }
    {
        let problem = self.problem;
        name_at(problem.fnames, problem.fname_start, problem.fname_len, f)
    }

    // The bits of node i, a constant. Ruled out: one bit more; the bits of the constant before it.
    pub fn constant(&self, i: u64) -> &'a [u8]
        requires { Constant self.now i }
        ensures part { result.now ≡ constant_bits (problem_in self.now).bits (node_within self.now i) }
        ensures binary { T (every (λ b. leb b 1) result.now) }
    {
        let n = self.node(i);
        let bits = self.problem.bits;
        let from = n.a as usize;
        let to = from + n.b as usize;
        &bits[from..to]
    }

    // By how much node i rotates: the number of its constant, modulo the width. Ruled out: the number as it is; that of another rotation.
    pub fn amount(&self, i: u64) -> u64
        requires { Taken self.now i rotation }
        ensures { result ≡ amount_of (dag_in self.now) (widths_in self.now) (problem_in self.now).bits i (node_within self.now i) }
    {
        let by = self.node(i).b;
        rot_amount(self.constant(by), get(self.widths, i))
    }

    // ------------------------------------------------------------ heads

    // The heads of the shapes that need more than the record. Those of variables, constants and operators without numerals, which most nodes
    // are, come with the blank before them, as one piece where it fits.
    fn head_var(&self, p: Place, i: u64, out: &mut [u8]) -> Place
        requires { Taken self.now i var }
        ensures { page result out.new ≡ written (page p out.old) (32 ∷ head_found_at self.now i var) }
    {
        p.led(out, b' ', b'|', self.variable_name(i))
            .byte(out, b'|')
    }

    fn head_const(&self, p: Place, i: u64, out: &mut [u8]) -> Place
        requires { Constant self.now i }
        ensures { page result out.new ≡ written (page p out.old) (literal " #b" ++ binary_digits (constant_bits (problem_in self.now).bits (node_within self.now i))) }
    {
        p.spaced_constant(out, self.constant(i))
    }

    fn head_rotation(&self, p: Place, i: u64, out: &mut [u8]) -> Place
        requires { Taken self.now i rotation }
        ensures { page result out.new ≡ written (page p out.old) (head_found_at self.now i rotation) }
    {
        let kind = self.node(i).kind;
        open_indexed(kind, &[self.amount(i)], p, out)
    }

    fn head_extraction(&self, p: Place, i: u64, out: &mut [u8]) -> Place
        requires { i < length (nodes_of (problem_in self.now).nodes) }
        ensures { page result out.new ≡ written (page p out.old) (head_found_at self.now i extraction) }
    {
        let n = self.node(i);
        open_indexed(n.kind, &[n.a, n.b], p, out)
    }

    fn head_extension(&self, p: Place, i: u64, out: &mut [u8]) -> Place
        requires { i < length (nodes_of (problem_in self.now).nodes) }
        ensures { page result out.new ≡ written (page p out.old) (head_found_at self.now i extension) }
    {
        let n = self.node(i);
        open_indexed(n.kind, &[n.b], p, out)
    }

    fn head_select(&self, p: Place, i: u64, out: &mut [u8]) -> Place
        requires { Taken self.now i select }
        ensures { page result out.new ≡ written (page p out.old) (head_found_at self.now i select) }
    {
        let n = self.node(i);
        open_select(self.array_name(n.a), n.d, p, out)
    }

    fn head_call(&self, p: Place, i: u64, out: &mut [u8]) -> Place
        requires { Taken self.now i call }
        ensures { page result out.new ≡ written (page p out.old) (head_found_at self.now i call) }
    {
        let n = self.node(i);
        open_call(self.function_name(n.a), n.d, p, out)
    }

    #[inline(always)]
    fn head_plain(&self, p: Place, i: u64, out: &mut [u8]) -> Place
        requires { i < length (nodes_of (problem_in self.now).nodes) }
        ensures { page result out.new ≡ written (page p out.old) (literal " (" ++ symbol_of (node_within self.now i).kind) }
    {
        let n = self.node(i);
        spaced_plain(n.kind, p, out)
    }

    // A blank, and the head of node i by itself, which is no leaf: all its text before its operands.
    // Kept: a function for each head, though it has one caller. This one is compiled into the walk, and only the head that most nodes have goes
    // with it.
    #[inline(always)]
    fn own_head(&self, p: Place, i: u64, out: &mut [u8]) -> Place
        requires { TermAt self.now i }
        ensures { page result out.new ≡ written (page p out.old) (32 ∷ head_of (dag_in self.now) (widths_in self.now) (problem_in self.now).bits i) }
    {
        match self.mark(i).shape {
            Shape::Rotation(_) => self.head_rotation(p.byte(out, b' '), i, out),
            Shape::Extraction => self.head_extraction(p.byte(out, b' '), i, out),
            Shape::Extension(_) => self.head_extension(p.byte(out, b' '), i, out),
            Shape::Select => self.head_select(p.byte(out, b' '), i, out),
            Shape::Call => self.head_call(p.byte(out, b' '), i, out),
            _ => self.head_plain(p, i, out),
        }
    }

    // A blank, and the text of a leaf: a variable's name or a constant. Ruled out: a leaf without the blank; the name of another variable.
    pub fn echo_leaf(&self, p: Place, i: u64, out: &mut [u8]) -> Place
        requires { LeafAt self.now i }
        ensures { page result out.new ≡ written (page p out.old) (32 ∷ head_of (dag_in self.now) (widths_in self.now) (problem_in self.now).bits i) }
    {
        match self.mark(i).shape {
            Shape::Var => self.head_var(p, i, out),
            _ => self.head_const(p, i, out),
        }
    }

    // A blank, and the head of node i: all its text before its operands, or its name. Ruled out: a head without the blank; the term's head
    // where the node has a name. (Compiled into its callers, as `own_head`, `head_plain` and
    // `operands_at` are: the walk is slower where it calls them.)
    #[inline(always)]
    pub fn open_head(&self, p: Place, i: u64, out: &mut [u8]) -> Place
        requires { Fine self.now i }
        ensures { page result out.new ≡ written (page p out.old) (32 ∷ (style_at self.now).head i) }
    {
        let mark = self.mark(i);
        if mark.shape.is_leaf() {
            return self.echo_leaf(p, i, out);
        }
        if mark.named {
            return push_named(p.byte(out, b' '), i, out);
        }
        self.own_head(p, i, out)
    }

    // ------------------------------------------------------------ operands

    // The operands that follow the head of node i. Ruled out: those of a node that has a name; the operands of the node after it.
    #[inline(always)]
    pub fn operands_at(&self, i: u64) -> Form
        requires { i < length (widths_in self.now) }
        ensures { result ≡ (style_at self.now).form i }
    {
        let mark = self.mark(i);
        if mark.named {
            return Form::Leaf;
        }
        operands(self.node(i))
    }

    // ------------------------------------------------------------ the writers that call each other
    //
    // A place that came back from a writer is taken apart before it is handed on: a struct that is copied whole waits for its two parts to
    // reach the memory.
    // Kept: written out each time. Trees take a fifth longer with places handed on whole (docs/PERFORMANCE.md); a function that is compiled into
    // its callers and makes the place anew was not measured.
    // Kept: `lim`, which no body reads but to hand it on, is what the operands are below. It would be a `ghost` clause, and in a cycle of calls
    // a function with one gets no generated proof.

    // A blank, and node i as a term. Ruled out: operands that change places; a call without its arguments; operands behind the name of a node.
    #[cycle(walk)]
    pub fn echo_node(&self, p: Place, i: u64, out: &mut [u8]) -> Place
        requires { Fine self.now i }
        ensures { page result out.new ≡ written (page p out.old) (32 ∷ text_at self.now i) }
    {
        let q = self.open_head(
            Place {
                at: p.at,
                need: p.need,
            },
            i,
            out,
        );
        let f = self.operands_at(i);
        match f {
            Form::Leaf => Place {
                at: q.at,
                need: q.need,
            },
            Form::One(a, _) => self.echo_one(
                Place {
                    at: q.at,
                    need: q.need,
                },
                i,
                a,
                out,
            ),
            Form::Two(a, b, _) => self.echo_two(
                Place {
                    at: q.at,
                    need: q.need,
                },
                i,
                a,
                b,
                out,
            ),
            Form::Choice(a, b, c) => {
                let r = self.echo_operand(
                    Place {
                        at: q.at,
                        need: q.need,
                    },
                    a,
                    out,
                );
                self.echo_two(
                    Place {
                        at: r.at,
                        need: r.need,
                    },
                    i,
                    b,
                    c,
                    out,
                )
            }
            Form::Chain(j, s, n) => {
                let r = self.echo_levels(
                    Place {
                        at: q.at,
                        need: q.need,
                    },
                    i,
                    s,
                    n,
                    out,
                );
                self.echo_one(
                    Place {
                        at: r.at,
                        need: r.need,
                    },
                    i,
                    j,
                    out,
                )
            }
            Form::Arguments(s, n) => self.echo_args(
                Place {
                    at: q.at,
                    need: q.need,
                },
                i,
                s,
                n,
                out,
            ),
        }
    }

    // The same for an operand: a leaf is written without a further level.
    #[cycle(walk)]
    fn echo_operand(&self, p: Place, x: u64, out: &mut [u8]) -> Place
        requires { Fine self.now x }
        ensures { page result out.new ≡ written (page p out.old) (32 ∷ text_at self.now x) }
    {
        if self.is_leaf(x) {
            return self.echo_leaf(p, x, out);
        }
        self.echo_node(p, x, out)
    }

    // ` A)`: the last operand of a term, and its closing bracket.
    #[cycle(walk)]
    fn echo_one(&self, p: Place, lim: u64, a: u64, out: &mut [u8]) -> Place
        requires { Under self.now lim a }
        ensures { page result out.new ≡ written (page p out.old) (one_text (text_at self.now) a) }
    {
        let q = self.echo_operand(
            Place {
                at: p.at,
                need: p.need,
            },
            a,
            out,
        );
        let r = Place {
            at: q.at,
            need: q.need,
        };
        r.byte(out, b')')
    }

    // ` A B)`: the last two operands of a term, and its closing bracket.
    #[cycle(walk)]
    fn echo_two(&self, p: Place, lim: u64, a: u64, b: u64, out: &mut [u8]) -> Place
        requires { Under self.now lim a × Under self.now lim b }
        ensures { page result out.new ≡ written (page p out.old) (two_text (text_at self.now) a b) }
    {
        let q = self.echo_operand(
            Place {
                at: p.at,
                need: p.need,
            },
            a,
            out,
        );
        self.echo_one(
            Place {
                at: q.at,
                need: q.need,
            },
            lim,
            b,
            out,
        )
    }

    // The closings of n stores, the last first: ` I V)` for each.
    // Kept: two entries by their numbers in each turn; a chain over pairs from the last would take them by number as well.
    #[cycle(walk)]
    fn echo_levels(&self, p: Place, lim: u64, s: u64, n: u64, out: &mut [u8]) -> Place
        requires { Entries (Under self.now lim) (problem_in self.now).side s (n + n) }
        ensures { page result out.new ≡ written (page p out.old) (levels_text (text_at self.now) (problem_in self.now).side s n) }
    {
        let side = self.problem.side;
        let mut q = Place {
            at: p.at,
            need: p.need,
        };
        for left in (0..n).rev() {
            let x = get(side, s + (left + left));
            let v = get(side, s + (left + left + 1));
            let r = self.echo_two(q, lim, x, v, out);
            q = Place {
                at: r.at,
                need: r.need,
            };
        }
        q
    }

    // n arguments, each after a blank, and the closing bracket.
    #[cycle(walk)]
    fn echo_args(&self, p: Place, lim: u64, s: u64, n: u64, out: &mut [u8]) -> Place
        requires { Entries (Under self.now lim) (problem_in self.now).side s n }
        ensures { page result out.new ≡ written (page p out.old) (args_text (text_at self.now) (problem_in self.now).side s n) }
    {
        let mut q = Place {
            at: p.at,
            need: p.need,
        };
        for x in stretch(self.problem.side, s, n) {
            let r = self.echo_operand(q, *x, out);
            q = Place {
                at: r.at,
                need: r.need,
            };
        }
        q.byte(out, b')')
    }
}
