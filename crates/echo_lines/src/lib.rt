// The heads of terms, all text before their operands, and the lines of the script.
//
// Each function takes a place and the lent buffer, writes one text of `Render` there, and hands the place back. Names come as the part of
// their arena. Under "Ruled out" stand wrong programs that a function's contract refuses.
#![tactic(auto, unfolding(lists::specs::Bytes::bytes))]

ghost use Rattle.std.specs.Prelude.{◌≡◌, ◌<◌, map, ◌++◌, length};
ghost use Rattle.lists.specs.Bytes.{bytes};
ghost use Rattle.echo_spec.specs.Render.{symbol_of, quoted, operator_text, decimal, sort_text, sorts_text, variable_text, array_text, function_text};
ghost use Rattle.echo_spec.specs.Widths.{width_at};
ghost use Rattle.echo_bytes.specs.Page.{page, written};
ghost use Rattle.echo_lines.specs.Heads.{repeated, call_head};
ghost use Rattle.echo_lines.specs.Lines.{logic_name, logic_for};

use echo_bytes::Place;
use lent::{at, get};

// ---------------------------------------------------------------- symbols

// The symbol of each kind from 0 to 36 (`push_sym`). A variable and a constant have none.
// Kept: a table by the number of a kind; with literals by a match on the kind, trees took 0.66 of the Rust's time (docs/PERFORMANCE.md).
static SYMBOLS: [&[u8]; 37] = [
    b"",
    b"",
    b"bvadd",
    b"bvsub",
    b"bvmul",
    b"bvudiv",
    b"bvurem",
    b"bvand",
    b"bvor",
    b"bvxor",
    b"bvshl",
    b"bvlshr",
    b"bvashr",
    b"rotate_right",
    b"extract",
    b"concat",
    b"zero_extend",
    b"sign_extend",
    b"ite",
    b"=",
    b"distinct",
    b"bvult",
    b"bvule",
    b"bvugt",
    b"bvuge",
    b"bvslt",
    b"bvsle",
    b"bvsgt",
    b"bvsge",
    b"not",
    b"and",
    b"or",
    b"bvnot",
    b"bvneg",
    b"rotate_left",
    b"bvsdiv",
    b"bvsrem",
];

// The symbol of a kind; one past the last has none. Ruled out: the symbol of another kind; a symbol with a letter wrong.
pub fn symbol(kind: u8) -> &'static [u8]
    ensures { result.now ≡ symbol_of kind }
{
    at(&SYMBOLS, u64::from(kind), b"")
}

// ---------------------------------------------------------------- heads of terms

// ` (bvadd`, with the blank before the term, as one piece where it fits. Ruled out: the bracket before the blank; the symbol of another kind.
pub fn spaced_plain(kind: u8, p: Place, out: &mut [u8]) -> Place
    ensures { page result out.new ≡ written (page p out.old) (bytes " (" ++ symbol_of kind) }
{
    p.led(out, b' ', b'(', symbol(kind))
}

// `((_ extract j k)`, the symbol with its numerals. Compiled into its callers, which know how many there are. Ruled out: an operator that is
// not closed; a numeral next to the symbol; a head with one parenthesis, `(_ extract j k)`.
#[inline(always)]
pub fn open_indexed(kind: u8, numerals: &[u64], p: Place, out: &mut [u8]) -> Place
    requires { 0 < length numerals.now }
    ensures { page result out.new ≡ written (page p out.old) (bytes "(" ++ operator_text (symbol_of kind) numerals.now) }
{
    let mut q = p.word(out, b"((_ ").word(out, symbol(kind));
    for k in numerals {
        q = q.byte(out, b' ').number(out, *k);
    }
    q.byte(out, b')')
}

// n times the same word. Compiled into its callers, which know its length. Ruled out: one too few; the words parted by a blank.
#[inline(always)]
pub fn push_repeated(word: &[u8], n: u64, p: Place, out: &mut [u8]) -> Place
    ensures { page result out.new ≡ written (page p out.old) (repeated n word.now) }
{
    let mut q = p;
    for _word in 0..n {
        q = q.word(out, word);
    }
    q
}

// `(select (store (store |name|`, with n stores. Ruled out: the stores before `(select `; a name without its bars.
pub fn open_select(name: &[u8], n: u64, p: Place, out: &mut [u8]) -> Place
    ensures { page result out.new
        ≡ written (page p out.old) (bytes "(select " ++ (repeated n (bytes "(store ") ++ quoted name.now)) }
{
    let opened = p.word(out, b"(select ");
    push_repeated(b"(store ", n, opened, out).name(out, name)
}

// `(|name|`, or `|name|` for a call without arguments. Ruled out: a parenthesis for a call without arguments; none for a call with one.
pub fn open_call(name: &[u8], n: u64, p: Place, out: &mut [u8]) -> Place
    ensures { page result out.new ≡ written (page p out.old) (call_head n (quoted name.now)) }
{
    if n == 0 {
        return p.name(out, name);
    }
    p.byte(out, b'(').name(out, name)
}

// ---------------------------------------------------------------- declarations

// `(_ BitVec w)`. Ruled out: a sort that is not closed; `Bool` for width 1.
pub fn push_sort(w: u64, p: Place, out: &mut [u8]) -> Place
    ensures { page result out.new ≡ written (page p out.old) (sort_text w) }
{
    p.word(out, b"(_ BitVec ").number(out, w).byte(out, b')')
}

// The end of a line that has one parenthesis open. Ruled out: a line that is not ended; an end of two bytes, as `\r\n`.
pub fn close_line(p: Place, out: &mut [u8]) -> Place
    ensures { page result out.new ≡ written (page p out.old) (bytes ")\n") }
{
    p.word(out, b")\n")
}

// One line of `decl_vars`. Ruled out: a name without its bars; a line without its end.
pub fn decl_var(name: &[u8], w: u64, p: Place, out: &mut [u8]) -> Place
    ensures { page result out.new ≡ written (page p out.old) (variable_text (record { name = name.entry.now; width = w })) }
{
    let named = p.word(out, b"(declare-const ").name(out, name);
    let sorted = push_sort(w, named.byte(out, b' '), out);
    close_line(sorted, out)
}

// One line of `decl_arrays`, with the widths that the Rust has in the line's text. Ruled out: the two widths exchanged; a line with one parenthesis
// left open.
pub fn decl_array(name: &[u8], index: u64, value: u64, p: Place, out: &mut [u8]) -> Place
    ensures { page result out.new
        ≡ written (page p out.old) (array_text (record { name = name.entry.now; index = index; value = value })) }
{
    let named = p.word(out, b"(declare-const ").name(out, name);
    let indexed = push_sort(index, named.word(out, b" (Array "), out);
    push_sort(value, indexed.byte(out, b' '), out).word(out, b"))\n")
}

// The sorts of a call's arguments, a blank between them. The caller has tested that none has width 0, which the Rust does here.
// Ruled out: no blank between two sorts; a blank before the first.
pub fn push_arg_sorts(ws: &[u64], arguments: &[u64], p: Place, out: &mut [u8]) -> Place
    ensures { page result out.new ≡ written (page p out.old) (sorts_text (map (width_at ws.now) arguments.now)) }
{
    let [first, others @ ..] = arguments else {
        return p;
    };
    let mut q = push_sort(get(ws, *first), p, out);
    for x in others {
        q = push_sort(get(ws, *x), q.byte(out, b' '), out);
    }
    q
}

// The line of `decl_func`, by the arguments of a first call. Ruled out: the result's sort among the arguments'; no parentheses for a function
// without arguments.
pub fn decl_func(
    name: &[u8],
    ws: &[u64],
    arguments: &[u64],
    w: u64,
    p: Place,
    out: &mut [u8],
) -> Place
    ensures { page result out.new
        ≡ written (page p out.old)
        (function_text (record { name = name.entry.now; arguments = map (width_at ws.now) arguments.now; width = w })) }
{
    let named = p.word(out, b"(declare-fun ").name(out, name);
    let sorted = push_arg_sorts(ws, arguments, named.word(out, b" ("), out);
    let valued = push_sort(w, sorted.word(out, b") "), out);
    close_line(valued, out)
}

// ---------------------------------------------------------------- the other lines

// The logic's name.
fn logic_name(narrays: usize, nfuncs: usize) -> &'static [u8]
    ensures { result.now ≡ logic_name narrays nfuncs }
{
    if nfuncs > 0 {
        b"QF_AUFBV"
    } else if narrays > 0 {
        b"QF_ABV"
    } else {
        b"QF_BV"
    }
}

// The first line. Ruled out: a logic without functions for declarations that have one; the logic of arrays where there are none.
pub fn push_logic(narrays: usize, nfuncs: usize, p: Place, out: &mut [u8]) -> Place
    ensures { page result out.new ≡ written (page p out.old) (logic_for narrays nfuncs) }
{
    let named = p
        .word(out, b"(set-logic ")
        .word(out, logic_name(narrays, nfuncs));
    close_line(named, out)
}

// The start of a root's line, which `close_line` ends; the term brings the blank before it. Ruled out: a line without its parenthesis; two
// blanks before the term.
pub fn open_assert(p: Place, out: &mut [u8]) -> Place
    ensures { page result out.new ≡ written (page p out.old) (bytes "(assert") }
{
    p.word(out, b"(assert")
}

// The last line. Ruled out: a script without its check; a last line that is not ended.
pub fn check_sat(p: Place, out: &mut [u8]) -> Place
    ensures { page result out.new ≡ written (page p out.old) (bytes "(check-sat)\n") }
{
    p.word(out, b"(check-sat)\n")
}
