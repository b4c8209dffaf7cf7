// A problem in bytes, read and printed: all that the program `print_problem` does, but for input and output. The layout is that of
// layout_shape/specs/Layout.antt and docs/FORMATS.md.
#![tactic(auto)]

ghost use Rattle.std.specs.Prelude.{◌≡◌, ℕ, List, ◌≤◌, ◌<◌, length};
ghost use Rattle.echo_bytes.specs.Page.{page, written};
ghost use Rattle.problem_layout.specs.Lines.{refused_line, input_text, early_line, too_large_line, left_over_line};
ghost use Rattle.problem_layout.specs.Telling.{Answers, InInput, Known, Shown, Tells, line_of};
ghost use Rattle.problem_layout.specs.declared.Unprinted.TheVariants.{Refused, Input};

use echo_bytes::Place;
use input_parts::INPUTS;
use layout_shape::{ShapeFault, limit, name, read_shape};
use refusals::{EchoError, MAX_ARENA, MAX_BITS, MAX_ENTRIES, MAX_NODE_BYTES, MAX_ROOTS, MAX_SIDE};

// ---------------------------------------------------------------- how long they are

// The longest problem within the limits, in bytes: a count for each input, and the elements of five inputs of bytes and thirteen of numbers.
pub const LONGEST_PROBLEM: usize = 8 * INPUTS
    + MAX_NODE_BYTES
    + MAX_BITS
    + 3 * MAX_ARENA
    + 8 * (MAX_SIDE + MAX_ROOTS + 11 * MAX_ENTRIES);

// The longest script that `print_problem` writes and `read_problem` reads.
pub const LONGEST_SCRIPT: usize = 2097152;

// ---------------------------------------------------------------- what is said

// What is told on a line where nothing else is written: what its line is, and what has to be known of it for that.
// Kept: bytes put at a place of a lent buffer, which is cut at its end; `Display` would write through a formatter, of whose buffer no clause here could speak.
pub trait Line: Copy {
    ghost text: { Self → List ℕ };

    ghost known: { Self → Type 0 };

    fn line(self, p: Place, out: &mut [u8]) -> Place
        requires { known self }
        ensures { page result out.new ≡ written (page p out.old) (text self) };
}

// What became of the input, the length of what is written or why there is none, and how many bytes at the front of the buffer show it.
#[derive(Clone, Copy, Debug, PartialEq, Eq)]
pub struct Told<E> {
    pub said: Result<usize, E>,
    pub length: usize,
}

// What is said, and where nothing is written its line, at the front of the buffer, or as much of it as the buffer holds. Ruled out: the
// length of the whole line, where it is cut; the line told behind what was there.
pub fn tell<E: Line>(said: Result<usize, E>, out: &mut [u8]) -> Told<E>
    requires { Known E.known said (length out.old) }
    ensures said { result.said ≡ said }
    ensures shown { Shown E.text said out.old result.length out.new }
{
    // Kept: made again in each arm; one `Told` behind the match was tried: the check of borrows joins no branches of which one alone moves out of `said`.
    match said {
        Ok(n) => Told {
            said: Ok(n),
            length: n,
        },
        Err(e) => {
            let q = e.line(echo_bytes::start(), out);
            Told {
                said: Err(e),
                length: q.at,
            }
        }
    }
}

// Why there is no script: the printer refuses the problem, or the bytes are none.
#[derive(Clone, Copy, Debug, PartialEq, Eq)]
pub enum Unprinted {
    Refused(EchoError),
    Input(ShapeFault),
}

impl From<EchoError> for Unprinted {
    ghost from_gives = { λ e u. u ≡ Refused e };

    fn from(e: EchoError) -> Unprinted {
        Unprinted::Refused(e)
    }
}

impl From<ShapeFault> for Unprinted {
    ghost from_gives = { λ e u. u ≡ Input e };

    fn from(e: ShapeFault) -> Unprinted {
        Unprinted::Input(e)
    }
}

// The length of the script, which is written. Bytes that are no problem leave the buffer as it was.
fn answer(input: &[u8], out: &mut [u8]) -> Result<usize, Unprinted>
    ensures { Answers input.now out.old result out.new }
{
    let parts = read_shape(input)?;
    let n = input_parts::print_parts(&parts, out)?;
    Ok(n)
}

// ---------------------------------------------------------------- lines

// The line of a refusal.
// Kept: whole texts, as the definitions have them, with the numbers and limits in them; a text in pieces would be put by three calls in each arm.
#[tactic(auto, unfolding(lists::specs::Bytes::bytes, crate::specs::Lines::refused_line))]
fn refused_text(e: EchoError) -> &'static [u8]
    ensures { result.now ≡ refused_line e }
{
    match e {
        EchoError::Malformed =>
            b"refused: 1 Malformed: a node is not well formed, the columns of a table differ in length, or a root, array or function is not there\n",
        EchoError::Name =>
            b"refused: 2 Name: a name is empty or outside its arena, reserved, given twice, starts with @ or ., or has a byte that no quoted symbol has\n",
        EchoError::Sort =>
            b"refused: 3 Sort: a Bool stands where a bit-vector is wanted, or a bit-vector where a Bool is\n",
        EchoError::Var =>
            b"refused: 4 Var: a variable has no table entry of its width, or an entry has width 0\n",
        EchoError::Rotate =>
            b"refused: 5 Rotate: a rotation is by what is not a constant, or is wider than 65536\n",
        EchoError::Shared => b"refused: 6 Shared: an operator node is used more than once\n",
        EchoError::Signature =>
            b"refused: 7 Signature: a function has width 0, is never called, or is called in another way than by its first call\n",
        EchoError::Encoding =>
            b"refused: 8 Encoding: the node bytes are no whole records, a kind is unknown, an unused operand is not 0, or a bit is not 0 or 1\n",
        EchoError::Limit => b"refused: 9 Limit: an input is over its limit\n",
        EchoError::Room =>
            b"refused: 10 Room: nothing is wrong with the problem, but its script is longer than the buffer for it\n",
        EchoError::Clash =>
            b"refused: 11 Clash: a declared name is d and the number of an operator node that is used more than once\n",
        EchoError::ArrayWidth =>
            b"refused: 12 ArrayWidth: a width in the array table is 0 or over 65536\n",
        EchoError::ShortRecord =>
            b"refused: 16 ShortRecord: the shorter records end inside a record, or a kind is unknown\n",
    }
}

// An input by its number, from 1, and its name.
fn input_text(k: usize, p: Place, out: &mut [u8]) -> Place
    requires { k < INPUTS }
    ensures { page result out.new ≡ written (page p out.old) (input_text k) }
{
    p.word(out, b"input ")
        .number(out, (k + 1) as u64)
        .word(out, b", ")
        .word(out, name(k))
}

fn early_line(k: usize, p: Place, out: &mut [u8]) -> Place
    requires { k < INPUTS }
    ensures { page result out.new ≡ written (page p out.old) (early_line k) }
{
    let opened = p.word(out, b"input: ends early in ");
    input_text(k, opened, out).word(out, b"\n")
}

fn too_large_line(k: usize, p: Place, out: &mut [u8]) -> Place
    requires { k < INPUTS }
    ensures { page result out.new ≡ written (page p out.old) (too_large_line k) }
{
    let opened = p.word(out, b"input: too large: ");
    input_text(k, opened, out)
        .word(out, b", has more elements than its limit, ")
        .number(out, limit(k))
        .word(out, b"\n")
}

#[tactic(auto, unfolding(lists::specs::Bytes::bytes, crate::specs::Lines::left_over_line))]
fn left_over_line(p: Place, out: &mut [u8]) -> Place
    ensures { page result out.new ≡ written (page p out.old) left_over_line }
{
    p.word(
        out,
        b"input: bytes are left over after input 18, func_width\n",
    )
}

impl Line for Unprinted {
    ghost text = { line_of };

    ghost known = { InInput };

    fn line(self, p: Place, out: &mut [u8]) -> Place {
        match self {
            Unprinted::Refused(e) => p.word(out, refused_text(e)),
            Unprinted::Input(ShapeFault::Early(k)) => early_line(k, p, out),
            Unprinted::Input(ShapeFault::TooLarge(k)) => too_large_line(k, p, out),
            Unprinted::Input(ShapeFault::LeftOver) => left_over_line(p, out),
        }
    }
}

// THE COMMAND. Any bytes may come in, and any buffer: the script or the line goes to its front. A script that does not fit is refused
// with `Room`, and a line that does not fit is cut. Ruled out beside its edits: a number's bytes in another order; a count of numbers taken
// for one of bytes.
pub fn print_problem(input: &[u8], out: &mut [u8]) -> Told<Unprinted>
    ensures { Tells input.now out.old result out.new }
{
    tell(answer(input, out), out)
}
