// A script read back and its problem written in bytes: all that the program `read_problem` does, but for input and output. The layout is
// that of layout_bytes/specs/Encoding.antt and docs/FORMATS.md.
#![tactic(auto)]

ghost use Rattle.std.specs.Prelude.{◌≡◌, length};
ghost use Rattle.readback.specs.ScriptReader.{reading_in};
ghost use Rattle.lent.specs.Lent.{problem_at};
ghost use Rattle.script_fill.specs.Outputs.{problem_in};
ghost use Rattle.echo_bytes.specs.Page.{page, written};
ghost use Rattle.layout_bytes.specs.Encoding.{bytes_of_layout};
ghost use Rattle.script_rebuild.specs.Decided.{lengths_of};
ghost use Rattle.layout_writer.specs.Outputs.{Lies, first_of, rooms};
ghost use Rattle.layout_writer.specs.Telling.{rebuilt, script, line_of, Always, Answers, Tells};
ghost use Rattle.layout_writer.specs.declared.Unwritten.TheVariants.{Refused};

use echo_bytes::Place;
use layout_bytes::{put_nodes, put_table};
use lent::Problem;
use problem_layout::{LONGEST_SCRIPT, Line, Told, tell};
use refusals::{MAX_ARENA, MAX_BITS, MAX_ENTRIES, MAX_NODE_BYTES, MAX_ROOTS, MAX_SIDE};
use script_depth::too_deep;
use script_reader::{Outputs, ReadError, Sizes, read_script};

// ---------------------------------------------------------------- the inputs

// The layout of a problem.
fn put_problem(problem: &Problem, p: Place, out: &mut [u8]) -> Place
    ensures { page result out.new ≡ written (page p out.old) (bytes_of_layout (problem_at problem.now)) }
{
    let q = put_nodes(
        problem.nodes,
        problem.bits,
        problem.side,
        problem.roots,
        p,
        out,
    );
    let variables = [
        problem.name_start,
        problem.name_len,
        problem.var_node,
        problem.var_width,
    ];
    let s = put_table(problem.names, &variables, q, out);
    let arrays = [
        problem.aname_start,
        problem.aname_len,
        problem.index_width,
        problem.value_width,
    ];
    let t = put_table(problem.anames, &arrays, s, out);
    let functions = [problem.fname_start, problem.fname_len, problem.func_width];
    put_table(problem.fnames, &functions, t, out)
}

// The problem that lies at the front of the outputs, as many elements of each as are told.
fn first<'a>(outputs: &'a Outputs, z: &Sizes) -> Problem<'a>
    requires { Lies z.now (problem_in outputs.now) }
    ensures { problem_at result ≡ first_of z.now (problem_in outputs.now) }
{
    Problem {
        nodes: &outputs.nodes[..z.nodes],
        bits: &outputs.bits[..z.bits],
        side: &outputs.side[..z.side],
        roots: &outputs.roots[..z.roots],
        names: &outputs.names[..z.names],
        name_start: &outputs.name_start[..z.variables],
        name_len: &outputs.name_len[..z.variables],
        var_node: &outputs.var_node[..z.variables],
        var_width: &outputs.var_width[..z.variables],
        anames: &outputs.anames[..z.anames],
        aname_start: &outputs.aname_start[..z.arrays],
        aname_len: &outputs.aname_len[..z.arrays],
        index_width: &outputs.index_width[..z.arrays],
        value_width: &outputs.value_width[..z.arrays],
        fnames: &outputs.fnames[..z.fnames],
        fname_start: &outputs.fname_start[..z.functions],
        fname_len: &outputs.fname_len[..z.functions],
        func_width: &outputs.func_width[..z.functions],
    }
}

// ---------------------------------------------------------------- reading

// Why there is no problem.
#[derive(Clone, Copy, Debug, PartialEq, Eq)]
pub enum Unwritten {
    // The bytes are no problem's script; or the problem is over a limit, or has a number that its record cannot hold; or it is longer than
    // the buffer.
    Refused(ReadError),
    // The script has more bytes than are read.
    TooLarge,
    // The script is nested more deeply than any problem's within the limits.
    TooDeep,
}

impl From<ReadError> for Unwritten {
    ghost from_gives = { λ e u. u ≡ Refused e };

    fn from(e: ReadError) -> Unwritten {
        Unwritten::Refused(e)
    }
}

// The script is read into outputs that have room for every problem within the limits, and written from these.
fn read_into(script: &[u8], outputs: &mut Outputs, out: &mut [u8]) -> Result<usize, Unwritten>
    requires { lengths_of (problem_in outputs.old) ≡ rooms }
    ensures { Answers (rebuilt (reading_in script.now)) out.old result out.new }
{
    let sizes = read_script(script, outputs)?;
    let problem = first(outputs, &sizes);
    let n = put_problem(&problem, echo_bytes::start(), out).need;
    if n > out.len() {
        return Err(Unwritten::Refused(ReadError::Room));
    }
    Ok(n)
}

// Kept: eighteen arrays, since the libraries have no heap.
fn read_back(script: &[u8], out: &mut [u8]) -> Result<usize, Unwritten>
    ensures { Answers (rebuilt (reading_in script.now)) out.old result out.new }
{
    let mut outputs = Outputs {
        nodes: &mut [0; MAX_NODE_BYTES],
        bits: &mut [0; MAX_BITS],
        side: &mut [0; MAX_SIDE],
        roots: &mut [0; MAX_ROOTS],
        names: &mut [0; MAX_ARENA],
        name_start: &mut [0; MAX_ENTRIES],
        name_len: &mut [0; MAX_ENTRIES],
        var_node: &mut [0; MAX_ENTRIES],
        var_width: &mut [0; MAX_ENTRIES],
        anames: &mut [0; MAX_ARENA],
        aname_start: &mut [0; MAX_ENTRIES],
        aname_len: &mut [0; MAX_ENTRIES],
        index_width: &mut [0; MAX_ENTRIES],
        value_width: &mut [0; MAX_ENTRIES],
        fnames: &mut [0; MAX_ARENA],
        fname_start: &mut [0; MAX_ENTRIES],
        fname_len: &mut [0; MAX_ENTRIES],
        func_width: &mut [0; MAX_ENTRIES],
    };
    read_into(script, &mut outputs, out)
}

// ---------------------------------------------------------------- what is not read

fn answer(input: &[u8], out: &mut [u8]) -> Result<usize, Unwritten>
    ensures { Answers (script input.now) out.old result out.new }
{
    if input.len() > LONGEST_SCRIPT {
        return Err(Unwritten::TooLarge);
    }
    if too_deep(input) {
        return Err(Unwritten::TooDeep);
    }
    read_back(input, out)
}

// ---------------------------------------------------------------- lines

// Kept: whole texts, as the definitions have them, with the numbers and limits in them; a text in pieces would be put by three calls in each arm.
fn refused_text(e: ReadError) -> &'static [u8]
    ensures { result.now ≡ line_of (Refused e) }
{
    match e {
        ReadError::NoScript => b"refused: 13 NoScript: the bytes are no problem's script\n",
        ReadError::Limit => {
            b"refused: 9 Limit: an input is over its limit, or a number is too large for its record\n"
        }
        ReadError::Room => {
            b"refused: 10 Room: nothing is wrong with the script, but its problem is longer than the buffer for it\n"
        }
    }
}

fn text_of(e: Unwritten) -> &'static [u8]
    ensures { result.now ≡ line_of e }
{
    match e {
        Unwritten::Refused(e) => refused_text(e),
        Unwritten::TooLarge => {
            b"input: too large: the script has more bytes than its limit, 2097152\n"
        }
        Unwritten::TooDeep => {
            b"input: too deep: the script has more brackets open at once than its limit, 6146\n"
        }
    }
}

impl Line for Unwritten {
    ghost text = { line_of };

    ghost known = { Always };

    fn line(self, p: Place, out: &mut [u8]) -> Place {
        p.word(out, text_of(self))
    }
}

// THE COMMAND. Any bytes may come in, and any buffer: the problem or the line goes to its front. A problem that does not fit is refused with
// `Room`, and a line that does not fit is cut. Ruled out beside its edits: a count of bytes where one of numbers belongs; the columns of two
// tables exchanged.
pub fn read_problem(input: &[u8], out: &mut [u8]) -> Told<Unwritten>
    ensures { Tells input.now out.old result out.new }
{
    tell(answer(input, out), out)
}
