// Reads a problem from standard input, in the layout of docs/FORMATS.md, and writes its script on standard output, or one line that
// says why there is none.
#![tactic(auto)]

use problem_layout::{LONGEST_PROBLEM, LONGEST_SCRIPT, print_problem};
use std::io;
use std::io::{Read, Write};

// One byte more than the longest problem within the limits. These bytes decide: what follows them is left over, or stands behind the first fault
// (`layout-front` in layout_shape's specs/LayoutLaws.antt).
const INPUT: usize = LONGEST_PROBLEM + 1;

// The room for the script; a longer one is refused with `Room`.
const ROOM: usize = LONGEST_SCRIPT;

// Over buffers of any length: the check does not have to count the elements of the two arrays.
// Kept: `read_problem` has the same few lines; one function for both would take the command as a closure, and a contract for it.
fn run<R: Read, W: Write>(
    reader: &mut R,
    writer: &mut W,
    input: &mut [u8],
    out: &mut [u8],
) -> io::Result<()> {
    let n = streams::read_full(reader, input)?;
    let told = print_problem(&input[..n], out);
    let m = told.length;
    writer.write_all(&out[..m])
}

fn with_buffers<R: Read, W: Write>(
    reader: &mut R,
    writer: &mut W,
    input: &mut [u8; INPUT],
    out: &mut [u8; ROOM],
) -> io::Result<()> {
    run(reader, writer, input, out)
}

fn main(rt: HostRuntime) -> io::Result<()> {
    let mut input = [0u8; INPUT];
    let mut out = [0u8; ROOM];
    with_buffers(&mut rt.reader(), &mut io::writer(&rt), &mut input, &mut out)
}
