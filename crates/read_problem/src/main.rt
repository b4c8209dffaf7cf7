// Reads a script from standard input and writes its problem on standard output, in the layout of docs/FORMATS.md, or one line that says why
// there is none.
#![tactic(auto)]

use layout_writer::read_problem;
use problem_layout::{LONGEST_PROBLEM, LONGEST_SCRIPT};
use std::io;
use std::io::{Read, Write};

// One byte more than the longest script that is read, so that a longer one is told as such.
const INPUT: usize = LONGEST_SCRIPT + 1;

// The room for the problem: none within the limits is longer.
const ROOM: usize = LONGEST_PROBLEM;

// Over buffers of any length: the check does not have to count the elements of the two arrays.
// Kept: `print_problem` has the same few lines; one function for both would take the command as a closure, and a contract for it.
fn run<R: Read, W: Write>(
    reader: &mut R,
    writer: &mut W,
    input: &mut [u8],
    out: &mut [u8],
) -> io::Result<()> {
    let n = streams::read_full(reader, input)?;
    let told = read_problem(&input[..n], out);
    let m = told.length;
    writer.write_all(&out[..m])
}

fn with_buffers<R: Read, W: Write>(
    reader: &mut R,
    writer: &mut W,
    input: &mut [u8; INPUT],
    out: &mut [u8; ROOM],
) -> io::Result<()> {
    run(reader, writer, input, out)
}

fn main(rt: HostRuntime) -> io::Result<()> {
    let mut input = [0u8; INPUT];
    let mut out = [0u8; ROOM];
    with_buffers(&mut rt.reader(), &mut io::writer(&rt), &mut input, &mut out)
}
