// Replays the recorded files of scripts end to end, `scripts.bin`, and writes a tally: each file is cut by calling `next_script` until it
// finds no script, and each length is compared with the recorded one. docs/RECORDED.md has the layout. A list that is damaged is told as such.
#![tactic(auto)]

use lent::word32;
use replay::{Answer, Fault, Judged, Replay, Tally, Words, run};
use script_lines::next_script;
use std::io;
use std::io::{Read, Write};
use streams::{read_full, write_line};

// The script, from 0, that was answered otherwise.
fn other(script: usize) -> Judged {
    Err(Fault::Other(Answer {
        number: 0,
        count: script as u64,
    }))
}

// How many scripts there are, where all are as recorded. The lengths are lent as they are recorded: four bytes each, the lowest first.
fn judged(file: &[u8], lengths: &[u8]) -> Judged {
    let count = lengths.len() / 4;
    let mut left = file;
    for (k, length) in lengths.chunks_exact(4).enumerate() {
        match next_script(left) {
            Some(n) if n as u64 == word32(length, 0) && n <= left.len() => left = &left[n..],
            _ => return other(k),
        }
    }
    match next_script(left) {
        None => Ok(count as u64),
        Some(_) => other(count),
    }
}

// The longest file of the list, and the most scripts of one.
const LONGEST: usize = 20480;

const MOST: usize = 1024;

struct Scripts;

impl Replay for Scripts {
    // The recorded lengths, and the bytes of a file; the list is not packed.
    const PACKED: usize = 4 * MOST;

    const PLAIN: usize = LONGEST;

    fn words(&self) -> Words {
        Words {
            path: "scripts.bin",
            title: *b"SCRIPTS1",
            record: "file",
            records: "files",
            accepted: "scripts",
            count: "at script",
            refusals: &[],
        }
    }

    // The lengths and the bytes of a file, all of which have to be there.
    fn next<R: Read>(
        &self,
        list: &mut R,
        lengths: &mut [u8],
        file: &mut [u8],
    ) -> io::Result<Judged> {
        let mut head = [0u8; 8];
        if read_full(list, &mut head)? < 8 {
            return Ok(Err(Fault::Damaged));
        }
        let n = word32(&head, 0) as usize;
        let m = word32(&head, 4) as usize;
        if n > file.len() || m > lengths.len() / 4 {
            return Ok(Err(Fault::Damaged));
        }
        let lengths = &mut lengths[..4 * m];
        let file = &mut file[..n];
        if read_full(list, lengths)? < lengths.len() || read_full(list, file)? < file.len() {
            return Ok(Err(Fault::Damaged));
        }
        Ok(judged(file, lengths))
    }

    fn tell<W: Write>(&self, out: &mut W, i: u64, answer: Answer) -> io::Result<()> {
        write_line(out, b"another answer in file ", i)?;
        write_line(out, b"  at script ", answer.count)
    }

    // The number of a file is how many scripts it has, or 0 where another was answered.
    fn report<W: Write>(&self, out: &mut W, tally: &Tally) -> io::Result<()> {
        let scripts = tally.numbers.iter().fold(
            0u64,
            |sum, (n, files)| sum.wrapping_add(n.wrapping_mul(*files)),
        );
        write_line(out, b"files ", tally.records)?;
        write_line(out, b"scripts ", scripts)?;
        write_line(out, b"differences ", tally.differences)
    }
}

fn main(rt: HostRuntime) -> io::Result<()> {
    run(&rt, &Scripts)
}
