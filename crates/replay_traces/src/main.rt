// Replays the recorded traces, `traces.bin`, and writes a tally: docs/RECORDED.md has the layout. A list that is damaged is told as such.
#![tactic(auto)]

use input_parts::word64;
use lent::{Problem, word32};
use replay::{
    Answer, Fault, Judged, Replay, Words, agree, compared, header, next_packed, part, rest_of, run,
};
use std::io;
use std::io::Read;
use trace_answers::TraceAnswer;

// ---------------------------------------------------------------- the parts of a problem

// The header: how many bytes or numbers each input has, the five of bytes first and then the thirteen of numbers, how many values there are,
// how many numbers are lent for masks and for counts, and the number and the rows that are to be answered.
const NUMBERS: usize = 23;

const HEADER: usize = 4 * NUMBERS;

const BYTES: usize = 5;

const VALUES: usize = 18;

const MASKS: usize = 19;

const COUNTS: usize = 20;

const NUMBER: usize = 21;

const ROWS: usize = 22;

// An unpacked problem: its bytes, and every number in them.
// Kept: the functions below take the bytes alone, since they tell where the numbers stand before there is a `Traced`.
#[derive(Clone, Copy)]
struct Traced<'a> {
    bytes: &'a [u8],
    numbers: &'a [u64],
}

impl<'a> Traced<'a> {
    // Input k, of bytes.
    fn text(&self, k: usize) -> &'a [u8] {
        part(
            self.bytes,
            start_of(self.bytes, k),
            header::<NUMBERS>(self.bytes, k),
        )
    }

    // Input k, of numbers, or the values.
    fn column(&self, k: usize) -> &'a [u64] {
        part(
            self.numbers,
            between(self.bytes, BYTES, k),
            header::<NUMBERS>(self.bytes, k),
        )
    }

    // The inputs, in the order in which they are lent.
    fn problem(&self) -> Problem<'a> {
        Problem {
            nodes: self.text(0),
            bits: self.text(1),
            side: self.column(5),
            roots: self.column(6),
            names: self.text(2),
            name_start: self.column(7),
            name_len: self.column(8),
            var_node: self.column(9),
            var_width: self.column(10),
            anames: self.text(3),
            aname_start: self.column(11),
            aname_len: self.column(12),
            index_width: self.column(13),
            value_width: self.column(14),
            fnames: self.text(4),
            fname_start: self.column(15),
            fname_len: self.column(16),
            func_width: self.column(17),
        }
    }

    // n numbers of the result as they stand in the bytes, from one of all numbers on.
    fn wanted(&self, at: usize, n: usize) -> &'a [u8] {
        let start = start_of(self.bytes, BYTES).saturating_add(at.saturating_mul(8));
        part(self.bytes, start, n.saturating_mul(8))
    }
}

// How many bytes or numbers the inputs have from one to another, the last left out.
fn between(s: &[u8], from: usize, to: usize) -> usize {
    (from..to).fold(0usize, |n, k| n.saturating_add(header::<NUMBERS>(s, k)))
}

// Where input k begins, of bytes; behind the last of these stand the numbers.
fn start_of(s: &[u8], k: usize) -> usize {
    HEADER.saturating_add(between(s, 0, k))
}

// As many of the numbers as there is room for.
fn fill(bytes: &[u8], column: &mut [u64]) {
    for (x, number) in column.iter_mut().zip(bytes.chunks_exact(8)) {
        *x = word64(number, 0);
    }
}

// ---------------------------------------------------------------- the answer

// What the lent numbers hold before the call: no mask of the list is this number, nor a count.
const FILL: u64 = 0xAAAA_AAAA_AAAA_AAAA;

// The room for all numbers of a problem, and for either output: the list has no more.
const ALL: usize = 16384;

const OUTPUT: usize = 512;

// With so many numbers lent for masks and for counts: the answer beside the recorded one.
fn replayed(p: &Traced, masks: &mut [u64], counts: &mut [u64]) -> Judged {
    let told = TraceAnswer::from(replay_trace::replay_trace(
        &p.problem(),
        p.column(VALUES),
        masks,
        counts,
    ));
    let answer = Answer {
        number: told.number,
        count: told.rows,
    };
    let rows = header::<NUMBERS>(p.bytes, ROWS);
    let recorded = Answer {
        number: header::<NUMBERS>(p.bytes, NUMBER) as u64,
        count: rows as u64,
    };
    let at = between(p.bytes, BYTES, MASKS);
    let rest = rest_of(recorded.number, FILL);
    let agreed = agree(masks, p.wanted(at, rows), rest)
        && agree(counts, p.wanted(at.saturating_add(rows), rows), rest);
    compared(answer, recorded, agreed)
}

// An unpacked problem, of which all has to be there, and room for what is lent.
fn judged(s: &[u8]) -> Judged {
    // Kept: arrays, whose sizes the list makes known: filled anew for each problem, without asking for memory.
    let mut numbers = [0u64; ALL];
    let mut masks = [FILL; OUTPUT];
    let mut counts = [FILL; OUTPUT];
    let at = start_of(s, BYTES);
    let rows = header::<NUMBERS>(s, ROWS);
    let n = between(s, BYTES, MASKS).saturating_add(rows.saturating_mul(2));
    let size = n.saturating_mul(8);
    let m = header::<NUMBERS>(s, MASKS);
    let c = header::<NUMBERS>(s, COUNTS);
    if n > ALL || at.saturating_add(size) != s.len() || m > OUTPUT || c > OUTPUT {
        return Err(Fault::Damaged);
    }
    fill(part(s, at, size), &mut numbers);
    let p = Traced {
        bytes: s,
        numbers: &numbers,
    };
    replayed(&p, &mut masks[..m], &mut counts[..c])
}

// ---------------------------------------------------------------- the list

// Kept: numbers, as the list has them and the tally writes them.
static REFUSALS: [u64; 13] = [1, 2, 3, 4, 5, 6, 7, 8, 9, 10, 12, 14, 15];

struct Traces;

impl Replay for Traces {
    const PACKED: usize = 40960;

    const PLAIN: usize = 81920;

    fn words(&self) -> Words {
        Words {
            path: "traces.bin",
            title: *b"TRACES 1",
            record: "problem",
            records: "problems",
            accepted: "accepted",
            count: "rows",
            refusals: &REFUSALS,
        }
    }

    fn next<R: Read>(
        &self,
        file: &mut R,
        packed: &mut [u8],
        plain: &mut [u8],
    ) -> io::Result<Judged> {
        let record = next_packed(file, packed, plain)?;
        Ok(record.ok_or(Fault::Damaged).and_then(judged))
    }
}

fn main(rt: HostRuntime) -> io::Result<()> {
    run(&rt, &Traces)
}
