// Replays the recorded scripts, `reads.bin`, and writes a tally: each script is read back, and the number, the sizes and every element of the
// eighteen outputs are compared with the recorded ones. docs/RECORDED.md has the layout. A list that is damaged is told as such.
#![tactic(auto)]

ghost use Rattle.std.specs.Prelude.{◌<◌, ◌≤◌};

use input_parts::{Elements, INPUTS, Input, TABLE};
use lent::word32;
use read_answers::ReadAnswer;
use replay::{
    Answer, Element, Fault, Judged, Replay, Words, agree, compared, header, next_packed, part,
    rest_of, run,
};
use script_reader::Outputs;
use std::alloc::{AllocError, Global};
use std::io;
use std::io::Read;

// ---------------------------------------------------------------- the parts of a problem

// The header: the length of the script, how many elements of each output are lent, and the number and the ten sizes that are to be answered.
const NUMBERS: usize = 30;

const HEADER: usize = 4 * NUMBERS;

const LENT: usize = 1;

const NUMBER: usize = 19;

const SIZES: usize = 20;

// Where in the header the size of an output stands, after the first of them: the columns of a table have one. The outputs are in the order of the
// printer's inputs.
static SIZE: [usize; INPUTS] = [0, 1, 2, 3, 4, 5, 5, 5, 5, 6, 7, 7, 7, 7, 8, 9, 9, 9];

// How many elements of output k are the result's.
// Kept: the bytes are one argument of each function here; a struct of the bytes alone would be no shorter.
fn used_of(s: &[u8], k: usize) -> usize
    requires { k < INPUTS }
    ensures { result ≤ 1000000 }
{
    header::<NUMBERS>(s, SIZES.saturating_add(SIZE[k]))
}

// Where the result of output k begins; after the last it is where the problem ends.
fn start_of(s: &[u8], k: usize) -> usize
    requires { k ≤ INPUTS }
{
    let mut at = HEADER.saturating_add(header::<NUMBERS>(s, 0));
    for i in 0..k {
        at = at.saturating_add(input_parts::span(i, used_of(s, i)));
    }
    at
}

fn script<'a>(s: &'a [u8]) -> &'a [u8] {
    part(s, HEADER, header::<NUMBERS>(s, 0))
}

// The result of output k.
fn wanted<'a>(s: &'a [u8], k: usize) -> &'a [u8]
    requires { k < INPUTS }
{
    part(s, start_of(s, k), input_parts::span(k, used_of(s, k)))
}

// ---------------------------------------------------------------- the answer

// What the lent elements hold before the call. A record can have any byte, so that each script is read with the one and with the other: a byte
// that was never written differs once. No number of the list is either of these.
const FILL: u8 = 127;

const OTHER: u8 = 85;

const FILL_NUMBER: u64 = 0xAAAA_AAAA_AAAA_AAAA;

// The sizes of what is read. A refusal tells none, and what is recorded beside one is not looked at.
fn sizes_agree(s: &[u8], told: &ReadAnswer) -> bool {
    let sizes = [
        told.nodes,
        told.bits,
        told.side,
        told.roots,
        told.names,
        told.variables,
        told.anames,
        told.arrays,
        told.fnames,
        told.functions,
    ];
    told.number != 0
        || sizes.iter().enumerate().all(|(k, n)| header::<NUMBERS>(
            s,
            SIZES.saturating_add(k),
        ) as u64
            == *n)
}

// Output k, which was filled before: the result and then what was there, or zeros after a refusal.
fn agrees<T: Element>(s: &[u8], k: usize, output: &[T], fill: T) -> bool
    requires { k < INPUTS }
{
    let rest = rest_of(header::<NUMBERS>(s, NUMBER) as u64, fill);
    agree(output, wanted(s, k), rest)
}

// Is no more lent of an output than somewhat more than its limit.
fn fits(s: &[u8]) -> bool {
    TABLE.iter().enumerate().all(|(k, Input(_, limit, elements))| {
        let more = match elements {
            Elements::Bytes => 16,
            Elements::Numbers => 8,
        };
        header::<NUMBERS>(s, LENT.saturating_add(k)) <= limit.saturating_add(more)
    })
}

// As many elements as are lent of output k.
fn lend<T: Copy>(alloc: Global, s: &[u8], k: usize, fill: T) -> Result<Vec<T>, AllocError> {
    vec![in alloc; fill; header::<NUMBERS>(s, LENT.saturating_add(k))]
}

// Reads the script, with as much of each output as is lent.
fn judged(alloc: Global, s: &[u8], fill: u8) -> io::Result<Judged> {
    let mut nodes = lend(alloc, s, 0, fill)?;
    let mut bits = lend(alloc, s, 1, fill)?;
    let mut side = lend(alloc, s, 2, FILL_NUMBER)?;
    let mut roots = lend(alloc, s, 3, FILL_NUMBER)?;
    let mut names = lend(alloc, s, 4, fill)?;
    let mut name_start = lend(alloc, s, 5, FILL_NUMBER)?;
    let mut name_len = lend(alloc, s, 6, FILL_NUMBER)?;
    let mut var_node = lend(alloc, s, 7, FILL_NUMBER)?;
    let mut var_width = lend(alloc, s, 8, FILL_NUMBER)?;
    let mut anames = lend(alloc, s, 9, fill)?;
    let mut aname_start = lend(alloc, s, 10, FILL_NUMBER)?;
    let mut aname_len = lend(alloc, s, 11, FILL_NUMBER)?;
    let mut index_width = lend(alloc, s, 12, FILL_NUMBER)?;
    let mut value_width = lend(alloc, s, 13, FILL_NUMBER)?;
    let mut fnames = lend(alloc, s, 14, fill)?;
    let mut fname_start = lend(alloc, s, 15, FILL_NUMBER)?;
    let mut fname_len = lend(alloc, s, 16, FILL_NUMBER)?;
    let mut func_width = lend(alloc, s, 17, FILL_NUMBER)?;
    let mut outputs = Outputs {
        nodes: &mut nodes,
        bits: &mut bits,
        side: &mut side,
        roots: &mut roots,
        names: &mut names,
        name_start: &mut name_start,
        name_len: &mut name_len,
        var_node: &mut var_node,
        var_width: &mut var_width,
        anames: &mut anames,
        aname_start: &mut aname_start,
        aname_len: &mut aname_len,
        index_width: &mut index_width,
        value_width: &mut value_width,
        fnames: &mut fnames,
        fname_start: &mut fname_start,
        fname_len: &mut fname_len,
        func_width: &mut func_width,
    };
    let told = ReadAnswer::from(script_reader::read_script(script(s), &mut outputs));
    let agreed = sizes_agree(s, &told)
        && agrees(s, 0, outputs.nodes, fill)
        && agrees(s, 1, outputs.bits, fill)
        && agrees(s, 2, outputs.side, FILL_NUMBER)
        && agrees(s, 3, outputs.roots, FILL_NUMBER)
        && agrees(s, 4, outputs.names, fill)
        && agrees(s, 5, outputs.name_start, FILL_NUMBER)
        && agrees(s, 6, outputs.name_len, FILL_NUMBER)
        && agrees(s, 7, outputs.var_node, FILL_NUMBER)
        && agrees(s, 8, outputs.var_width, FILL_NUMBER)
        && agrees(s, 9, outputs.anames, fill)
        && agrees(s, 10, outputs.aname_start, FILL_NUMBER)
        && agrees(s, 11, outputs.aname_len, FILL_NUMBER)
        && agrees(s, 12, outputs.index_width, FILL_NUMBER)
        && agrees(s, 13, outputs.value_width, FILL_NUMBER)
        && agrees(s, 14, outputs.fnames, fill)
        && agrees(s, 15, outputs.fname_start, FILL_NUMBER)
        && agrees(s, 16, outputs.fname_len, FILL_NUMBER)
        && agrees(s, 17, outputs.func_width, FILL_NUMBER);
    // The sizes are among what agrees.
    let answer = Answer {
        number: told.number,
        count: told.nodes,
    };
    let recorded = Answer {
        number: header::<NUMBERS>(s, NUMBER) as u64,
        count: answer.count,
    };
    Ok(compared(answer, recorded, agreed))
}

// An unpacked problem, of which all has to be there.
fn opened(alloc: Global, s: &[u8]) -> io::Result<Judged> {
    if start_of(s, INPUTS) != s.len() || !fits(s) {
        return Ok(Err(Fault::Damaged));
    }
    match judged(alloc, s, FILL)? {
        Ok(_) => judged(alloc, s, OTHER),
        Err(fault) => Ok(Err(fault)),
    }
}

// ---------------------------------------------------------------- the list

// Kept: numbers, as the list has them and the tally writes them.
static REFUSALS: [u64; 3] = [9, 10, 13];

// The outputs are lent from this allocator.
#[derive(Clone, Copy)]
struct Reads {
    alloc: Global,
}

impl Replay for Reads {
    const PACKED: usize = 40960;

    const PLAIN: usize = 264192;

    fn words(&self) -> Words {
        Words {
            path: "reads.bin",
            title: *b"READS  1",
            record: "script",
            records: "scripts",
            accepted: "read",
            count: "bytes of nodes",
            refusals: &REFUSALS,
        }
    }

    fn next<R: Read>(
        &self,
        file: &mut R,
        packed: &mut [u8],
        plain: &mut [u8],
    ) -> io::Result<Judged> {
        match next_packed(file, packed, plain)? {
            Some(s) => opened(self.alloc, s),
            None => Ok(Err(Fault::Damaged)),
        }
    }
}

fn main(rt: HostRuntime) -> io::Result<()> {
    run(&rt, &Reads { alloc: rt.alloc() })
}
