// A recorded list replayed: its records are read one after the other and judged, and the tally is written. A list that is damaged is told as
// such. What is read of the file is in the contract of `next_packed`; what is written, in none.

ghost use Rattle.std.specs.Prelude.{◌≡◌, ◌+◌, length, drop, Some, IfOk, IfSome, IsSome};
ghost use Rattle.echo_spec.specs.Input.{word32};
ghost use Rattle.echo_kernel.specs.Answered.{number, count};
ghost use Rattle.replay.specs.Unpacking.{record_in};
ghost use Rattle.replay.specs.Stepping.{lent_bytes};

use crate::unpack;
use lent::word32;
use refusals::EchoError;
use std::alloc::{AllocError, AllocGlobal, Global};
use std::collections::BTreeMap;
use std::io;
use std::io::{Read, Write};
use std::rt::Files;
use streams::{read_full, write_line};

// What was answered, or what is to be answered: the number, and what goes with it, a length, a count, or a place.
// Kept: made field by field of the answers that one caller has, each in one place; a `From` for each would be longer.
#[derive(Clone, Copy, Debug, PartialEq, Eq)]
pub struct Answer {
    pub number: u64,
    pub count: u64,
}

// The answer of what writes so many bytes or refuses. Ruled out: the length of an acceptance left out; every refusal told as one.
impl From<Result<usize, EchoError>> for Answer {
    ghost from_gives = { λ r a. (a.number ≡ number r) × (a.count ≡ count r) };

    fn from(r: Result<usize, EchoError>) -> Answer {
        match r {
            Ok(n) => Answer {
                number: 0,
                count: n as u64,
            },
            Err(e) => Answer {
                number: u64::from(e),
                count: 0,
            },
        }
    }
}

// Why a record is not as recorded.
#[derive(Clone, Copy, Debug, PartialEq, Eq)]
pub enum Fault {
    // The list is damaged.
    Damaged,
    // Another answer, and this is what was answered.
    Other(Answer),
}

// What a record came to: the number that was answered, where all is as recorded.
pub type Judged = Result<u64, Fault>;

// What a list is called, and the words by which its records are told.
#[derive(Clone, Copy)]
pub struct Words {
    // The file that lies beside the program, and how it begins.
    pub path: &'static str,
    pub title: [u8; 8],
    // One record, and more of them.
    pub record: &'static str,
    pub records: &'static str,
    // Those that were answered with 0, and what an answer has beside its number.
    pub accepted: &'static str,
    pub count: &'static str,
    // The refusals that are told.
    pub refusals: &'static [u64],
}

// A list to replay: what it is called, and how one record of it is read and judged.
pub trait Replay {
    // The most bytes of a record as it stands in the file, and of one that is unpacked.
    const PACKED: usize;

    const PLAIN: usize;

    fn words(&self) -> Words;

    // The next record, with room for the largest.
    fn next<R: Read>(
        &self,
        file: &mut R,
        packed: &mut [u8],
        plain: &mut [u8],
    ) -> io::Result<Judged>;

    // What stands above the tally.
    fn begin<W: Write>(&self, _out: &mut W) -> io::Result<()> {
        Ok(())
    }

    // The place in the list, and what was answered there.
    fn tell<W: Write>(&self, out: &mut W, i: u64, answer: Answer) -> io::Result<()> {
        let words = self.words();
        writeln!(out, "another answer to {} {i}", words.record)?;
        write_line(out, b"  number ", answer.number)?;
        writeln!(out, "  {} {}", words.count, answer.count)
    }

    fn report<W: Write>(&self, out: &mut W, tally: &Tally) -> io::Result<()> {
        let words = self.words();
        writeln!(out, "{} {}", words.records, tally.records)?;
        writeln!(out, "{} {}", words.accepted, tally.with(0))?;
        for n in words.refusals {
            writeln!(out, "refused with {}: {}", *n, tally.with(*n))?;
        }
        write_line(out, b"differences ", tally.differences)
    }
}

// How many records there were and how many had another answer, and how many had each number.
#[derive(Drop)]
pub struct Tally {
    pub records: u64,
    pub differences: u64,
    pub numbers: BTreeMap<u64, u64>,
}

impl Tally {
    fn new(alloc: Global) -> Tally {
        Tally {
            records: 0,
            differences: 0,
            numbers: BTreeMap::new(alloc),
        }
    }

    fn note(&mut self, number: u64) -> Result<(), AllocError> {
        self.records = self.records.wrapping_add(1);
        let n = self.numbers.entry(number)?.or_insert(0);
        *n = n.wrapping_add(1);
        Ok(())
    }

    fn differ(&mut self, number: u64) -> Result<(), AllocError> {
        self.differences = self.differences.wrapping_add(1);
        self.note(number)
    }

    // How many had this number.
    fn with(&self, number: u64) -> u64 {
        self.numbers.get(&number).copied().unwrap_or(0)
    }
}

// ---------------------------------------------------------------- one record

// The next packed record, its length and then its bytes, unpacked to the front of `plain`; none where it is damaged or not all there. Ruled
// out: a record that begins at its length; one that is longer than the file is.
pub fn next_packed<'a, R: Read>(
    file: &mut R,
    packed: &mut [u8],
    plain: &'a mut [u8],
) -> io::Result<Option<&'a [u8]>>
    ensures unpacked { IfOk result (λ r. IfSome (R.remaining file.old) (λ s. lent_bytes r ≡ record_in (length packed.old) (length plain.old) s)) }
    ensures left { IfOk result (λ r. IsSome r → IfSome (R.remaining file.old) (λ s. R.remaining file.new ≡ Some (drop (4 + word32 s 0) s))) }
{
    let mut head = [0u8; 4];
    if read_full(file, &mut head)? < head.len() {
        return Ok(None);
    }
    let n = word32(&head, 0) as usize;
    if n > packed.len() {
        return Ok(None);
    }
    let record = &mut packed[..n];
    if read_full(file, record)? < n {
        return Ok(None);
    }
    match unpack(record, plain) {
        Some(k) => Ok(Some(&plain[..k])),
        None => Ok(None),
    }
}

// ---------------------------------------------------------------- all records

// n records.
fn replay_records<R: Read, W: Write, L: Replay>(
    alloc: Global,
    list: &L,
    file: &mut R,
    out: &mut W,
    n: u64,
) -> io::Result<Tally> {
    let mut packed = vec![in alloc; 0u8; L::PACKED]?;
    let mut plain = vec![in alloc; 0u8; L::PLAIN]?;
    let mut tally = Tally::new(alloc);
    for i in 0..n {
        match list.next(file, &mut packed, &mut plain)? {
            Ok(number) => tally.note(number)?,
            Err(Fault::Other(answer)) => {
                list.tell(out, i, answer)?;
                tally.differ(answer.number)?;
            }
            Err(Fault::Damaged) => {
                writeln!(out, "the list is damaged at {} {i}", list.words().record)?;
                return Ok(tally);
            }
        }
    }
    Ok(tally)
}

// The list in an open file, and then nothing more.
fn replay_file<R: Read, W: Write, L: Replay>(
    alloc: Global,
    list: &L,
    file: &mut R,
    out: &mut W,
) -> io::Result<()> {
    let words = list.words();
    let mut title = [0u8; 8];
    let mut size = [0u8; 4];
    read_full(file, &mut title)?;
    read_full(file, &mut size)?;
    if title != words.title {
        return writeln!(out, "the list is damaged at byte 0");
    }
    let n = u64::from(u32::from_le_bytes(size));
    let tally = replay_records(alloc, list, file, out, n)?;
    list.report(out, &tally)?;
    let mut rest = [0u8; 1];
    if read_full(file, &mut rest)? > 0 {
        writeln!(
            out,
            "the list goes on after its {}, so many: {n}",
            words.records
        )?;
    }
    Ok(())
}

// THE REPLAY of a list, which lies beside the program: each record is answered by the entry point and compared, number, count and every
// place of what was lent, and the tally is written. A list that does not open is told, and is no error.
pub fn run<H: Files + Print + Eprint + AllocGlobal, L: Replay>(rt: &H, list: &L) -> io::Result<()> {
    match streams::open(rt, list.words().path)? {
        Some(mut file) => {
            let mut out = io::writer(rt);
            list.begin(&mut out)?;
            replay_file(rt.alloc(), list, &mut file, &mut out)
        }
        None => Ok(()),
    }
}
