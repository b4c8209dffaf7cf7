// Replays the recorded conversions of node records, `records.bin`, and writes a tally: docs/RECORDED.md has the layout. A list that is
// damaged is told as such.
#![tactic(auto)]

use lent::word32;
use replay::{Answer, Fault, Judged, Replay, Words, agree, compared, next_packed, rest_of, run};
use std::io;
use std::io::Read;

// What the lent bytes hold before the call. A record can have any byte, so that each conversion is made with the one and with the other: a
// byte that was never written differs once.
const FILL: u8 = 0xAA;

const OTHER: u8 = 0x55;

// The header: which way, how many bytes to convert, how many are lent, and the number and length that are to be answered.
const HEADER: usize = 20;

// The list lends no more than this.
const LENT: usize = 36864;

// Which way records are converted: in the list 0, or any other number.
#[derive(Clone, Copy, Debug, PartialEq, Eq)]
enum Way {
    Shorten,
    Lengthen,
}

impl From<u64> for Way {
    fn from(n: u64) -> Way {
        match n {
            0 => Way::Shorten,
            _ => Way::Lengthen,
        }
    }
}

fn convert(way: Way, bytes: &[u8], out: &mut [u8]) -> Answer {
    Answer::from(match way {
        Way::Shorten => short_records::shorten(bytes, out),
        Way::Lengthen => short_records::lengthen(bytes, out),
    })
}

// An unpacked problem: behind the header stand the bytes to convert, and then the result. The answer beside the recorded one, and every
// byte that was lent: the result and then what was there before, or zeros.
fn judged(s: &[u8], fill: u8) -> Judged {
    // Kept: an array, whose size the list makes known: filled anew for each record, without asking for memory.
    let mut out = [fill; LENT];
    if s.len() < HEADER {
        return Err(Fault::Damaged);
    }
    let (header, bytes) = s.split_at(HEADER);
    let way = Way::from(word32(header, 0));
    let n = word32(header, 4) as usize;
    let m = word32(header, 8) as usize;
    let recorded = Answer {
        number: word32(header, 12),
        count: word32(header, 16),
    };
    if n > bytes.len() || m > LENT {
        return Err(Fault::Damaged);
    }
    let (given, wanted) = bytes.split_at(n);
    if wanted.len() as u64 != recorded.count {
        return Err(Fault::Damaged);
    }
    let lent = &mut out[..m];
    let answer = convert(way, given, lent);
    let rest = rest_of(recorded.number, fill);
    compared(answer, recorded, agree(lent, wanted, rest))
}

// Kept: numbers, as the list has them and the tally writes them.
static REFUSALS: [u64; 4] = [8, 9, 10, 16];

struct Records;

impl Replay for Records {
    const PACKED: usize = 20480;

    const PLAIN: usize = 73728;

    fn words(&self) -> Words {
        Words {
            path: "records.bin",
            title: *b"RECORDS1",
            record: "problem",
            records: "problems",
            accepted: "accepted",
            count: "length",
            refusals: &REFUSALS,
        }
    }

    fn next<R: Read>(
        &self,
        file: &mut R,
        packed: &mut [u8],
        plain: &mut [u8],
    ) -> io::Result<Judged> {
        let record = next_packed(file, packed, plain)?;
        Ok(
            record.ok_or(Fault::Damaged).and_then(|s| {
                judged(s, FILL)?;
                judged(s, OTHER)
            }),
        )
    }
}

fn main(rt: HostRuntime) -> io::Result<()> {
    run(&rt, &Records)
}
