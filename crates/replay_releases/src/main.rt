// Replays the recorded release files, `releases.bin`, and writes a tally: each file is checked, and the number and the script that is named are
// compared with the recorded ones. docs/RECORDED.md has the layout. A list that is damaged is told as such.
#![tactic(auto)]

use lent::word32;
use release::check_release;
use release::numbers::ReleaseAnswer;
use replay::{Answer, Fault, Judged, Replay, Words, compared, next_packed, run};
use std::io;
use std::io::Read;

// The header: the length of the file, and the number and the script that are to be answered.
const HEADER: usize = 12;

// An unpacked problem, of which all has to be there. Nothing is lent. Where the file is accepted, the script is 0, there as here.
fn judged(s: &[u8]) -> Judged {
    if s.len() < HEADER {
        return Err(Fault::Damaged);
    }
    let (header, file) = s.split_at(HEADER);
    if word32(header, 0) != file.len() as u64 {
        return Err(Fault::Damaged);
    }
    let recorded = Answer {
        number: word32(header, 4),
        count: word32(header, 8),
    };
    let told = ReleaseAnswer::from(check_release(file));
    let answer = Answer {
        number: told.number,
        count: told.script,
    };
    compared(answer, recorded, true)
}

// Kept: numbers, as the list has them and the tally writes them.
static REFUSALS: [u64; 3] = [9, 13, 17];

struct Releases;

impl Replay for Releases {
    const PACKED: usize = 40960;

    const PLAIN: usize = 264192;

    fn words(&self) -> Words {
        Words {
            path: "releases.bin",
            title: *b"RELEASE1",
            record: "file",
            records: "files",
            accepted: "accepted",
            count: "script",
            refusals: &REFUSALS,
        }
    }

    fn next<R: Read>(
        &self,
        file: &mut R,
        packed: &mut [u8],
        plain: &mut [u8],
    ) -> io::Result<Judged> {
        let record = next_packed(file, packed, plain)?;
        Ok(record.ok_or(Fault::Damaged).and_then(judged))
    }
}

fn main(rt: HostRuntime) -> io::Result<()> {
    run(&rt, &Releases)
}
