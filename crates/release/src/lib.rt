// A release file: up to 64 scripts end to end, and whether each name has one meaning in all of them.
// Under "Ruled out" stand wrong programs that a public function's contract refuses.
#![tactic(auto)]

pub mod numbers;

ghost use Rattle.std.specs.Prelude.{◌≡◌, ◌≤◌, length};
ghost use Rattle.script_lines.specs.Lines.{scripts_of};
ghost use Rattle.readback.specs.ScriptReader.{reading_in};
ghost use Rattle.releases.specs.Release.{read_refusal, «release_answer»};
ghost use Rattle.release.specs.Told.{reason_number, reason_of, refused, told_by};
ghost use Rattle.release.specs.Order.{ReadTo};

use heap_laws::Heap;
use refusals::MAX_ROOTS;
use release_meanings::{MOST_SCRIPTS, earliest_clash, few_scripts};
use script_lines::next_script;
use script_names::Table;
use script_place::Unread;
use script_rebuild::rebuild_script;

// Why a release is refused, by the refusal's number.
// Kept: a refusal of `ReadError` of script_rebuild has the same two numbers, but also `Room`, which no release has.
#[derive(Clone, Copy, Debug, PartialEq, Eq)]
pub enum Reason {
    // There are more than 64 scripts, or a script is read as a problem over a limit.
    Limit = 9,
    // A script is no problem's.
    NoScript = 13,
    // Two scripts declare one name with two meanings.
    TwoMeanings = 17,
}

impl From<Reason> for u64 {
    ghost from_gives = { λ r n. n ≡ reason_number r };

    fn from(r: Reason) -> u64 {
        r as u64
    }
}

// Ruled out: a script over a limit told as none; every script told as over a limit.
impl From<Unread> for Reason {
    ghost from_gives = { λ u r. r ≡ reason_of u };

    fn from(u: Unread) -> Reason {
        match u {
            Unread::NoScript => Reason::NoScript,
            Unread::Limit => Reason::Limit,
        }
    }
}

// A refusal, and the script that it is told of, from 0.
#[derive(Clone, Copy, Debug, PartialEq, Eq)]
pub struct ReleaseError {
    pub reason: Reason,
    pub script: u64,
}

// What reading a script is refused with, if it is.
fn read(s: &[u8]) -> Result<(), Reason>
    ensures { refused result ≡ read_refusal (reading_in s.now) }
{
    let mut t = Table::new();
    let mut heap = Heap::new();
    let mut roots = [0; MAX_ROOTS];
    rebuild_script(s, &mut t, &mut heap, &mut roots)?;
    Ok(())
}

// What a file is told from place `at` on, where the k scripts before it are read; what follows the last check-sat line is one more. It calls itself,
// and has no loop: a compiler puts no large arrays into the frame of such a function, so that those of the reading and of the comparison are never on
// the stack together.
fn check_from(file: &[u8], at: usize, k: u64) -> Result<(), ReleaseError>
    requires { ReadTo file.now at k × (length (scripts_of file.now).scripts ≤ MOST_SCRIPTS) }
    ensures { told_by result ≡ «release_answer» file.now }
{
    let Some(n) = next_script(&file[at..]) else {
        if at < file.len() {
            return Err(ReleaseError {
                reason: Reason::NoScript,
                script: k,
            });
        }
        return match earliest_clash(file) {
            None => Ok(()),
            Some(j) => Err(ReleaseError {
                reason: Reason::TwoMeanings,
                script: j,
            }),
        };
    };
    // Kept: a `match`; with `map_err` and `?` it was tried, and that the refusal is of this script stayed open.
    match read(&file[at..at + n]) {
        Err(reason) => Err(ReleaseError { reason, script: k }),
        Ok(()) => check_from(file, at + n, k + 1),
    }
}

// What a release is told: `Limit` of script 64 where it has more than 64 check-sat lines; the first refusal of reading and its script;
// `TwoMeanings` and the earliest script that disagrees with one before it; or that each name has one meaning. It asks nothing of the file.
// Ruled out: `TwoMeanings` told where a later script cannot be read; the script told with which the earliest disagrees; a script held beside the
// one before it only; bytes after the last check-sat line passed over.
pub fn check_release(file: &[u8]) -> Result<(), ReleaseError>
    ensures { told_by result ≡ «release_answer» file.now }
{
    if !few_scripts(file) {
        return Err(ReleaseError {
            reason: Reason::Limit,
            script: MOST_SCRIPTS,
        });
    }
    check_from(file, 0, 0)
}
