// What is told of a release in two numbers, as C takes it.
ghost use Rattle.std.specs.Prelude.{◌≡◌};
ghost use Rattle.release.specs.Told.{told_by};
ghost use Rattle.release.specs.Numbers.{numbers_of};

use crate::ReleaseError;

// Number 0: each name has one meaning, and script is 0. Any other number: a refusal, told of this script, from 0.
#[repr(C)]
#[derive(Clone, Copy, Debug, PartialEq, Eq)]
pub struct ReleaseAnswer {
    pub number: u64,
    pub script: u64,
}

// Ruled out: the script of a refusal left out; a refusal told as an acceptance.
impl From<Result<(), ReleaseError>> for ReleaseAnswer {
    ghost from_gives = { λ r a. numbers_of a ≡ told_by r };

    fn from(r: Result<(), ReleaseError>) -> ReleaseAnswer {
        match r {
            Ok(()) => ReleaseAnswer {
                number: 0,
                script: 0,
            },
            Err(e) => ReleaseAnswer {
                number: u64::from(e.reason),
                script: e.script,
            },
        }
    }
}
