// What a conversion answers in two numbers, as C takes it.
ghost use Rattle.std.specs.Prelude.{◌≡◌};
ghost use Rattle.short_records.specs.Outcomes as outcomes;

use refusals::EchoError;

// Number 0: the result is written, and length is its length. Any other number: a refusal, and length is 0.
#[repr(C)]
#[derive(Clone, Copy)]
pub struct RecordAnswer {
    pub number: u64,
    pub length: u64,
}

// Ruled out: a length beside a refusal; the length left out.
impl From<Result<usize, EchoError>> for RecordAnswer {
    ghost from_gives = { λ r a. (a.number ≡ outcomes.number r) × (a.length ≡ outcomes.count r) };

    fn from(r: Result<usize, EchoError>) -> RecordAnswer {
        match r {
            Ok(size) => RecordAnswer {
                number: 0,
                length: size as u64,
            },
            Err(e) => RecordAnswer {
                number: u64::from(e),
                length: 0,
            },
        }
    }
}
