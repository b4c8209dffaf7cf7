// The answers of the exports as structs of numbers for C.
#![tactic(auto)]

ghost use Rattle.std.specs.Prelude.{◌≡◌};
ghost use Rattle.sliver_kernel.specs.Outcomes as widths;
ghost use Rattle.echo_kernel.specs.Answered as echo;
ghost use Rattle.echo_size.specs.Sized as sized;
ghost use Rattle.fewest_roots.specs.Answered as fewest;
ghost use Rattle.c_answers.specs.Answered.{chosen};

use echo_size::Size;
use fewest_roots::{Fewest, FewestRoots};
use refusals::EchoError;
use sliver_kernel::WidthError;

// What the printer answers. Number 0: the script is written, and length is its length. Any other number: a refusal, and length is 0.
#[repr(C)]
#[derive(Clone, Copy, Debug, PartialEq, Eq)]
pub struct EchoAnswer {
    pub number: u64,
    pub length: u64,
}

// Ruled out: the length of an acceptance left out; every refusal told as the want of room.
impl From<Result<usize, EchoError>> for EchoAnswer {
    ghost from_gives = { λ r a. (a.number ≡ echo.number r) × (a.length ≡ echo.count r) };

    fn from(r: Result<usize, EchoError>) -> EchoAnswer {
        match r {
            Ok(n) => EchoAnswer {
                number: 0,
                length: n as u64,
            },
            Err(refusal) => EchoAnswer {
                number: u64::from(refusal),
                length: 0,
            },
        }
    }
}

// What the width pass answers. Number 0: the widths are written, and count is how many. Number 1: count is the node refused, or
// the node count where the two columns of the array table differ in length. Any other number: count is 0.
#[repr(C)]
#[derive(Clone, Copy, Debug, PartialEq, Eq)]
pub struct WidthAnswer {
    pub number: u64,
    pub count: u64,
}

// Ruled out: another refusal's number; the node of a refusal left out.
impl From<Result<usize, WidthError>> for WidthAnswer {
    ghost from_gives = { λ r a. (a.number ≡ widths.number r) × (a.count ≡ widths.count r) };

    fn from(r: Result<usize, WidthError>) -> WidthAnswer {
        let (number, count) = match r {
            Ok(n) => (0, n),
            Err(WidthError::Malformed(node)) => (u64::from(EchoError::Malformed), node),
            Err(e) => (u64::from(EchoError::from(e)), 0),
        };
        WidthAnswer {
            number,
            count: count as u64,
        }
    }
}

// What is told of a script. Number 0: length is the script's length, and terms is how many terms the walk enters. Any other number: a
// refusal, and both are 0.
#[repr(C)]
#[derive(Clone, Copy, Debug, PartialEq, Eq)]
pub struct SizeAnswer {
    pub number: u64,
    pub length: u64,
    pub terms: u64,
}

// Ruled out: a length told one short; a refusal that leaves a count.
impl From<Result<Size, EchoError>> for SizeAnswer {
    ghost from_gives = { λ r a. (a.number ≡ sized.number r) × (a.length ≡ sized.length r) × (a.terms ≡ sized.terms r) };

    fn from(r: Result<Size, EchoError>) -> SizeAnswer {
        match r {
            Ok(size) => SizeAnswer {
                number: 0,
                length: size.length as u64,
                terms: size.terms,
            },
            Err(e) => SizeAnswer {
                number: u64::from(e),
                length: 0,
                terms: 0,
            },
        }
    }
}

// The fewest roots that still refuse. Number is the printer's with endless room, count is how many positions there are (0, 1 or 2), and
// first and second are the positions; one that is not there is 0.
#[repr(C)]
#[derive(Clone, Copy, Debug, PartialEq, Eq)]
pub struct FewestAnswer {
    pub number: u64,
    pub count: u64,
    pub first: u64,
    pub second: u64,
}

// Ruled out: the second position for the first; a count of two where there is one position.
impl From<Fewest> for FewestAnswer {
    ghost from_gives = { λ f a. chosen a (fewest.answered f) };

    fn from(f: Fewest) -> FewestAnswer {
        let number = f.refusal.map_or(0, u64::from);
        let (count, first, second) = match f.roots {
            FewestRoots::Empty => (0, 0, 0),
            FewestRoots::One(k) => (1, k, 0),
            FewestRoots::Two(j, k) => (2, j, k),
        };
        FewestAnswer {
            number,
            count,
            first: first as u64,
            second: second as u64,
        }
    }
}
