// The bytes of a problem taken apart: the part of each of the eighteen inputs, or what is wrong with the bytes. The layout is that of
// specs/Layout.antt and docs/FORMATS.md.
// Under "Ruled out" stand wrong programs that a public function's contract refuses.
#![tactic(auto)]

ghost use Rattle.std.specs.Prelude.{◌≡◌, ◌≤◌, ◌<◌};
ghost use Rattle.layout_shape.specs.Layout as layout;
ghost use Rattle.layout_shape.specs.Reading.{Shaped};

use input_parts::{INPUTS, Part, Parts, TABLE};
use refusals::MAX_BITS;

// ---------------------------------------------------------------- the inputs

// The name of input k. Ruled out: that of the input after it; a name with a letter wrong.
pub fn name(k: usize) -> &'static [u8]
    requires { k < INPUTS }
    ensures { result.now ≡ (layout.input_at k).name }
{
    TABLE[k].0
}

// The largest count of input k. Ruled out: that of the input after it; an arena's for a column.
pub fn limit(k: usize) -> u64
    requires { k < INPUTS }
    ensures { (result ≡ (layout.input_at k).limit) × (result ≤ MAX_BITS) }
{
    TABLE[k].1 as u64
}

// ---------------------------------------------------------------- reading

// The first fault of the bytes, and the number of its input, from 0.
#[derive(Clone, Copy, Debug, PartialEq, Eq)]
pub enum ShapeFault {
    // The bytes end within this input.
    Early(usize),
    // The count of this input is over its limit.
    TooLarge(usize),
    // Bytes follow the last input.
    LeftOver,
}

// Each input in turn: the count is there, it is within its limit, the elements are there. Then nothing is left. Ruled out: bytes after the
// last input let pass; a count at its limit turned away.
pub fn read_shape(s: &[u8]) -> Result<Parts<'_>, ShapeFault>
    ensures { Shaped s.now result }
{
    let mut parts = [Part::NONE; INPUTS];
    let mut at = 0;
    for (k, part) in parts.iter_mut().enumerate() {
        if s.len() - at < 8 {
            return Err(ShapeFault::Early(k));
        }
        let n = input_parts::word64(s, at);
        if n > limit(k) {
            return Err(ShapeFault::TooLarge(k));
        }
        let count = n as usize;
        let m = input_parts::span(k, count);
        if s.len() - at - 8 < m {
            return Err(ShapeFault::Early(k));
        }
        *part = Part {
            start: at + 8,
            count,
        };
        at += 8 + m;
    }
    if at < s.len() {
        return Err(ShapeFault::LeftOver);
    }
    Ok(Parts {
        bytes: s,
        at: parts,
    })
}
