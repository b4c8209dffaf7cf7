// Shorter node records and back: `shorten` and `lengthen`. Both look at all of their input before they write, so that what writes cannot
// fail. The sizes of records come from the table of operand counts that `Encoding` goes by.
// Under "Ruled out" stand wrong programs that a public function's contract refuses.
#![tactic(auto)]

pub mod numbers;

ghost use Rattle.std.specs.Prelude.{◌≡◌, [], ◌+◌, ◌*◌, ◌/◌, ◌≤◌, length, drop};
ghost use Rattle.echo_spec.specs.Answers.{at_front};
ghost use Rattle.lent.specs.Clearing.{left};
ghost use Rattle.short_records.specs.Short.{short_size, shortened, new_refusal, lengthened, shorten_answer, lengthen_answer};
ghost use Rattle.short_records.specs.Outcomes.{answered, Told};

use blast_kernel::{KINDS, Shape, encoded};
use echo_bytes::copy;
use lent::clear_on_refusal;
use refusals::{EchoError, MAX_NODE_BYTES, MAX_NODES, RECORD};

// The bytes of a record of this kind in the new form. Ruled out: a record without its kind byte; one with all four operands.
pub fn short_size(kind: u8) -> usize
    ensures { (result ≡ short_size kind) × (result ≤ RECORD) }
{
    1 + 4 * Shape::from(kind).operand_count()
}

// ---------------------------------------------------------------- old to new

// The length of the new form.
// Kept: by the record's number; of a part of `chunks_exact` it would have to be shown that it has a first byte.
fn short_length(old: &[u8]) -> usize
    ensures { result ≡ length (shortened old.now) }
{
    let mut total = 0;
    for i in 0..old.len() / RECORD {
        total += short_size(old[RECORD * i]);
    }
    total
}

// The new form to the front of what was lent.
// Kept: as in `short_length`.
fn write_short(old: &[u8], out: &mut [u8])
    requires { length (shortened old.now) ≤ length out.old }
    ensures { out.new ≡ at_front (shortened old.now) out.old }
{
    let mut at = 0;
    for i in 0..old.len() / RECORD {
        let from = RECORD * i;
        let size = short_size(old[from]);
        // Kept: by a loop; copy_from_slice needs memmove of the C library.
        copy(&mut out[at..at + size], &old[from..from + size]);
        at += size;
    }
}

// The conversion, without what a refusal does to what was lent. (There are no bits to be encoded.)
fn shorten_into(old: &[u8], out: &mut [u8]) -> Result<usize, EchoError>
    ensures { answered result (left 0 result out.new) ≡ shorten_answer old.now out.old }
{
    if old.len() > MAX_NODE_BYTES {
        return Err(EchoError::Limit);
    }
    if !encoded(old, &[]) {
        return Err(EchoError::Encoding);
    }
    let n = short_length(old);
    if n > out.len() {
        return Err(EchoError::Room);
    }
    write_short(old, out);
    Ok(n)
}

// OLD TO NEW: the length of the result, which is written. Ruled out: `Limit` for 34,816 bytes; `Room` before `Encoding`.
pub fn shorten(old: &[u8], out: &mut [u8]) -> Result<usize, EchoError>
    ensures { answered result out.new ≡ shorten_answer old.now out.old }
{
    let told = shorten_into(old, out);
    clear_on_refusal(&told, out);
    told
}

// ---------------------------------------------------------------- new to old

// How many records new bytes are, all of them whole. Ruled out: `ShortRecord` for what follows 2,048 records; a last record of which a byte is missing taken as whole.
pub fn count_records(new: &[u8]) -> Result<usize, EchoError>
    ensures { Told new.now result }
{
    let mut n = 0;
    let mut at = 0;
    // Kept: a record has the size that its kind gives, so that no iterator over parts of one size serves.
    while at < new.len() {
        if n >= MAX_NODES {
            return Err(EchoError::Limit);
        }
        let kind = new[at];
        if kind >= KINDS {
            return Err(EchoError::ShortRecord);
        }
        let size = short_size(kind);
        if size > new.len() - at {
            return Err(EchoError::ShortRecord);
        }
        at += size;
        n += 1;
    }
    Ok(n)
}

// The old form to the front of what was lent: each record, and 0 for the operands that its kind does not have.
fn write_long(new: &[u8], out: &mut [u8])
    requires { (new_refusal new.now ≡ 0) × (length (lengthened new.now) ≤ length out.old) }
    ensures { out.new ≡ at_front (lengthened new.now) out.old }
{
    let mut from = 0;
    let mut at = 0;
    // Kept: as in `count_records`.
    while from < new.len() {
        let size = short_size(new[from]);
        // Kept: by a loop; copy_from_slice needs memmove of the C library.
        copy(&mut out[at..at + size], &new[from..from + size]);
        out[at + size..at + RECORD].fill(0);
        from += size;
        at += RECORD;
    }
}

// The conversion, without what a refusal does to what was lent.
fn lengthen_into(new: &[u8], out: &mut [u8]) -> Result<usize, EchoError>
    ensures { answered result (left 0 result out.new) ≡ lengthen_answer new.now out.old }
{
    let size = RECORD * count_records(new)?;
    if size > out.len() {
        return Err(EchoError::Room);
    }
    write_long(new, out);
    Ok(size)
}

// NEW TO OLD: the length of the result, which is written. Ruled out: a buffer of just the length of the old form refused; a refusal that leaves what was there.
pub fn lengthen(new: &[u8], out: &mut [u8]) -> Result<usize, EchoError>
    ensures { answered result out.new ≡ lengthen_answer new.now out.old }
{
    let told = lengthen_into(new, out);
    clear_on_refusal(&told, out);
    told
}
