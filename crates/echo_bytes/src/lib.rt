// Writing into a lent buffer: bytes, words, quoted names, decimal numerals and binary constants (ordeal's "BYTES", `push_*`).
//
// Rust's `Vec<u8>` is here a `&mut [u8]` that the caller lends, and the place in it travels by value. A piece that does not fit is
// written as far as it fits, and its whole length is counted in one step, so no loop runs past the end of the buffer.
#![tactic(auto)]

ghost use Rattle.std.specs.Prelude.{◌≡◌, [], ◌∷◌, ◌++◌, ◌+◌, ◌-◌, ◌^◌, ◌≤◌, ◌<◌, min, T, leb, length};
ghost use Rattle.std.proofs.Math.Seq.{paste};
ghost use Rattle.lists.specs.Bytes.{bytes};
ghost use Rattle.lists.specs.Tests.{every};
ghost use Rattle.echo_spec.specs.Render.{decimal, binary_digits, quoted};
ghost use Rattle.echo_bytes.specs.Page.{page, start, saturated, written};
ghost use Rattle.echo_bytes.specs.Numerals.{padded, DigitCount, Share};

// Where the next byte goes, and how long all pieces so far are, whether they fitted or not.
// Kept: it travels by value beside the buffer, two numbers that are handed over in registers (docs/DECISIONS.md).
#[derive(Clone, Copy)]
pub struct Place {
    pub at: usize,
    pub need: usize,
}

// The place where nothing is written yet. Ruled out: a place past the first byte; a count that starts at 1.
// Kept: by its name, which the definitions have too; `Default` would say the same of two zeros.
pub fn start() -> Place
    ensures { result ≡ start }
{
    Place { at: 0, need: 0 }
}

// The highest digits of ds, as many as there is room for from `at` on: ds holds them lowest first, and the highest is stored first (`push_bits`).
// Kept: an index, since behind `iter_mut` in a chain with `rev` a proof knows no byte that was written.
fn copy_digits(out: &mut [u8], at: usize, ds: &[u8], k: usize)
    requires { (k ≤ length ds.now) × (k ≤ length out.old - at) × T (every (λ d. leb d 9) ds.now) }
    ensures { out.new ≡ paste out.old at (binary_digits ds.now) k }
{
    let n = ds.len();
    for j in 0..k {
        out[at + j] = 48 + ds[n - 1 - j];
    }
}

// ---------------------------------------------------------------- the digits of a number

// Numerals are written in pieces of at most eight digits.
const PIECE: u64 = 100_000_000;

// One, in numbers that have 56 bits behind the point.
const ONE: u64 = 72_057_594_037_927_936;

// How many digits the numeral of n has, for n of one piece.
fn digit_count(n: u64) -> usize
    requires { n < 10 ^ 8 }
    ensures { DigitCount n result }
{
    n.max(1).ilog10() as usize + 1
}

// One by the value of the highest of len digits, 10^(len - 1), rounded up.
// Kept: eight numbers written out; to work one out would be a division by a variable for each numeral.
fn share(len: usize) -> u64
    requires { (1 ≤ len) × (len ≤ 8) }
    ensures { Share len result }
{
    match len {
        1 => 72_057_594_037_927_936,
        2 => 7_205_759_403_792_794,
        3 => 720_575_940_379_280,
        4 => 72_057_594_037_928,
        5 => 7_205_759_403_793,
        6 => 720_575_940_380,
        7 => 72_057_594_038,
        _ => 7_205_759_404,
    }
}

// All of w. Ruled out: the first byte left as it was.
// Kept: by a loop; copy_from_slice needs memmove of the C library. It calls it for each word whose length is not known before: a script of names
// and calls took up to a seventh longer with it.
pub fn copy(to: &mut [u8], w: &[u8])
    requires { length to.old ≡ length w.now }
    ensures { to.new ≡ w.now }
{
    for i in 0..w.len() {
        to[i] = w[i];
    }
}

impl Place {
    // How many of n bytes fit from here on into a buffer of `size` bytes.
    fn fitting(self, n: usize, size: usize) -> usize
        ensures { result ≡ min n (size - self.at) }
    {
        n.min(size.saturating_sub(self.at))
    }

    // k bytes further on, n bytes more needed. Ruled out: the place by itself, k; a length that forgets what was written before.
    pub fn moved(self, k: usize, n: usize) -> Place
        requires { self.at + k < 2 ^ 64 }
        ensures { result ≡ record { at = self.at + k; need = saturated self.need n } }
    {
        Place {
            at: self.at + k,
            need: self.need.saturating_add(n),
        }
    }

    // Ruled out: a byte that is counted only where it fits; a place that moves on past the end of the buffer.
    pub fn byte(self, out: &mut [u8], b: u8) -> Place
        ensures { page result out.new ≡ written (page self out.old) (b ∷ []) }
    {
        if self.at < out.len() {
            out[self.at] = b;
            return self.moved(1, 1);
        }
        self.moved(0, 1)
    }

    // A word that may not fit.
    fn cut(self, out: &mut [u8], w: &[u8]) -> Place
        ensures { page result out.new ≡ written (page self out.old) w.now }
    {
        if self.at < out.len() {
            let k = self.fitting(w.len(), out.len());
            copy(&mut out[self.at..self.at + k], &w[..k]);
            return self.moved(k, w.len());
        }
        self.moved(0, w.len())
    }

    // `push_word`. (Where it fits, a word of known length is stored by a few instructions.) Ruled out: the last byte left out though it fits; a word
    // that does not fit counted as far as it was written.
    pub fn word(self, out: &mut [u8], w: &[u8]) -> Place
        ensures { page result out.new ≡ written (page self out.old) w.now }
    {
        let k = w.len();
        if self.at < out.len() && k <= out.len() - self.at {
            copy(&mut out[self.at..self.at + k], w);
            return self.moved(k, k);
        }
        self.cut(out, w)
    }

    // `|name|` (`push_name`). Ruled out: a blank for the opening bar; a name without its closing bar.
    pub fn name(self, out: &mut [u8], n: &[u8]) -> Place
        ensures { page result out.new ≡ written (page self out.old) (quoted n.now) }
    {
        self.byte(out, b'|').word(out, n).byte(out, b'|')
    }

    // Digits that are lent lowest first, written highest first.
    fn digits(self, out: &mut [u8], ds: &[u8]) -> Place
        requires { T (every (λ d. leb d 9) ds.now) }
        ensures { page result out.new ≡ written (page self out.old) (binary_digits ds.now) }
    {
        let k = self.fitting(ds.len(), out.len());
        copy_digits(out, self.at, ds, k);
        self.moved(k, ds.len())
    }

    // The numeral of n with len digits, the highest first, each stored where it belongs. The number is taken as so many of the highest
    // digit's value, with 56 bits behind the point: its whole part is the digit, and ten times what is behind the point has the next.
    fn piece(self, out: &mut [u8], n: u64, len: usize) -> Place
        requires { (1 ≤ len) × (len ≤ 8) × (n < 10 ^ len) }
        ensures { page result out.new ≡ written (page self out.old) (padded len n) }
    {
        let k = self.fitting(len, out.len());
        let mut left = n * share(len);
        for j in 0..k {
            out[self.at + j] = 48 + (left / ONE) as u8;
            left = left % ONE * 10;
        }
        self.moved(k, len)
    }

    // The decimal numeral of a number of one piece or two.
    fn numeral(self, out: &mut [u8], n: u64) -> Place
        requires { n < 10 ^ 16 }
        ensures { page result out.new ≡ written (page self out.old) (decimal n) }
    {
        if n < PIECE {
            return self.piece(out, n, digit_count(n));
        }
        let high = n / PIECE;
        self.piece(out, high, digit_count(high))
            .piece(out, n % PIECE, 8)
    }

    // The decimal numeral of n (`push_dec`), the highest digit first: the pieces above the last eight digits, and those.
    // Ruled out: the units first; a piece inside a numeral without its leading zeros; a number that starts with 10 written with the byte
    // after 9; a numeral that does not fit counted as far as it was written.
    pub fn number(self, out: &mut [u8], n: u64) -> Place
        ensures { page result out.new ≡ written (page self out.old) (decimal n) }
    {
        if n < 10 {
            return self.byte(out, b'0' + n as u8);
        }
        if n < PIECE {
            return self.piece(out, n, digit_count(n));
        }
        self.numeral(out, n / PIECE).piece(out, n % PIECE, 8)
    }

    // `#b`, then the bits from the highest down, which are lent lowest first (`push_bits`). Ruled out: the lowest bit first; the lowest
    // bits of a constant that does not fit.
    pub fn constant(self, out: &mut [u8], bits: &[u8]) -> Place
        requires { T (every (λ b. leb b 1) bits.now) }
        ensures { page result out.new ≡ written (page self out.old) (bytes "#b" ++ binary_digits bits.now) }
    {
        self.word(out, b"#b").digits(out, bits)
    }

    // Two bytes and a word, one piece where it fits: ` (word`, ` |name`. Ruled out: the second byte first; a word that fits counted without the two.
    pub fn led(self, out: &mut [u8], a: u8, b: u8, w: &[u8]) -> Place
        ensures { page result out.new ≡ written (page self out.old) (a ∷ b ∷ w.now) }
    {
        let all = w.len() + 2;
        if self.at < out.len() && all <= out.len() - self.at {
            let at = self.at;
            out[at] = a;
            out[at + 1] = b;
            copy(&mut out[at + 2..at + all], w);
            return self.moved(all, all);
        }
        self.byte(out, a).byte(out, b).word(out, w)
    }

    // ` #b`, and the bits as `constant` has them. Ruled out: the lowest bit first; a constant without its blank.
    pub fn spaced_constant(self, out: &mut [u8], bits: &[u8]) -> Place
        requires { T (every (λ b. leb b 1) bits.now) }
        ensures { page result out.new ≡ written (page self out.old) (bytes " #b" ++ binary_digits bits.now) }
    {
        self.led(out, b' ', b'#', b"b").digits(out, bits)
    }
}
