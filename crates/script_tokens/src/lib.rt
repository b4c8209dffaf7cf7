// The tokens of a script in the printer's own spelling, each read at a place of the script: a word that must stand there, a name up to its
// bar, a numeral, the digits of a constant, the head of a term. Nothing is copied: a token is two places.
// Kept: a text and a place in it are two parameters. Callers keep places, compare them and go back to them, so a struct of both would be taken
// apart at each call.
// Under "Ruled out" stand wrong programs that a public function's contract refuses.
#![tactic(auto)]

ghost use Rattle.std.specs.Prelude.{◌≡◌, ℕ, ◌+◌, ◌≤◌, ◌<◌, Bool, true, length, drop, get_or};
ghost use Rattle.readback.specs.Reader.{expect, name_read};
ghost use Rattle.script_tokens.specs.Reached.{Reached, NameTo, Stretch, ends_name, ends_digits, ends_word, Numbered, numeral64};
ghost use Rattle.script_tokens.specs.Stretches.{Runs, Within};
ghost use Rattle.script_tokens.specs.Numerals.{Digits};

// A number and the place after it.
// Kept: what is read and the place after it are a struct four more times, in `script_decls` and `script_terms`. A generic one would name none of
// them, and each has definitions of its own.
#[derive(Clone, Copy, Debug, PartialEq, Eq)]
pub struct Number {
    pub value: u64,
    pub end: usize,
}

// So many bytes are looked at together.
const BLOCK: usize = 16;

// So many of a long stretch.
const LONG_BLOCK: usize = 64;

// The byte at a place, and 0, which no script has, past the end. Ruled out: the last byte past the end; the byte after the place.
pub fn byte_at(s: &[u8], at: usize) -> u8
    ensures { result ≡ get_or s.now at 0 }
{
    s.get(at).copied().unwrap_or(0)
}

// The place after the word, if it stands at the place. Ruled out: one that takes the beginning of the word for the whole of it; a place one past its end.
// Kept: a loop, and not `starts_with`: it is compiled into its callers, where the word is known and each of its bytes is compared by itself.
#[inline(always)]
pub fn literal(s: &[u8], at: usize, w: &[u8]) -> Option<usize>
    requires { at ≤ length s.now }
    ensures { Reached s.now (expect w.now (drop at s.now)) result }
{
    if s.len() - at < w.len() {
        return None;
    }
    for k in 0..w.len() {
        if s[at + k] != w[k] {
            return None;
        }
    }
    Some(at + w.len())
}

// ---------------------------------------------------------------- stretches of bytes

// A test of single bytes: does a byte end a stretch?
pub trait Ending {
    ghost ends: { ℕ → Bool };

    fn ends(c: u8) -> bool
        ensures { result ≡ ends c };
}

// The bar after a name.
struct Bar;

impl Ending for Bar {
    ghost ends = { ends_name };

    fn ends(c: u8) -> bool {
        c == b'|'
    }
}

// A byte that is no binary digit.
struct NoDigit;

impl Ending for NoDigit {
    ghost ends = { ends_digits };

    fn ends(c: u8) -> bool {
        c != b'0' && c != b'1'
    }
}

// A blank or a closing bracket, where the head of a term ends.
struct WordEnd;

impl Ending for WordEnd {
    ghost ends = { ends_word };

    fn ends(c: u8) -> bool {
        c == b' ' || c == b')'
    }
}

// Does none of the N bytes from place e on end a stretch?
fn none_ends<E: Ending, const N: usize>(s: &[u8], e: usize) -> bool
    requires { e + N ≤ length s.now }
    ensures { result ≡ true → Runs E.ends s.now e (e + N) }
{
    let mut ok = true;
    // Kept: `any` would leave the loop midway, and one that looks at all of them is done at once.
    for c in &s[e..e + N] {
        if E::ends(*c) {
            ok = false;
        }
    }
    ok
}

// The first byte from place `from` on that ends the stretch from place `at` on, where none between the two does; or the end.
fn end_from<E: Ending>(s: &[u8], at: usize, from: usize) -> usize
    requires { Within E.ends s.now at from }
    ensures { Stretch E.ends s.now at result }
{
    // Kept: `position` would tell its byte by its place in the rest of the script, and each law of stretches is about places of the whole.
    for e in from..s.len() {
        if E::ends(s[e]) {
            return e;
        }
    }
    s.len()
}

// The place after as many blocks of N bytes as end no stretch.
#[inline(always)]
fn past_blocks<E: Ending, const N: usize>(s: &[u8], at: usize, from: usize) -> usize
    requires { (0 < N) × Within E.ends s.now at from }
    ensures { Within E.ends s.now at result }
{
    let mut e = from;
    // Kept: an iterator over parts of N would have to be asked for the place where it stopped.
    while s.len() - e >= N {
        if !none_ends::<E, N>(s, e) {
            return e;
        }
        e += N;
    }
    e
}

// The first byte that ends the stretch, or the end; long blocks first, then shorter ones, then byte by byte.
fn far_end<E: Ending>(s: &[u8], at: usize, from: usize) -> usize
    requires { Within E.ends s.now at from }
    ensures { Stretch E.ends s.now at result }
{
    let long = past_blocks::<E, LONG_BLOCK>(s, at, from);
    let near = past_blocks::<E, BLOCK>(s, at, long);
    end_from::<E>(s, at, near)
}

// The place of the first byte from here on that ends the stretch, or the end. Ruled out: the place after that byte; a place before it.
pub fn stretch_end<E: Ending>(s: &[u8], at: usize) -> usize
    requires { at ≤ length s.now }
    ensures { Stretch E.ends s.now at result }
{
    end_from::<E>(s, at, at)
}

// The place of the first bar from here on, or the end; most are near. Ruled out: the place after the bar; the last bar.
pub fn bar_at(s: &[u8], at: usize) -> usize
    requires { at ≤ length s.now }
    ensures { Stretch ends_name s.now at result }
{
    let near = at + (s.len() - at).min(BLOCK);
    // Kept: as in `end_from`.
    for e in at..near {
        if Bar::ends(s[e]) {
            return e;
        }
    }
    far_end::<Bar>(s, at, near)
}

// A name after its first bar, up to and with its last. Ruled out: a name with a bar in it; a place at the last bar and not after it.
pub fn name_end(s: &[u8], at: usize) -> Option<usize>
    requires { at ≤ length s.now }
    ensures { NameTo s.now at (name_read (drop at s.now)) result }
{
    let e = bar_at(s, at);
    (e < s.len()).then_some(e + 1)
}

// The place of the first byte from here on that is no binary digit, or the end. Ruled out: a 2 taken for a digit; a place past the byte.
pub fn digits_end(s: &[u8], at: usize) -> usize
    requires { at ≤ length s.now }
    ensures { Stretch ends_digits s.now at result }
{
    far_end::<NoDigit>(s, at, at)
}

// The place of the first blank or closing bracket from here on, where the head of a term ends, or the end. Ruled out: an end at an
// opening bracket; a place past the blank.
pub fn word_end(s: &[u8], at: usize) -> usize
    requires { at ≤ length s.now }
    ensures { Stretch ends_word s.now at result }
{
    stretch_end::<WordEnd>(s, at)
}

// ---------------------------------------------------------------- numerals

// The digits from place `at` up to `from`, whose number is v, and those that follow.
fn more_digits(s: &[u8], at: usize, from: usize, v: u64) -> Option<Number>
    requires { Digits s.now at from v }
    ensures { Numbered s.now (numeral64 (drop at s.now)) result }
{
    let mut n = v;
    // Kept: a fold over the digits would have to answer the place of the first byte that is none.
    for e in from..s.len() {
        let c = s[e];
        if !c.is_ascii_digit() {
            return Some(Number { value: n, end: e });
        }
        n = n.checked_mul(10)?.checked_add(u64::from(c - b'0'))?;
    }
    Some(Number {
        value: n,
        end: s.len(),
    })
}

// A numeral as the printer writes it, without a leading zero, if its number has 64 bits. Ruled out: one that takes `08`; one that stops
// after twenty digits; a number that wrapped.
pub fn numeral(s: &[u8], at: usize) -> Option<Number>
    requires { at ≤ length s.now }
    ensures { Numbered s.now (numeral64 (drop at s.now)) result }
{
    let c = byte_at(s, at);
    if !c.is_ascii_digit() {
        return None;
    }
    if c != b'0' {
        return more_digits(s, at, at + 1, u64::from(c - b'0'));
    }
    if byte_at(s, at + 1).is_ascii_digit() {
        return None;
    }
    Some(Number {
        value: 0,
        end: at + 1,
    })
}
