// The names that a script declares, found by hash: the table that is made as lines are read, and what is found in it.
// Kept: a text, its table and its lines are parameters. The table is lent to be changed while lines are read and to be looked at afterwards, which
// one struct cannot be. Where the lines begin and how many there are stands in a header too, so a table with both would have contracts say that
// the two are one. A name to be found is two places of the text, since `Named` says what stands after it there: its bar.
// Under "Ruled out" stand wrong programs that a public function's contract refuses.
#![tactic(auto)]

ghost use Rattle.std.specs.Prelude.{◌≡◌, ◌+◌, ◌-◌, ◌≤◌, ◌<◌, length, take, drop};
ghost use Rattle.lists.specs.Tests.{same};
ghost use Rattle.script_tokens.specs.Reached.{between};
ghost use Rattle.script_names.specs.Entries.{after_bar, entry_from, hash_of, hash_from, AllClosed, Named, Sought, Empty, Tabled, Noted};

use echo_names::same_bytes;
use script_tokens::name_end;

// How many lines the table holds: as many as a script within the limits has.
pub const LINES: usize = 1536;

// How many hashes there are.
pub const HASHES: usize = 4096;

// So many bytes at each end of a name does its hash depend on.
const ENDS: usize = 16;

// Two numbers of a line, which are for what it declares.
// Kept: a line's number tells what it declares, so an enum would say that again, and its readers would have arms that cannot come.
#[derive(Clone, Copy, Debug, PartialEq, Eq)]
pub struct Measure {
    pub first: u64,
    pub second: u64,
}

// The numbers of a line of which none were read yet.
pub const UNREAD: Measure = Measure {
    first: 0,
    second: 0,
};

// Of a line: where its name begins; the last line before it with the same hash; the numbers of what it declares.
#[derive(Clone, Copy, Debug, PartialEq, Eq)]
pub struct Line {
    pub place: usize,
    pub before: Option<u16>,
    pub measure: Measure,
}

// The table: the lines, and for each hash the last line with it.
#[derive(Drop)]
pub struct Table {
    pub lines: [Line; LINES],
    pub last: [Option<u16>; HASHES],
}

// The lines of declarations so far: where the first of them begins, and how many there are.
#[derive(Clone, Copy, Debug, PartialEq, Eq)]
pub struct Declared {
    pub first: usize,
    pub count: usize,
}

// The line that declares a name, and the place where the name begins there.
#[derive(Clone, Copy, Debug, PartialEq, Eq)]
pub struct Found {
    pub line: usize,
    pub place: usize,
}

impl Table {
    // The table of no line. Ruled out: a line that has a hash; room for fewer lines than a script may have.
    pub fn new() -> Table
        ensures { Empty result }
    {
        Table {
            lines: [Line {
                place: 0,
                before: None,
                measure: UNREAD,
            }; LINES],
            last: [None; HASHES],
        }
    }
}

// The hash goes on from a number over a part of a name.
fn hash_from(start: usize, part: &[u8]) -> usize
    requires { start < HASHES }
    ensures { (result ≡ hash_from start part.now) × (result < HASHES) }
{
    let mut h = start;
    for c in part {
        h = (h * 31 + usize::from(*c)) % HASHES;
    }
    h
}

// The hash of a name: of a long one by its first and last bytes.
fn hash_of(name: &[u8]) -> usize
    ensures { (result ≡ hash_of name.now) × (result < HASHES) }
{
    if name.len() > ENDS {
        let h = hash_from(0, &name[..ENDS]);
        return hash_from(h, &name[name.len() - ENDS..]);
    }
    hash_from(0, name)
}

// The place after the first bar from here on, or the end.
fn after_bar(s: &[u8], at: usize) -> usize
    requires { at ≤ length s.now }
    ensures { (result ≤ length s.now) × (drop result s.now ≡ after_bar (drop at s.now)) }
{
    name_end(s, at).unwrap_or(s.len())
}

// Do the bytes at place p begin with the name? Ruled out: one that compares no more bytes than are left; yes for bytes that differ in the last.
// Kept: compared by blocks; `starts_with` looks at the whole name each time, and long chains of names of 32 bytes took up to twice the time.
pub fn stands(s: &[u8], name: &[u8], p: usize) -> bool
    requires { p ≤ length s.now }
    ensures { result ≡ same name.now (take (length name.now) (drop p s.now)) }
{
    let n = name.len();
    n <= s.len() - p && same_bytes(name, &s[p..p + n])
}

// The lines one after the other.
fn scanned(s: &[u8], lines: Declared, a: usize, f: usize) -> Option<Found>
    requires { (lines.first ≤ length s.now) × Named s.now a f × AllClosed (drop lines.first s.now) lines.count }
    ensures { Sought s.now lines.first lines.count (between s.now a (f - 1)) result }
{
    let mut p = after_bar(s, lines.first);
    // Kept: each name tells where the next one begins.
    for k in 0..lines.count {
        if stands(s, &s[a..f], p) {
            return Some(Found { line: k, place: p });
        }
        p = after_bar(s, after_bar(s, p));
    }
    None
}

// The lines with the hash of the name, the last first.
#[inline(always)]
fn chained(s: &[u8], t: &Table, lines: Declared, a: usize, f: usize) -> Option<Found>
    requires { (lines.count ≤ LINES) × Named s.now a f × Tabled s.now lines.first t.now lines.count }
    ensures { Sought s.now lines.first lines.count (between s.now a (f - 1)) result }
{
    let mut link = t.last[hash_of(&s[a..f - 1])];
    // Kept: a walk along a chain of links. Constants have chains of equal hashes too (`script_heap`), of another array whose laws say other things.
    while let Some(k) = link {
        let line = usize::from(k);
        let place = t.lines[line].place;
        if stands(s, &s[a..f], place) {
            return Some(Found { line, place });
        }
        link = t.lines[line].before;
    }
    None
}

// The line that declares the name from place a on, up to and with its bar before place f. Ruled out: a line whose name begins with this
// one; one that has the same hash and another name; none where a line past the table has it.
#[inline(always)]
pub fn find_line(s: &[u8], t: &Table, lines: Declared, a: usize, f: usize) -> Option<Found>
    requires { (lines.first ≤ length s.now) × Named s.now a f × Tabled s.now lines.first t.now lines.count }
    ensures { Sought s.now lines.first lines.count (between s.now a (f - 1)) result }
{
    if lines.count > LINES {
        scanned(s, lines, a, f)
    } else {
        chained(s, t, lines, a, f)
    }
}

// The next line, with its name from place a on and the numbers of what it declares, is entered into the table. Ruled out: a line that the one
// before it in the chain is forgotten by; a place one off; the first number put in for the second too.
pub fn enter(s: &[u8], t: &mut Table, lines: Declared, a: usize, f: usize, measure: Measure)
    requires { Named s.now a f × Tabled s.now lines.first t.old lines.count × (drop a s.now ≡ entry_from lines.count (drop lines.first s.now)) }
    ensures tabled { Tabled s.now lines.first t.new (lines.count + 1) }
    ensures noted { Noted t.old t.new lines.count measure }
{
    if lines.count < LINES {
        let h = hash_of(&s[a..f - 1]);
        t.lines[lines.count] = Line {
            place: a,
            before: t.last[h],
            measure,
        };
        t.last[h] = Some(lines.count as u16);
    }
}
