// Scripts end to end: where the first script of a file ends. A script ends with its check-sat line, which is a whole line: `(check-sat)` and
// byte 10, at the start of the file or after byte 10.
#![tactic(auto)]

pub mod numbers;

ghost use Rattle.std.specs.Prelude.{◌≡◌, false, ◌+◌, ◌≤◌, length};
ghost use Rattle.script_lines.specs.Lines.{following_script};
ghost use Rattle.script_lines.specs.Scanning.{found_of, fresh_at, starts_at, ahead, scanned, Without};

// A check-sat line, with its byte 10.
static LINE: [u8; 12] = *b"(check-sat)\n";

// The place in that line of its `k`.
const K: usize = 5;

// The place of its `-`.
const DASH: usize = 6;

// So many places are looked at together.
const BLOCK: usize = 64;

// Does a line start at this place?
fn fresh(file: &[u8], k: usize) -> bool
    requires { k ≤ length file.now }
    ensures { result ≡ fresh_at file.now k }
{
    k == 0 || file[k - 1] == b'\n'
}

// Does a check-sat line start at this place?
fn starts(file: &[u8], k: usize) -> bool
    requires { k ≤ length file.now }
    ensures { result ≡ starts_at file.now k }
{
    fresh(file, k) && file[k..].starts_with(&LINE)
}

// The places from a up to e, one by one: the end of the first check-sat line that starts there.
fn first_line(file: &[u8], a: usize, e: usize) -> Option<usize>
    requires { (a ≤ e) × (e ≤ length file.now) }
    ensures { ahead file.now a ≡ scanned file.now e result }
{
    // Kept: the closure of a `find` would have to be told that its place lies in the file.
    for k in a..e {
        if starts(file, k) {
            return Some(k + LINE.len());
        }
    }
    None
}

// Does the byte stand in the block from this place on?
// Kept: `contains` would leave the loop midway, and one that looks at all places is done many places at once.
fn in_reach(file: &[u8], i: usize, b: u8) -> bool
    requires { i + BLOCK ≤ length file.now }
    ensures { result ≡ false → Without file.now i BLOCK b }
{
    let mut seen = false;
    for x in &file[i..i + BLOCK] {
        if *x == b {
            seen = true;
        }
    }
    seen
}

// The places of a block. Where none of them has the line's `k` so far on, or none its `-`, no check-sat line starts there.
// The scripts have a `k` nowhere else but in names.
fn in_block(file: &[u8], i: usize) -> Option<usize>
    requires { i + BLOCK + DASH ≤ length file.now }
    ensures { ahead file.now i ≡ scanned file.now (i + BLOCK) result }
{
    if !in_reach(file, i + K, b'k') || !in_reach(file, i + DASH, b'-') {
        return None;
    }
    first_line(file, i, i + BLOCK)
}

// The length of the first script in a file: up to and with its first check-sat line. It asks nothing of the file, and takes time by the
// length that it answers, or by the file's where there is none.
// Ruled out: a check-sat line taken for one that starts inside a line; a length without the last byte 10; the last script for the first.
pub fn next_script(file: &[u8]) -> Option<usize>
    ensures { found_of result ≡ following_script file.now }
{
    // (A block is looked at up to its last place's `-`.)
    let blocks = file.len().saturating_sub(DASH) / BLOCK;
    // Kept: as in `first_line`.
    for k in 0..blocks {
        if let Some(end) = in_block(file, BLOCK * k) {
            return Some(end);
        }
    }
    first_line(file, BLOCK * blocks, file.len())
}
