// The lines of a script's declarations, one after the other, in a file that holds the script.
// Under "Ruled out" stand wrong programs that a public function's contract refuses.
#![tactic(auto)]

ghost use Rattle.std.specs.Prelude.{List, ◌≡◌, ℕ, ◌≤◌, length};
ghost use Rattle.script_tokens.specs.Reached.{Stretch};
ghost use Rattle.releases.specs.Release.{Declared};
ghost use Rattle.release_lines.specs.Lines.{ends_line, DeclaredAt, NextLine};

use script_decls::Line;
use script_tokens::{Ending, bar_at, byte_at, name_end, stretch_end};

// The line feed after a line.
pub struct LineFeed;

impl Ending for LineFeed {
    ghost ends = { ends_line };

    fn ends(c: u8) -> bool {
        c == b'\n'
    }
}

// The place of the first line feed from here on, or the end. Ruled out: the place after it; the last line feed.
pub fn line_feed(s: &[u8], at: usize) -> usize
    requires { at ≤ length s.now }
    ensures { Stretch ends_line s.now at result }
{
    stretch_end::<LineFeed>(s, at)
}

// The next declaration from the start of its line on. Ruled out: a place of the name that has its bar; the end of the line before its line feed;
// an assertion taken for a declaration.
pub fn next_line(s: &[u8], q: usize) -> Option<Line>
    requires { q ≤ length s.now }
    ensures { (xs : List Declared) → DeclaredAt s.now q xs → NextLine s.now q xs result }
{
    if byte_at(s, q + 1) != b'd' {
        return None;
    }
    let b = bar_at(s, q);
    if b >= s.len() {
        return None;
    }
    let f = name_end(s, b + 1)?;
    let d = line_feed(s, f);
    if d >= s.len() {
        return None;
    }
    Some(Line {
        name: b + 1,
        name_end: f,
        end: d + 1,
    })
}
