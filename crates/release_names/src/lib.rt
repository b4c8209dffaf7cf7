// The names that the scripts of a file declare, found by hash: each declaration is held beside the one that has its name.
// Under "Ruled out" stand wrong programs that a public function's contract refuses.
#![tactic(auto)]

ghost use Rattle.std.specs.Prelude.{◌≡◌, List, ℕ, ◌+◌, ◌-◌, ◌≤◌, ◌<◌, ◌&&◌, eqb, length, take, drop, get_or};
ghost use Rattle.lists.specs.Tests.{same};
ghost use Rattle.script_tokens.specs.Reached.{between};
ghost use Rattle.script_names.specs.Entries.{Named};
ghost use Rattle.releases.specs.Release.{Declared};
ghost use Rattle.release_lines.specs.Lines.{LineIs, DeclaredAt};
ghost use Rattle.release_names.specs.Marks.{chain_of, tag_of};
ghost use Rattle.release_names.specs.Table.{Table, Sought, HeldBy, Fresh, LineTo, ScriptTo};

use refusals::MAX_ENTRIES;
use release_lines::next_line;
use script_decls::Line;
use script_names::stands;

// So many names can a release declare: 64 scripts with 512 variables, 512 arrays and 512 functions each.
pub const ENTRIES: usize = 3 * 64 * MAX_ENTRIES;

// So many hashes there are.
pub const HEADS: usize = 4096;

// So many numbers of entries a link can hold.
const LINKS: usize = 131072;

// The names that are declared: where each begins, its tag with the entry before it in its chain, the last entry of each chain, and how many there are.
// Kept: two arrays in place of one of entries, which would be padded to 16 bytes each: 393,216 bytes more of stack. A link is the number of an entry
// and 1, or 0 for none, beside the tag in 32 bits, where an `Option` would take 64.
#[derive(Drop)]
pub struct Names {
    pub places: [u64; ENTRIES],
    pub links: [u32; ENTRIES],
    pub heads: [u32; HEADS],
    pub count: usize,
}

// A declaration differs from one of the same name.
#[derive(Clone, Copy, Debug, PartialEq, Eq)]
pub struct Clash;

// The mark of a name: the chain that it is in, and a tag that most other names of the chain do not have.
#[derive(Clone, Copy, Debug, PartialEq, Eq)]
struct Mark {
    chain: usize,
    tag: usize,
}

impl Mark {
    fn of(name: &[u8]) -> Mark
        ensures { (result.chain ≡ chain_of name.now) × (result.tag ≡ tag_of name.now) × (result.chain < HEADS) × (result.tag < 32768) }
    {
        let mut h: u64 = 0;
        for b in name {
            h = (h * 16777619 + u64::from(*b)) % 134217728;
        }
        let hash = h as usize;
        Mark {
            chain: hash % HEADS,
            tag: hash / HEADS,
        }
    }
}

// Kept: the file is lent to each call beside the names; as a field it would be in each definition over `Names`, and each law that builds one would name it.
impl Names {
    // No name is declared. Ruled out: an entry that is there from the start; a chain that begins at one.
    pub fn new() -> Names
        ensures { Fresh result }
    {
        Names {
            places: [0; ENTRIES],
            links: [0; ENTRIES],
            heads: [0; HEADS],
            count: 0,
        }
    }

    // Is the tag of entry k, which is held, that of the name, and does the name with its bar stand there?
    fn has_name(&self, s: &[u8], k: usize, held: usize, tag: usize, name: &[u8]) -> bool
        requires { (k < ENTRIES) × (get_or self.now.places k 0 ≤ length s.now) }
        ensures { result ≡ (eqb held tag && same name.now (take (length name.now) (drop (get_or self.now.places k 0) s.now))) }
    {
        held == tag && stands(s, name, self.places[k] as usize)
    }

    // Where the name of an entry begins that has the name from place a on, up to and with its bar before place f: the entries of its hash are
    // looked at, the last first.
    fn find(&self, s: &[u8], a: usize, f: usize) -> Option<usize>
        requires { ((xs : List Declared) × Table s.now self.now.places self.now.links self.now.heads xs) × Named s.now a f }
        ensures { (xs : List Declared) → Table s.now self.now.places self.now.links self.now.heads xs
            → Sought self.now.places xs (between s.now a (f - 1)) result }
    {
        let own = Mark::of(&s[a..f - 1]);
        let mut c = self.heads[own.chain] as usize;
        // Kept: a walk along a chain of links.
        while c > 0 {
            let k = c - 1;
            let link = self.links[k] as usize;
            if self.has_name(s, k, link / LINKS, own.tag, &s[a..f]) {
                return Some(self.places[k] as usize);
            }
            c = link % LINKS;
        }
        None
    }

    // One declaration more. Ruled out: a declaration of a name that is known left aside; one with other
    // widths taken for the same; the name of an entry that begins with this one.
    pub fn enter_line(&mut self, s: &[u8], line: Line) -> Result<(), Clash>
        requires { ((seen : List Declared) × HeldBy s.now seen self.old) × ((x : Declared) × LineIs s.now line.name line.name_end line.end x) × (self.old.count < ENTRIES) }
        ensures { (seen : List Declared) (x : Declared) → HeldBy s.now seen self.old
            → LineIs s.now line.name line.name_end line.end x → LineTo s.now seen x self.new result }
    {
        if let Some(q) = self.find(s, line.name, line.name_end) {
            if stands(s, &s[line.name..line.end], q) {
                return Ok(());
            }
            return Err(Clash);
        }
        let own = Mark::of(&s[line.name..line.name_end - 1]);
        let k = self.count;
        self.places[k] = line.name as u64;
        self.links[k] = (own.tag * LINKS + self.heads[own.chain] as usize) as u32;
        self.heads[own.chain] = (k as u32) + 1;
        self.count = k + 1;
        Ok(())
    }

    // The declarations of a script, whose lines stand from place q on. Ruled out: those after the first of a script left aside; a
    // declaration held beside those of its own script only.
    pub fn enter_script(&mut self, s: &[u8], q: usize) -> Result<(), Clash>
        requires { (seen : List Declared) × (ys : List Declared) × HeldBy s.now seen self.old × DeclaredAt s.now q ys × (length seen + length ys ≤ ENTRIES) }
        ensures { (seen ys : List Declared) → HeldBy s.now seen self.old → DeclaredAt s.now q ys
            → ScriptTo s.now seen ys self.new result }
    {
        let mut at = q;
        // Kept: each line tells where the next one begins.
        while let Some(line) = next_line(s, at) {
            self.enter_line(s, line)?;
            at = line.end;
        }
        Ok(())
    }
}
