// A script's problem rebuilt in local arrays: whether the bytes are a script, whether its problem keeps to the limits, and then its nodes, bits,
// side entries and roots. Under "Ruled out" stand wrong programs that a public function's contract refuses.
#![tactic(auto)]

ghost use Rattle.std.specs.Prelude.{◌≡◌, ◌↔◌, List, [], ℕ, ◌≤◌, ◌<◌, length, slice_index, EachIndex, IsTrue};
ghost use Rattle.reading.specs.Trees.{Declarations};
ghost use Rattle.readback.specs.Rebuild.{rebuild};
ghost use Rattle.script_names.specs.Entries.{Empty};
ghost use Rattle.script_names.specs.declared.Table.{Table};
ghost use Rattle.script_entries.specs.Entries.{Declares};
ghost use Rattle.header_laws.specs.Body.{reading_of};
ghost use Rattle.heap_laws.specs.Heap.{Held, Stacked};
ghost use Rattle.script_rebuild.specs.Limits.{Tables};
ghost use Rattle.script_rebuild.specs.Rebuilt.{RebuiltTo};
ghost use Rattle.script_rebuild.specs.Steps.{OverTo};
ghost use Rattle.script_rebuild.specs.Decided.{lengths_of, needs_of, error_number, refusal_of, Decided};
ghost use Rattle.readback.specs.Records.{inputs};
ghost use Rattle.refusals.specs.declared.TheConstants.{MAX_ROOTS};
ghost use Rattle.script_rebuild.specs.declared.TheConstants.{OUTPUTS};

use heap_laws::Heap;
use place_script::place_script;
use refusals::{MAX_ENTRIES, MAX_ROOTS, RECORD};
use script_calls::called_in;
use script_check::{assertions, check_header};
use script_entries::Script;
use script_fill::names_length;
use script_header::Header;
use script_names::Table;
use script_place::Unread;

// How many bytes the names of each table have.
#[derive(Clone, Copy, Debug, PartialEq, Eq)]
pub struct Arenas {
    pub names: usize,
    pub anames: usize,
    pub fnames: usize,
}

// How many bytes the names of each table have, where the tables keep to their limits.
fn arenas_within(script: &Script) -> Option<Arenas>
    requires { (D : Declarations) × Declares script.now D }
    ensures { (D : Declarations) → Declares script.now D → Tables D result }
{
    let v = script.header.variables;
    let w = script.header.arrays;
    let c = script.header.names;
    if v > MAX_ENTRIES || w - v > MAX_ENTRIES || c - w > MAX_ENTRIES {
        return None;
    }
    let names = names_length(script, 0, v)?;
    let anames = names_length(script, v, w - v)?;
    let fnames = names_length(script, w, c - w)?;
    Some(Arenas {
        names,
        anames,
        fnames,
    })
}

// What is rebuilt: the script's header, how many bytes its names have, and how many roots its problem has.
#[derive(Clone, Copy)]
pub struct Rebuilt {
    pub header: Header,
    pub arenas: Arenas,
    pub roots: usize,
}

// How many elements are used of each output, the columns of a table, which are of one length, told once.
#[derive(Clone, Copy, Debug, PartialEq, Eq)]
pub struct Sizes {
    pub nodes: usize,
    pub bits: usize,
    pub side: usize,
    pub roots: usize,
    pub names: usize,
    pub variables: usize,
    pub anames: usize,
    pub arrays: usize,
    pub fnames: usize,
    pub functions: usize,
}

// Why a script is not read, by the refusal's number.
#[derive(Clone, Copy, Debug, PartialEq, Eq)]
pub enum ReadError {
    // The bytes are no problem's script.
    NoScript = 13,
    // Its problem is over a limit, or has a number that a record cannot hold.
    Limit = 9,
    // A lent output is shorter than what belongs there.
    Room = 10,
}

// A refusal's number. Ruled out: numbers from 0 on; those of `Limit` and `Room` the other way about.
impl From<ReadError> for u64 {
    ghost from_gives = { λ e n. n ≡ error_number e };

    fn from(e: ReadError) -> u64 {
        e as u64
    }
}

// What is not rebuilt is not read. Ruled out: `Limit` told of bytes that are no script; `Room` told of a problem over a limit.
impl From<Unread> for ReadError {
    ghost from_gives = { λ u e. e ≡ refusal_of u };

    fn from(u: Unread) -> ReadError {
        match u {
            Unread::NoScript => ReadError::NoScript,
            Unread::Limit => ReadError::Limit,
        }
    }
}

// What is decided of a script that is read: its header, and what it needs.
#[derive(Clone, Copy)]
pub struct Decision {
    pub header: Header,
    pub sizes: Sizes,
}

// What bytes are refused with whose problem would be over a limit: they are a script, or none.
fn over_limit(script: &Script, from: usize) -> Unread
    requires { ((D : Declarations) × Declares script.now D) × (from ≤ length script.now.text.now) }
    ensures { (D : Declarations) → Declares script.now D → OverTo script.now.text.now D from result }
{
    match assertions(script, from) {
        None => Unread::NoScript,
        Some(_) => Unread::Limit,
    }
}

// The script's problem, rebuilt. Kept: table, heap and roots apart, since what reads them afterwards takes each alone: a `Script` the table,
// and the outputs heap and roots. Ruled out: a limit told of bytes that are no script; a problem over a limit that is told as whole; roots left out.
pub fn rebuild_script(
    s: &[u8],
    t: &mut Table,
    heap: &mut Heap,
    roots: &mut [u64; MAX_ROOTS],
) -> Result<Rebuilt, Unread>
    requires { Empty t.old × Held heap.old [] × Stacked s.now heap.old [] × (length roots.old ≡ MAX_ROOTS) }
    ensures { RebuiltTo s.now t.new heap.new roots.new result }
{
    let header = check_header(s, t).ok_or(Unread::NoScript)?;
    let script = Script {
        text: s,
        table: t,
        header,
    };
    let from = header.end;
    let Some(arenas) = arenas_within(&script) else {
        return Err(over_limit(&script, from));
    };
    let called = called_in(&script, from);
    match place_script(&script, &called, heap, roots, from) {
        Ok(roots) => Ok(Rebuilt {
            header,
            arenas,
            roots,
        }),
        Err(Unread::NoScript) => Err(Unread::NoScript),
        Err(Unread::Limit) => Err(over_limit(&script, from)),
    }
}

// ---------------------------------------------------------------- room

// How many outputs there are.
pub const OUTPUTS: usize = 18;

impl Sizes {
    // The lengths of all eighteen outputs.
    fn lengths(&self) -> [usize; OUTPUTS]
        ensures { result ≡ needs_of self.now }
    {
        [
            self.nodes,
            self.bits,
            self.side,
            self.roots,
            self.names,
            self.variables,
            self.variables,
            self.variables,
            self.variables,
            self.anames,
            self.arrays,
            self.arrays,
            self.arrays,
            self.arrays,
            self.fnames,
            self.functions,
            self.functions,
            self.functions,
        ]
    }
}

// Is each number at most the one in its place?
fn fits(need: &[usize; OUTPUTS], room: &[usize; OUTPUTS]) -> bool
    requires { (length need.now ≡ OUTPUTS) × (length room.now ≡ OUTPUTS) }
    ensures { IsTrue result ↔ EachIndex need.now (λ k. slice_index need.now k ≤ slice_index room.now k) }
{
    need.iter().zip(room).all(|(n, m)| n <= m)
}

// How many elements each of the outputs needs, of a script whose problem stands in the arrays.
fn needed(x: &Rebuilt, heap: &Heap) -> Sizes
    requires { (s : List ℕ) × (t : Table) × (roots : List ℕ) × RebuiltTo s t heap.now roots (Ok x.now) }
    ensures { (s : List ℕ) (t : Table) (roots : List ℕ) (w : RebuiltTo s t heap.now roots (Ok x.now))
        → needs_of result ≡ lengths_of (inputs (rebuild (reading_of w.0.declarations w.0.trees))) }
{
    Sizes {
        nodes: RECORD * heap.count,
        bits: heap.bit_count,
        side: heap.side_count,
        roots: x.roots,
        names: x.arenas.names,
        variables: x.header.variables,
        anames: x.arenas.anames,
        arrays: x.header.arrays - x.header.variables,
        fnames: x.arenas.fnames,
        functions: x.header.names - x.header.arrays,
    }
}

// Whether a script is read, where so many elements of each output are lent: then its problem stands in the arrays, and the sizes say how
// many elements each output needs. Ruled out: `Room` told before `Limit`; an acceptance where the last output is too short.
pub fn decide(
    s: &[u8],
    t: &mut Table,
    heap: &mut Heap,
    roots: &mut [u64; MAX_ROOTS],
    room: &[usize; OUTPUTS],
) -> Result<Decision, ReadError>
    requires { Empty t.old × Held heap.old [] × Stacked s.now heap.old [] × (length roots.old ≡ MAX_ROOTS) × (length room.now ≡ OUTPUTS) }
    ensures { Decided s.now t.new heap.new roots.new room.now result }
{
    let x = rebuild_script(s, t, heap, roots)?;
    let sizes = needed(&x, heap);
    if !fits(&sizes.lengths(), room) {
        return Err(ReadError::Room);
    }
    Ok(Decision {
        header: x.header,
        sizes,
    })
}
