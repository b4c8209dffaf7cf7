// The arrays that hold the nodes that are rebuilt so far; `specs/` says how they are held there, and what an addition to them leaves so.
// Under "Ruled out" stand wrong programs that a public function's contract refuses.
#![tactic(auto)]

ghost use Rattle.std.specs.Prelude.{List, [], ℕ};
ghost use Rattle.heap_laws.specs.Heap.{Held, Stacked};

use refusals::{MAX_BITS, MAX_NODE_BYTES, MAX_NODES, MAX_SIDE};

// The bytes of the nodes' records.
pub const NODES: usize = MAX_NODE_BYTES;

// The bits of the constants; behind those in use stands a constant that may be new.
pub const BITS: usize = 2 * MAX_BITS;

// The side entries.
pub const SIDE: usize = MAX_SIDE;

// The nodes that may be constants.
pub const CONSTANTS: usize = MAX_NODES;

// The hashes of constants.
pub const HASHES: usize = 4096;

// The operands that may wait.
pub const STACK: usize = 2 * MAX_SIDE;

// The nodes would be over a limit, or one of them would have a number that a record cannot hold.
#[derive(Clone, Copy, Debug, PartialEq, Eq)]
pub struct OverLimit;

// Of a constant: where its bits start, how many it has, and the node of the constant before it with the same hash.
#[derive(Clone, Copy, Debug, PartialEq, Eq)]
pub struct Constant {
    pub start: usize,
    pub width: usize,
    pub before: Option<u16>,
}

// The nodes that are rebuilt so far. A node's number is a u64, as records, side entries and roots have it.
// Kept: a fixed array beside each number of what it holds, since the library has no heap; no invariant ties them, since between the stores
// of an addition only bounds hold, which follow from `Held`, and each law of `record heap { .. }` would have to show them again.
#[derive(Drop)]
pub struct Heap {
    pub count: usize,
    pub bit_count: usize,
    pub side_count: usize,
    // How many operands wait for the term around them to end.
    pub top: usize,
    pub side: [u64; SIDE],
    // What is known of each constant, by its node.
    pub constants: [Constant; CONSTANTS],
    // The node of the last constant of each hash.
    pub heads: [Option<u16>; HASHES],
    // Kept: an operand as one number, a node or a constant as `ref_at` has it; an enum with a place of the script takes 16 bytes, and so the array
    // 131,072 bytes more, which each script would have to clear.
    pub stack: [u64; STACK],
    pub records: [u8; NODES],
    pub bits: [u8; BITS],
}

impl Heap {
    // Arrays that hold no nodes yet. Ruled out: an operand that waits; a constant that is the last of its hash.
    pub fn new() -> Heap
        ensures held { Held result [] }
        ensures stacked { (s : List ℕ) → Stacked s result [] }
    {
        Heap {
            count: 0,
            bit_count: 0,
            side_count: 0,
            top: 0,
            side: [0; SIDE],
            constants: [Constant {
                start: 0,
                width: 0,
                before: None,
            }; CONSTANTS],
            heads: [None; HASHES],
            stack: [0; STACK],
            records: [0; NODES],
            bits: [0; BITS],
        }
    }
}
