// An addition to the nodes that are rebuilt so far (`Heap`): the number of its node, or that the nodes would be over a limit.
// Under "Ruled out" stand wrong programs that a public function's contract refuses.
#![tactic(auto)]

ghost use Rattle.std.specs.Prelude.{◌≡◌, List, [], ◌∷◌, ◌++◌, map, ℕ, ◌+◌, ◌*◌, ◌-◌, ◌/◌, ◌≤◌, ◌<◌, T, length, take, drop, get_or};
ghost use Rattle.std.proofs.Math.Option.{some};
ghost use Rattle.std.proofs.Math.ListN.{get_elem?};
ghost use Rattle.smtlib.specs.Readings.{bits_of};
ghost use Rattle.echo_spec.specs.Shapes.{shape_of};
ghost use Rattle.readback.specs.Records.{le32, record_bytes, holdable};
ghost use Rattle.readback.specs.Rebuild.{
  Item,
  a_variable,
  a_constant,
  an_operator,
  a_select,
  a_call,
  flat,
  find_constant,
  Ref,
  here,
  pending,
  low_bits,
  fields,
  node_with,
};
ghost use Rattle.script_tokens.specs.Reached.{between};
ghost use Rattle.lent.specs.Records.{node_of};
ghost use Rattle.heap_laws.specs.Heap.{stack_size, hash_from, hash_of, bits_at, ref_at, halves, pairs_back, Held, Stacked};
ghost use Rattle.heap_laws.specs.Filled.{filled};
ghost use Rattle.script_heap.specs.Told.{Holds, HoldsNodes, Told, ConstantTold, RefTold, Half, SameStores, StillHeld, Waits, AllTold, Recorded, Entered, Compared, DigitsTo, ConstantAt, found_as};

use echo_names::same_bytes;
use heap_laws::{Constant, HASHES, Heap, OverLimit, SIDE, STACK};
use lent::Node;
use refusals::{MAX_BITS, MAX_NODES, RECORD};
use script_tokens::digits_end;

// The largest number that a record can hold.
const LARGEST: u64 = u32::MAX as u64;

// Of a long constant only so many of the lowest bits count for its hash, which costs the same for all longer ones.
const HASHED_BITS: usize = 48;

// The hashes that are used: the largest prime up to `HASHES`.
const HASH_PRIME: u64 = 4093;

// Of an even operand below twice this the half is a node's number; from there on what the half has above it is a constant's: the place of its digits,
// and `PLACES` times how many digits there are. With a place below `PLACES` and a count below `COUNTS` that is less than this, and the operand below 2^64.
const SPANNED: u64 = 1 << 62;

const PLACES: usize = 1 << 44;

// A constant with as many digits or more, or farther on in the script, is an operand by its place alone.
const COUNTS: usize = 1 << 18;

// The kinds of nodes that no operator has, as a record numbers them.
#[derive(Clone, Copy)]
enum Kind {
    Variable = 0,
    Constant = 1,
    Select = 37,
    Call = 38,
}

// ---------------------------------------------------------------- records

// 32 bits, the lowest byte first.
fn write_word(records: &mut [u8], at: usize, v: u32)
    requires { at + 4 ≤ length records.old }
    ensures { records.new ≡ filled records.old at (le32 v) }
{
    records[at..at + 4].copy_from_slice(&v.to_le_bytes());
}

fn write_record(records: &mut [u8], at: usize, n: Node)
    requires room { at + RECORD ≤ length records.old }
    requires fits { T (holdable (node_of n)) }
    ensures { records.new ≡ filled records.old at (record_bytes (node_of n)) }
{
    records[at] = n.kind;
    write_word(records, at + 1, n.a as u32);
    write_word(records, at + 5, n.b as u32);
    write_word(records, at + 9, n.c as u32);
    write_word(records, at + 13, n.d as u32);
}

// Can a record hold the node?
fn fits(n: Node) -> bool
    ensures { result ≡ holdable (node_of n) }
{
    n.a <= LARGEST && n.b <= LARGEST && n.c <= LARGEST && n.d <= LARGEST
}

// The next record, and one node more.
fn add_record(heap: &mut Heap, n: Node) -> Result<u64, OverLimit>
    ensures bits { heap.new.bits ≡ heap.old.bits }
    ensures recorded { Recorded heap.old heap.new (node_of n) result }
{
    let k = heap.count;
    if k >= MAX_NODES || !fits(n) {
        return Err(OverLimit);
    }
    write_record(&mut heap.records, RECORD * k, n);
    heap.count = k + 1;
    Ok(k as u64)
}

// ---------------------------------------------------------------- nodes without side entries

// Kept: in each record the numbers that are 0 stand as they are written, and not as a default of `Node`.
// A variable. Ruled out: a width of 33 bits cut to 32; node 2,048.
pub fn add_variable(heap: &mut Heap, width: u64) -> Result<u64, OverLimit>
    ensures bits { heap.new.bits ≡ heap.old.bits }
    ensures told { (bits : List ℕ) (s : List Item) → let before = record heap.old { bits = bits } in let after = record heap.new { bits = bits } in
        Held before s → Told before after heap.old.top (s ++ (a_variable width ∷ [])) (length s) result }
{
    add_record(
        heap,
        Node {
            kind: Kind::Variable as u8,
            a: width,
            b: 0,
            c: 0,
            d: 0,
        },
    )
}

// An operator, by its record; of the operands that wait `base` are left. Ruled out: an operand over 32 bits; the record of the node
// before it written over.
pub fn add_operator(heap: &mut Heap, base: usize, n: Node) -> Result<u64, OverLimit>
    ensures bits { heap.new.bits ≡ heap.old.bits }
    ensures told { (bits : List ℕ) (s : List Item) (ks xs ms : List ℕ) → let before = record heap.old { bits = bits } in let after = record heap.new { bits = bits } in
        Held before s → node_with n.kind (fields (shape_of n.kind) ks xs ms) ≡ node_of n
        → Told before after base (s ++ (an_operator n.kind ks xs ms ∷ [])) (length s) result }
{
    heap.top = base;
    add_record(heap, n)
}

// ---------------------------------------------------------------- operands that wait

fn push(heap: &mut Heap, v: u64) -> Result<(), OverLimit>
    ensures same { SameStores heap.old heap.new }
    ensures held { StillHeld heap.old heap.new }
    ensures pushed { (script : List ℕ) → Waits script heap.old heap.new (ref_at script v) result }
{
    let t = heap.top;
    if t >= STACK {
        return Err(OverLimit);
    }
    heap.stack[t] = v;
    heap.top = t + 1;
    Ok(())
}

// A node waits as an operand, where there is room. Ruled out: one that is put below the last; a number that is taken for a
// constant's place.
pub fn push_node(heap: &mut Heap, i: u64) -> Result<(), OverLimit>
    requires { i < SPANNED }
    ensures same { SameStores heap.old heap.new }
    ensures held { StillHeld heap.old heap.new }
    ensures pushed { (script : List ℕ) → Waits script heap.old heap.new (here i) result }
{
    push(heap, 2 * i)
}

// A constant as an operand: by the place of its digits and how many there are, as far as one number holds both, so that they are not counted again.
fn constant_operand(s: &[u8], p: usize, w: usize) -> u64
    requires { (p ≤ length s.now) × (bits_of (between s.now p (p + w)) ≡ bits_at s.now p) }
    ensures { ref_at s.now result ≡ pending (bits_at s.now p) }
{
    if p < PLACES && w < COUNTS {
        return 2 * (SPANNED + (p + PLACES * w) as u64);
    }
    2 * (p as u64) + 1
}

// A constant, by the place of its digits and their number. Ruled out: the place taken for a node's number; the digits one place on.
pub fn push_constant(s: &[u8], heap: &mut Heap, p: usize, w: usize) -> Result<(), OverLimit>
    requires { (p ≤ length s.now) × (bits_of (between s.now p (p + w)) ≡ bits_at s.now p) }
    ensures same { SameStores heap.old heap.new }
    ensures held { StillHeld heap.old heap.new }
    ensures pushed { Waits s.now heap.old heap.new (pending (bits_at s.now p)) result }
{
    push(heap, constant_operand(s, p, w))
}

// The node that waits at place i. Ruled out: the one above it; twice its number.
pub fn operand(heap: &Heap, i: usize) -> u64
    requires { i < stack_size }
    ensures waits { (script : List ℕ) (refs : List Ref) (x : ℕ) → Stacked script heap.now refs → get_elem? refs i ≡ some (here x) → result ≡ x }
    ensures half { result ≡ get_or heap.now.stack i 0 / 2 }
{
    heap.stack[i] / 2
}

// ---------------------------------------------------------------- nodes with side entries

// `count` operands from place `base` on become side entries from place `from` on.
fn copy_operands(side: &mut [u64], stack: &[u64], from: usize, base: usize, count: usize)
    requires side_room { from + count ≤ length side.old }
    requires operands { base + count ≤ length stack.now }
    ensures { side.new ≡ filled side.old from (halves (take count (drop base stack.now))) }
{
    for (i, operand) in stack[base..base + count].iter().enumerate() {
        side[from + i] = operand / 2;
    }
}

// n pairs of operands from place `base` on become side entries from place `from` on, the last pair first.
fn copy_pairs(side: &mut [u64], stack: &[u64], from: usize, base: usize, n: usize)
    requires side_room { from + 2 * n ≤ length side.old }
    requires operands { base + 2 * n ≤ length stack.now }
    ensures { side.new ≡ filled side.old from (flat (pairs_back n (halves (drop base stack.now)))) }
{
    // Kept: by place, since the pairs go up and their operands down.
    for i in 0..n {
        let m = n - 1 - i;
        let at = from + 2 * i;
        side[at] = stack[base + 2 * m] / 2;
        side[at + 1] = stack[base + 2 * m + 1] / 2;
    }
}

// A call on the operands from place `base` on, which wait no more. Ruled out: one operand left out; the operands of the term around it
// taken too.
pub fn add_call(heap: &mut Heap, base: usize, g: u64, width: u64) -> Result<u64, OverLimit>
    requires holds { HoldsNodes heap.old }
    requires low { base ≤ heap.old.top }
    requires room { heap.old.top ≤ stack_size }
    ensures bits { heap.new.bits ≡ heap.old.bits }
    ensures told { (bits : List ℕ) (s : List Item) (script : List ℕ) (refs : List Ref) (xs : List ℕ) → let before = record heap.old { bits = bits } in let after = record heap.new { bits = bits } in
        Held before s → Stacked script heap.old refs → drop base refs ≡ map here xs
        → Told before after base (s ++ (a_call g width xs ∷ [])) (length s) result }
{
    let count = heap.top - base;
    let side = heap.side_count;
    if count > SIDE - side {
        return Err(OverLimit);
    }
    copy_operands(&mut heap.side, &heap.stack, side, base, count);
    heap.side_count = side + count;
    heap.top = base;
    add_record(
        heap,
        Node {
            kind: Kind::Call as u8,
            a: g,
            b: width,
            c: side as u64,
            d: count as u64,
        },
    )
}

// A select with `stores` stores. The operands from place `base` on wait no more: index and value of each store, the innermost first, and
// the select's own index. Ruled out: the innermost store as the first pair; a value in the place of its index.
pub fn add_select(heap: &mut Heap, base: usize, stores: usize, array: u64) -> Result<u64, OverLimit>
    requires holds { HoldsNodes heap.old }
    requires room { base + (2 * stores + 1) ≤ stack_size }
    ensures bits { heap.new.bits ≡ heap.old.bits }
    ensures told { (bits : List ℕ) (s : List Item) (script : List ℕ) (refs : List Ref) (xs : List ℕ) → let before = record heap.old { bits = bits } in let after = record heap.new { bits = bits } in
        Held before s → Stacked script heap.old refs → drop base refs ≡ map here xs → length xs ≡ 2 * stores + 1
        → Told before after base (s ++ (a_select array (get_or xs (2 * stores) 0) (pairs_back stores xs) ∷ [])) (length s) result }
{
    let side = heap.side_count;
    if stores > (SIDE - side) / 2 {
        return Err(OverLimit);
    }
    let index = operand(heap, base + 2 * stores);
    copy_pairs(&mut heap.side, &heap.stack, side, base, stores);
    heap.side_count = side + 2 * stores;
    heap.top = base;
    add_record(
        heap,
        Node {
            kind: Kind::Select as u8,
            a: array,
            b: index,
            c: side as u64,
            d: stores as u64,
        },
    )
}

// ---------------------------------------------------------------- constants, found by hash

// The number of the bits, as far as 64 bits hold it.
fn hash_bits(bits: &[u8]) -> u64
    ensures { result ≡ hash_from 0 bits.now }
{
    let mut h: u64 = 0;
    // Kept: a loop in place of `fold`, since its law tells the hash of the bits that are left.
    for b in bits {
        h = h.wrapping_mul(2).wrapping_add(u64::from(*b));
    }
    h
}

// The hash of a constant.
fn hash_at(bits: &[u8]) -> usize
    ensures { result ≡ hash_of bits.now }
{
    let lowest = &bits[..bits.len().min(HASHED_BITS)];
    ((hash_bits(lowest) % HASH_PRIME + bits.len() as u64) % HASH_PRIME) as usize
}

// Is node k, a constant, that of these bits?
fn is_at(heap: &Heap, k: usize, bits: &[u8]) -> bool
    requires { ConstantAt heap.now k }
    ensures { (s : List Item) (ds : List ℕ) → Held heap.now s → get_elem? s k ≡ some (a_constant ds) → Compared ds bits.now result }
{
    let x = heap.constants[k];
    same_bytes(&heap.bits[x.start..x.start + x.width], bits)
}

// The node of the constant of these bits, with hash j, if it has one.
// Kept: a walk along a chain, as in script_names. The links there are those of lines; one walk for both would take the links and the comparison
// as closures over the table and over the nodes.
fn find_bits(heap: &Heap, j: usize, bits: &[u8]) -> Option<u16>
    requires holds { Holds heap.now }
    requires hash { j ≡ hash_of bits.now }
    ensures { (s : List Item) → Held heap.now s → result ≡ found_as (find_constant bits.now s) }
{
    let mut link = heap.heads[j];
    while let Some(n) = link {
        let k = usize::from(n);
        if is_at(heap, k, bits) {
            return Some(n);
        }
        link = heap.constants[k].before;
    }
    None
}

// A constant of the w bits behind those in use, with hash j, is the next node.
fn enter_constant(heap: &mut Heap, j: usize, w: usize) -> Result<u64, OverLimit>
    requires small { j < HASHES }
    requires room { heap.old.bit_count + w ≤ MAX_BITS }
    ensures { Entered heap.old heap.new j w result }
{
    let before = heap.heads[j];
    let start = heap.bit_count;
    let n = add_record(
        heap,
        Node {
            kind: Kind::Constant as u8,
            a: start as u64,
            b: w as u64,
            c: 0,
            d: 0,
        },
    )?;
    heap.constants[n as usize] = Constant {
        start,
        width: w,
        before,
    };
    heap.heads[j] = Some(n as u16);
    heap.bit_count = start + w;
    Ok(n)
}

// The constant of the w bits behind those in use has its node.
fn settle(heap: &mut Heap, w: usize) -> Result<u64, OverLimit>
    requires holds { Holds heap.old }
    requires few { w ≤ MAX_BITS }
    ensures { (s : List Item) → Held heap.old s → ConstantTold heap.old heap.new (take w (drop heap.old.bit_count heap.old.bits)) s result }
{
    let at = heap.bit_count;
    let nodes: &Heap = heap;
    let bits = &nodes.bits[at..at + w];
    let j = hash_at(bits);
    if let Some(k) = find_bits(nodes, j, bits) {
        return Ok(u64::from(k));
    }
    if w > MAX_BITS - at {
        return Err(OverLimit);
    }
    enter_constant(heap, j, w)
}

// ---------------------------------------------------------------- constants, from digits and from numbers

// The place after the digits from place p on.
fn digits_to(s: &[u8], p: usize) -> usize
    ensures { DigitsTo s.now p result }
{
    if p > s.len() {
        return p;
    }
    digits_end(s, p)
}

// Kept: what is stored from a place on is told of the whole array here and above, as the laws of the nodes have it; a part that is lent would be put
// back into the array in the proof of each caller.

// The bits of the digits between two places, stored from place `at` on, the lowest first.
fn digits_in(s: &[u8], bits: &mut [u8], at: usize, p: usize, e: usize)
    requires low { p ≤ e }
    requires inside { p < e → e ≤ length s.now }
    requires room { at + (e - p) ≤ length bits.old }
    ensures { bits.new ≡ filled bits.old at (bits_of (between s.now p e)) }
{
    let n = e - p;
    // Kept: by place. Each turn stores the last of the digits that are left; `rev` and `enumerate` would give the bit's place alone, and the proof
    // is about both.
    for i in 0..n {
        let k = n - 1 - i;
        bits[at + i] = s[p + k].saturating_sub(b'0');
    }
}

// The w lowest bits of a number, stored from place `at` on, the lowest first.
fn number_in(bits: &mut [u8], at: usize, value: u64, w: usize)
    requires { at + w ≤ length bits.old }
    ensures { bits.new ≡ filled bits.old at (low_bits w value) }
{
    let mut v = value;
    for bit in &mut bits[at..at + w] {
        *bit = (v % 2) as u8;
        v /= 2;
    }
}

// The constant of the digits between two places has its node.
fn settle_digits(s: &[u8], heap: &mut Heap, p: usize, e: usize) -> Result<u64, OverLimit>
    requires holds { Holds heap.old }
    requires low { p ≤ e }
    requires inside { p < e → e ≤ length s.now }
    ensures { (t : List Item) → Held heap.old t → ConstantTold heap.old heap.new (bits_of (between s.now p e)) t result }
{
    let w = e - p;
    if w > MAX_BITS {
        return Err(OverLimit);
    }
    let at = heap.bit_count;
    digits_in(s, &mut heap.bits, at, p, e);
    settle(heap, w)
}

// The constant of the number's lowest bits has its node. Ruled out: a second node for a constant that has one; the highest bit first.
pub fn settle_number(heap: &mut Heap, value: u64, width: u64) -> Result<u64, OverLimit>
    requires { Holds heap.old }
    ensures { (s : List Item) → Held heap.old s → ConstantTold heap.old heap.new (low_bits width value) s result }
{
    let w = width as usize;
    if w > MAX_BITS {
        return Err(OverLimit);
    }
    let at = heap.bit_count;
    number_in(&mut heap.bits, at, value, w);
    settle(heap, w)
}

// The operand that a number stands for has its node.
fn settle_one(s: &[u8], heap: &mut Heap, c: u64) -> Result<u64, OverLimit>
    requires { Holds heap.old }
    ensures told { (t : List Item) → Held heap.old t → RefTold heap.old heap.new (ref_at s.now c) t result }
    ensures half { Half result }
{
    let half = c / 2;
    if c % 2 == 1 {
        let p = half as usize;
        let e = digits_to(s, p);
        return settle_digits(s, heap, p, e);
    }
    if half < SPANNED {
        return Ok(half);
    }
    let x = (half - SPANNED) as usize;
    let p = x % PLACES;
    let e = (p + x / PLACES).min(s.len());
    settle_digits(s, heap, p.min(e), e)
}

// Every operand from place `base` on has its node, in order. Ruled out: a constant that is used twice placed twice; one past the last
// operand settled.
pub fn settle_all(s: &[u8], heap: &mut Heap, base: usize) -> Result<(), OverLimit>
    requires holds { Holds heap.old }
    requires room { heap.old.top ≤ stack_size }
    ensures { (t : List Item) (refs : List Ref) → Held heap.old t → Stacked s.now heap.old refs
        → AllTold s.now heap.new base t refs result }
{
    // Kept: by place, since each turn changes the heap that the operands wait in.
    for i in base..heap.top {
        let c = heap.stack[i];
        let m = settle_one(s, heap, c)?;
        heap.stack[i] = 2 * m;
    }
    Ok(())
}
