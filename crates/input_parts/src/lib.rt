// The printer's eighteen inputs as parts of one byte string, by the number of the input, from 0: where the elements of each begin and how
// many there are. Who has a problem in bytes finds the parts, and this calls the entry point that is asked for with what lies there.
// Under "Ruled out" stand wrong programs that a public function's contract refuses.
#![tactic(auto)]

ghost use Rattle.std.specs.Prelude.{◌≡◌, ◌+◌, ◌*◌, ◌≤◌, ◌<◌, length, take};
ghost use Rattle.echo_spec.specs.Answers.{echo_ext_answer};
ghost use Rattle.sizes.specs.Size.{echo_size_answer};
ghost use Rattle.hidden.specs.Hidden.{echo_hidden_answer};
ghost use Rattle.lets.specs.Lets.{echo_let_answer};
ghost use Rattle.fewest.specs.Fewest.{fewest_roots_answer};
ghost use Rattle.formula_answers.specs.Answers.{echo_formulas_answer};
ghost use Rattle.lent.specs.Lent.{problem_at};
ghost use Rattle.echo_kernel.specs.Answered.{answered};
ghost use Rattle.echo_size.specs.Sized as sized;
ghost use Rattle.fewest_roots.specs.Answered as chosen;
ghost use Rattle.input_parts.specs.Parts.{size_of, room_of, word64, bytes_part, numbers_part, problem_from};
ghost use Rattle.input_parts.specs.Lying.{Inside, Filled};

use echo_size::Size;
use fewest_roots::Fewest;
use lent::Problem;
use refusals::{EchoError, MAX_ARENA, MAX_BITS, MAX_ENTRIES, MAX_NODE_BYTES, MAX_ROOTS, MAX_SIDE};

// 64 bits from place i on, least significant byte first. Ruled out: the four high bytes first; the low four alone.
// Kept: two halves, as the definition has them; `from_le_bytes` would take an array of eight bytes, and is no shorter.
pub fn word64(s: &[u8], i: usize) -> u64
    requires { i + 8 ≤ length s.now }
    ensures { result ≡ word64 s.now i }
{
    lent::word32(s, i) + 4294967296 * lent::word32(s, i + 4)
}

// ---------------------------------------------------------------- the inputs

// How many inputs there are.
pub const INPUTS: usize = 18;

// The room of the columns that hold numbers: somewhat more than the limits, so that what is over a limit is handed on.
const SPARE: usize = 8;

pub const SIDE: usize = MAX_SIDE + SPARE;

pub const ROOTS: usize = MAX_ROOTS + SPARE;

pub const ENTRIES: usize = MAX_ENTRIES + SPARE;

// What the elements of an input are: bytes, or numbers of eight bytes each.
#[derive(Clone, Copy, Debug, PartialEq, Eq)]
pub enum Elements {
    Bytes,
    Numbers,
}

// What is fixed of an input: its name, the largest count, and what its elements are.
// Kept: without names for these, so that each of the eighteen rows below is one line.
pub struct Input(pub &'static [u8], pub usize, pub Elements);

pub static TABLE: [Input; INPUTS] = [
    Input(b"nodes", MAX_NODE_BYTES, Elements::Bytes),
    Input(b"bits", MAX_BITS, Elements::Bytes),
    Input(b"side", MAX_SIDE, Elements::Numbers),
    Input(b"roots", MAX_ROOTS, Elements::Numbers),
    Input(b"names", MAX_ARENA, Elements::Bytes),
    Input(b"name_start", MAX_ENTRIES, Elements::Numbers),
    Input(b"name_len", MAX_ENTRIES, Elements::Numbers),
    Input(b"var_node", MAX_ENTRIES, Elements::Numbers),
    Input(b"var_width", MAX_ENTRIES, Elements::Numbers),
    Input(b"anames", MAX_ARENA, Elements::Bytes),
    Input(b"aname_start", MAX_ENTRIES, Elements::Numbers),
    Input(b"aname_len", MAX_ENTRIES, Elements::Numbers),
    Input(b"index_width", MAX_ENTRIES, Elements::Numbers),
    Input(b"value_width", MAX_ENTRIES, Elements::Numbers),
    Input(b"fnames", MAX_ARENA, Elements::Bytes),
    Input(b"fname_start", MAX_ENTRIES, Elements::Numbers),
    Input(b"fname_len", MAX_ENTRIES, Elements::Numbers),
    Input(b"func_width", MAX_ENTRIES, Elements::Numbers),
];

// The bytes of n elements of input k. Ruled out: as many bytes as numbers; eight bytes for one of the names.
pub fn span(k: usize, n: usize) -> usize
    requires { (k < INPUTS) × (n < 4294967296) }
    ensures { (result ≡ size_of k * n) × (result ≤ 8 * n) }
{
    match TABLE[k].2 {
        Elements::Bytes => n,
        Elements::Numbers => 8 * n,
    }
}

// How many elements of input k there is room for: bytes, as many as 32 bits can count, or as many numbers as a column has room for. Ruled out:
// the limit itself, of numbers; the room of the input before it.
pub fn room(k: usize) -> usize
    requires { k < INPUTS }
    ensures { result ≡ room_of k }
{
    let Input(_, limit, elements) = TABLE[k];
    match elements {
        Elements::Bytes => u32::MAX as usize,
        Elements::Numbers => limit + SPARE,
    }
}

// ---------------------------------------------------------------- the parts

// Where the elements of an input begin, and how many there are.
#[derive(Clone, Copy, Debug, PartialEq, Eq)]
pub struct Part {
    pub start: usize,
    pub count: usize,
}

impl Part {
    // No elements.
    pub const NONE: Part = Part { start: 0, count: 0 };
}

// A problem in bytes: the part of each input, which lies within them, and for whose elements there is room.
#[derive(Clone, Copy)]
pub struct Parts<'a> {
    pub bytes: &'a [u8],
    pub at: [Part; INPUTS],
    ghost inside: { Inside bytes.now at },
}

impl<'a> Parts<'a> {
    // The elements of input k, where they are bytes.
    fn bytes_of(&self, k: usize) -> &'a [u8]
        requires { k < INPUTS }
        ensures { result.now ≡ bytes_part self.now.bytes.now self.now.at k }
    {
        let part = self.at[k];
        &self.bytes[part.start..part.start + part.count]
    }

    // The elements of input k, where they are numbers.
    fn column<const N: usize>(&self, k: usize) -> Column<N>
        requires { (k < INPUTS) × (size_of k ≡ 8) × (room_of k ≤ N) }
        ensures { take result.count result.numbers ≡ numbers_part self.now.bytes.now self.now.at k }
    {
        let part = self.at[k];
        let mut numbers = [0u64; N];
        for (i, x) in numbers[..part.count].iter_mut().enumerate() {
            *x = word64(self.bytes, part.start + 8 * i);
        }
        Column {
            numbers,
            count: part.count,
        }
    }
}

// ---------------------------------------------------------------- the columns

// The numbers of an input, at the front of a column with room for N.
// Kept: an array and a count, since the columns are of this crate, which has no heap.
#[derive(Drop)]
struct Column<const N: usize> {
    numbers: [u64; N],
    count: usize,
    ghost within: { count ≤ N },
}

impl<const N: usize> Column<N> {
    fn taken(&self) -> &[u64]
        ensures { result.now ≡ take self.now.count self.now.numbers }
    {
        &self.numbers[..self.count]
    }
}

// The numbers of a problem in bytes, beside its parts.
#[derive(Drop)]
pub struct Columns<'a> {
    parts: &'a Parts<'a>,
    side: Column<SIDE>,
    roots: Column<ROOTS>,
    name_start: Column<ENTRIES>,
    name_len: Column<ENTRIES>,
    var_node: Column<ENTRIES>,
    var_width: Column<ENTRIES>,
    aname_start: Column<ENTRIES>,
    aname_len: Column<ENTRIES>,
    index_width: Column<ENTRIES>,
    value_width: Column<ENTRIES>,
    fname_start: Column<ENTRIES>,
    fname_len: Column<ENTRIES>,
    func_width: Column<ENTRIES>,
    ghost filled: { Filled parts.now.bytes.now parts.now.at (take side.count side.numbers) (take roots.count roots.numbers) (take name_start.count name_start.numbers) (take name_len.count name_len.numbers) (take var_node.count var_node.numbers) (take var_width.count var_width.numbers) (take aname_start.count aname_start.numbers) (take aname_len.count aname_len.numbers) (take index_width.count index_width.numbers) (take value_width.count value_width.numbers) (take fname_start.count fname_start.numbers) (take fname_len.count fname_len.numbers) (take func_width.count func_width.numbers) },
}

impl<'a> Columns<'a> {
    // Ruled out: the roots' numbers for side entries; the columns of other parts.
    #[tactic(auto, unfolding(crate::specs::Parts::sizes, crate::specs::Parts::size_of, crate::specs::Parts::rooms, crate::specs::Parts::room_of))]
    pub fn new(parts: &'a Parts<'a>) -> Columns<'a>
        ensures { result.parts.now ≡ parts.now }
    {
        Columns {
            parts,
            side: parts.column(2),
            roots: parts.column(3),
            name_start: parts.column(5),
            name_len: parts.column(6),
            var_node: parts.column(7),
            var_width: parts.column(8),
            aname_start: parts.column(10),
            aname_len: parts.column(11),
            index_width: parts.column(12),
            value_width: parts.column(13),
            fname_start: parts.column(15),
            fname_len: parts.column(16),
            func_width: parts.column(17),
        }
    }

    // The problem as it is lent. Ruled out: the names of variables for those of arrays; a column that keeps its zeros.
    #[tactic(auto, unfolding(crate::specs::Parts::problem_from))]
    pub fn problem(&self) -> Problem<'_>
        ensures { problem_at result ≡ problem_from self.now.parts.now.bytes.now self.now.parts.now.at }
    {
        let parts = self.parts;
        Problem {
            nodes: parts.bytes_of(0),
            bits: parts.bytes_of(1),
            side: self.side.taken(),
            roots: self.roots.taken(),
            names: parts.bytes_of(4),
            name_start: self.name_start.taken(),
            name_len: self.name_len.taken(),
            var_node: self.var_node.taken(),
            var_width: self.var_width.taken(),
            anames: parts.bytes_of(9),
            aname_start: self.aname_start.taken(),
            aname_len: self.aname_len.taken(),
            index_width: self.index_width.taken(),
            value_width: self.value_width.taken(),
            fnames: parts.bytes_of(14),
            fname_start: self.fname_start.taken(),
            fname_len: self.fname_len.taken(),
            func_width: self.func_width.taken(),
        }
    }
}

// ---------------------------------------------------------------- what is asked

// The printer's answer to the problem in bytes. Ruled out: the side entries handed over as roots; a column that keeps its zeros.
pub fn print_parts(parts: &Parts, out: &mut [u8]) -> Result<usize, EchoError>
    ensures { answered result out.new ≡ echo_ext_answer (problem_from parts.now.bytes.now parts.now.at) out.old }
{
    echo_kernel::echo_ext(&Columns::new(parts).problem(), out)
}

// The same with constants hidden. Ruled out: the plain script; a column that keeps its zeros.
pub fn hidden_parts(parts: &Parts, out: &mut [u8]) -> Result<usize, EchoError>
    ensures { answered result out.new ≡ echo_hidden_answer (problem_from parts.now.bytes.now parts.now.at) out.old }
{
    echo_hidden::echo_hidden(&Columns::new(parts).problem(), out)
}

// The script with shared terms bound by `let`. Ruled out: the plain script; the problem of other parts.
pub fn let_parts(parts: &Parts, out: &mut [u8]) -> Result<usize, EchoError>
    ensures { answered result out.new ≡ echo_let_answer (problem_from parts.now.bytes.now parts.now.at) out.old }
{
    echo_let::echo_let(&Columns::new(parts).problem(), out)
}

// Its roots as formulas. Ruled out: the script; the problem of other parts.
pub fn formula_parts(parts: &Parts, out: &mut [u8]) -> Result<usize, EchoError>
    ensures { answered result out.new ≡ echo_formulas_answer (problem_from parts.now.bytes.now parts.now.at) out.old }
{
    echo_formulas::echo_formulas(&Columns::new(parts).problem(), out)
}

// The size of the script. Ruled out: the side entries handed over as roots; a refusal of every problem.
pub fn size_parts(parts: &Parts) -> Result<Size, EchoError>
    ensures { sized.answered result ≡ echo_size_answer (problem_from parts.now.bytes.now parts.now.at) }
{
    echo_size::echo_size(&Columns::new(parts).problem())
}

// The fewest roots that still refuse. Ruled out: the problem of other parts; no root, whatever the problem.
pub fn fewest_parts(parts: &Parts) -> Fewest
    ensures { chosen.answered result ≡ fewest_roots_answer (problem_from parts.now.bytes.now parts.now.at) }
{
    fewest_roots::fewest_roots(&Columns::new(parts).problem())
}
