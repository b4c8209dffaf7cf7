// The refusals with their numbers, and the limits on the inputs: each stands here once. Under "Ruled out" stand wrong programs that
// a function's contract refuses.
#![tactic(auto)]

ghost use Rattle.std.specs.Prelude.{◌≡◌};
ghost use Rattle.refusals.specs.Numbers.{error_number, Decodes, Numbered};

// ---------------------------------------------------------------- refusals

// Why a problem is refused: the Rust's seven, and five more; and why shorter records are. Each has its number, which stands for it outside
// the language; 0 is an acceptance, and 14 and 15 are the replay's of a trace alone (`replay_trace`).
#[derive(Clone, Copy, Debug, PartialEq, Eq)]
pub enum EchoError {
    // A node is not well formed, columns of a table differ in length, a root is not a node, or a select or call is of none in the tables.
    Malformed = 1,
    // A name is empty, has a byte that no quoted symbol has, is reserved, or is given twice.
    Name = 2,
    // A Bool where a bit-vector is wanted, or the other way about.
    Sort = 3,
    // A variable without an entry of its width, or an entry of width 0.
    Var = 4,
    // A rotation by what is not a constant, or of a width over 65,536.
    Rotate = 5,
    // An operator node is used more than once.
    Shared = 6,
    // A function is not called, or is called in another way than by its first call.
    Signature = 7,
    // The nodes or bits are encoded wrongly.
    Encoding = 8,
    // An input is over its limit.
    Limit = 9,
    // The result is longer than the lent buffer.
    Room = 10,
    // A declared name is one that a `let` would give to an operator with two uses or more.
    Clash = 11,
    // A width in the array table is 0 or over 65,536.
    ArrayWidth = 12,
    // Shorter records end inside one, or have an unknown kind.
    ShortRecord = 16,
}

// A refusal's number. Ruled out: numbers from 0 on; 8 and 9 the other way about.
impl From<EchoError> for u64 {
    ghost from_gives = { λ e n. n ≡ error_number e };

    fn from(e: EchoError) -> u64 {
        e as u64
    }
}

// A number that no refusal has.
#[derive(Clone, Copy, Debug, PartialEq, Eq)]
pub struct Unlisted(pub u64);

// The refusal with a number. Kept, though no code here calls it: who is told a number decodes it by this, and `Decodes` is its law. Ruled out: the one with the number before it; one refusal for two numbers; a listed number taken for none.
impl TryFrom<u64> for EchoError {
    type Error = Unlisted;

    ghost try_from_gives = { Decodes };

    fn try_from(n: u64) -> Result<EchoError, Unlisted> {
        match n {
            1 => Ok(EchoError::Malformed),
            2 => Ok(EchoError::Name),
            3 => Ok(EchoError::Sort),
            4 => Ok(EchoError::Var),
            5 => Ok(EchoError::Rotate),
            6 => Ok(EchoError::Shared),
            7 => Ok(EchoError::Signature),
            8 => Ok(EchoError::Encoding),
            9 => Ok(EchoError::Limit),
            10 => Ok(EchoError::Room),
            11 => Ok(EchoError::Clash),
            12 => Ok(EchoError::ArrayWidth),
            16 => Ok(EchoError::ShortRecord),
            _ => Err(Unlisted(n)),
        }
    }
}

// The refusal with a number that a problem is refused with. It cannot fail. Ruled out: the one with the number before it; one refusal for
// two numbers.
pub fn error_of(n: u64) -> EchoError
    requires { Numbered n }
    ensures { error_number result ≡ n }
{
    match n {
        1 => EchoError::Malformed,
        2 => EchoError::Name,
        3 => EchoError::Sort,
        4 => EchoError::Var,
        5 => EchoError::Rotate,
        6 => EchoError::Shared,
        7 => EchoError::Signature,
        8 => EchoError::Encoding,
        9 => EchoError::Limit,
        10 => EchoError::Room,
        11 => EchoError::Clash,
        _ => EchoError::ArrayWidth,
    }
}

// ---------------------------------------------------------------- limits

// Nodes, and the bytes of the record of one.
pub const MAX_NODES: usize = 2048;

pub const RECORD: usize = 17;

pub const MAX_NODE_BYTES: usize = MAX_NODES * RECORD;

// Bits, side entries and roots.
pub const MAX_BITS: usize = 131072;

pub const MAX_SIDE: usize = 8192;

pub const MAX_ROOTS: usize = 256;

// The entries of a table, the bytes of its names, and the widest index or value of an array.
pub const MAX_ENTRIES: usize = 512;

pub const MAX_ARENA: usize = 16384;

pub const MAX_ARRAY_WIDTH: u64 = 65536;

// The widest bit-vector that is rotated.
pub const MAX_ROTATED: u64 = 65536;
