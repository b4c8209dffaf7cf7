// The shape of a kind, and the two checks that need no widths: `Encoding`, and the nodes' part of `Limit`.
// Under "Ruled out" stand wrong programs that a public function's contract refuses.
#![tactic(auto)]

ghost use Rattle.std.specs.Prelude.{◌≡◌, ◌+◌, ◌*◌, ◌≤◌, ◌<◌, [], ◌∷◌, length, drop};
ghost use Rattle.lists.specs.Tests.{every};
ghost use Rattle.echo_spec.specs.Shapes as shapes;
ghost use Rattle.echo_spec.specs.Input as input;
ghost use Rattle.lent.specs.Records.{node_of};
ghost use Rattle.blast_kernel.specs.Records.{unused, bit};
ghost use Rattle.blast_kernel.specs.Kinds.{shape_in, IsKind};

use lent::{Node, node_at, node_count};
use refusals::{MAX_BITS, MAX_NODE_BYTES, MAX_SIDE, RECORD};

// How many kinds there are: 0 to 38.
// Kept: a count beside `Shape::Unknown`, since the definitions of an encoded record and of a shorter one compare a kind with it.
pub const KINDS: u8 = 39;

// What gives a vector of the width of its two.
#[derive(Clone, Copy, Debug, PartialEq, Eq)]
pub enum Binary {
    Add,
    Sub,
    Mul,
    Udiv,
    Urem,
    And,
    Or,
    Xor,
    Shl,
    Lshr,
    Ashr,
    Sdiv,
    Srem,
}

// What gives a Bool of two vectors.
#[derive(Clone, Copy, Debug, PartialEq, Eq)]
pub enum Comparison {
    Equal,
    Different,
    Ult,
    Ule,
    Ugt,
    Uge,
    Slt,
    Sle,
    Sgt,
    Sge,
}

#[derive(Clone, Copy, Debug, PartialEq, Eq)]
pub enum Unary {
    Not,
    Neg,
}

#[derive(Clone, Copy, Debug, PartialEq, Eq)]
pub enum Rotation {
    Right,
    Left,
}

#[derive(Clone, Copy, Debug, PartialEq, Eq)]
pub enum Extension {
    Zero,
    Sign,
}

// What gives a Bool of two.
#[derive(Clone, Copy, Debug, PartialEq, Eq)]
pub enum Connective {
    And,
    Or,
}

// The shapes of kinds: which operands a kind has and what they are. Where a shape has more kinds than one, it says which.
#[derive(Clone, Copy, Debug, PartialEq, Eq)]
pub enum Shape {
    Var,
    Const,
    Binary(Binary),
    Rotation(Rotation),
    Extraction,
    Concat,
    Extension(Extension),
    Ite,
    Comparison(Comparison),
    Negation,
    Connective(Connective),
    Unary(Unary),
    Select,
    Call,
    Unknown,
}

// A kind's shape: the table is a match, since a constant array would be stored anew at each use. Ruled out: a rotation as another binary
// operator; a kind past the last as a call; the unsigned division for the signed one.
impl From<u8> for Shape {
    ghost from_gives = { λ k s. shape_in s ≡ shapes.shape_of k };

    #[tactic(auto, unfolding(echo_spec::specs::Shapes::shapes))]
    fn from(kind: u8) -> Shape
        ensures shape { shape_in result ≡ shapes.shape_of kind }
        ensures kind { IsKind result kind }
    {
        match kind {
            0 => Shape::Var,
            1 => Shape::Const,
            2 => Shape::Binary(Binary::Add),
            3 => Shape::Binary(Binary::Sub),
            4 => Shape::Binary(Binary::Mul),
            5 => Shape::Binary(Binary::Udiv),
            6 => Shape::Binary(Binary::Urem),
            7 => Shape::Binary(Binary::And),
            8 => Shape::Binary(Binary::Or),
            9 => Shape::Binary(Binary::Xor),
            10 => Shape::Binary(Binary::Shl),
            11 => Shape::Binary(Binary::Lshr),
            12 => Shape::Binary(Binary::Ashr),
            13 => Shape::Rotation(Rotation::Right),
            14 => Shape::Extraction,
            15 => Shape::Concat,
            16 => Shape::Extension(Extension::Zero),
            17 => Shape::Extension(Extension::Sign),
            18 => Shape::Ite,
            19 => Shape::Comparison(Comparison::Equal),
            20 => Shape::Comparison(Comparison::Different),
            21 => Shape::Comparison(Comparison::Ult),
            22 => Shape::Comparison(Comparison::Ule),
            23 => Shape::Comparison(Comparison::Ugt),
            24 => Shape::Comparison(Comparison::Uge),
            25 => Shape::Comparison(Comparison::Slt),
            26 => Shape::Comparison(Comparison::Sle),
            27 => Shape::Comparison(Comparison::Sgt),
            28 => Shape::Comparison(Comparison::Sge),
            29 => Shape::Negation,
            30 => Shape::Connective(Connective::And),
            31 => Shape::Connective(Connective::Or),
            32 => Shape::Unary(Unary::Not),
            33 => Shape::Unary(Unary::Neg),
            34 => Shape::Rotation(Rotation::Left),
            35 => Shape::Binary(Binary::Sdiv),
            36 => Shape::Binary(Binary::Srem),
            37 => Shape::Select,
            38 => Shape::Call,
            _ => Shape::Unknown,
        }
    }
}

impl Shape {
    // How many of the four operands a shape has. Ruled out: two for an extraction; four for an unknown shape.
    #[tactic(auto, unfolding(echo_spec::specs::Shapes::operand_count))]
    pub fn operand_count(self) -> usize
        ensures counted { result ≡ shapes.operand_count (shape_in self) }
        ensures at_most_four { result ≤ 4 }
    {
        match self {
            Shape::Unknown => 0,
            Shape::Var | Shape::Negation | Shape::Unary(_) => 1,
            Shape::Const | Shape::Binary(_) | Shape::Rotation(_) | Shape::Concat => 2,
            Shape::Extension(_) | Shape::Comparison(_) | Shape::Connective(_) => 2,
            Shape::Extraction | Shape::Ite => 3,
            Shape::Select | Shape::Call => 4,
        }
    }

    // Is it that of a variable or a constant. Ruled out: a variable alone; a call, which may have no arguments.
    #[tactic(auto, unfolding(echo_spec::specs::Shapes::is_leaf))]
    pub fn is_leaf(self) -> bool
        ensures { result ≡ shapes.is_leaf (shape_in self) }
    {
        matches!(self, Shape::Var | Shape::Const)
    }

    // Is a term of this shape a Bool, and not a bit-vector. Ruled out: an ite as a Bool; a negation as a bit-vector.
    #[tactic(auto, unfolding(echo_spec::specs::Shapes::is_bool))]
    pub fn is_bool(self) -> bool
        ensures { result ≡ shapes.is_bool (shape_in self) }
    {
        matches!(
            self,
            Shape::Comparison(_) | Shape::Negation | Shape::Connective(_)
        )
    }
}

// Is each number 0.
fn all_zero(operands: &[u64]) -> bool
    ensures { result ≡ every unused operands.now }
{
    operands.iter().all(|x| *x == 0)
}

// Is the kind known, and is each operand that it does not have 0. Ruled out: kind 39 as known; a unary node whose third operand
// alone is looked at, or is not.
#[tactic(auto, unfolding(echo_spec::specs::Input::node_encoded))]
pub fn node_encoded(n: Node) -> bool
    ensures { result ≡ input.node_encoded (node_of n) }
{
    // Kept: a case for each count. With the rest of all four as one slice they were stored first, and a width pass of variables alone took 1.3 of
    // the time.
    if n.kind >= KINDS {
        return false;
    }
    match Shape::from(n.kind).operand_count() {
        1 => all_zero(&[n.b, n.c, n.d]),
        2 => all_zero(&[n.c, n.d]),
        3 => all_zero(&[n.d]),
        _ => true,
    }
}

// Is every record encoded.
// Kept: a loop, and not `all`: reading a record asks that it lies within the bytes, which a closure is not told; and `node_of`, which asks
// nothing, would compare each place with the count again.
fn nodes_encoded(nodes: &[u8]) -> bool
    ensures { result ≡ every input.node_encoded (input.nodes_of nodes.now) }
{
    for i in 0..node_count(nodes) {
        if !node_encoded(node_at(nodes, i)) {
            return false;
        }
    }
    true
}

// Is every byte of the bits 0 or 1. (All are looked at: a loop that is left midway is not made into one over many bytes at a time.)
fn bits_encoded(bits: &[u8]) -> bool
    ensures { result ≡ every bit bits.now }
{
    let mut ok = true;
    for b in bits {
        ok = ok & (*b <= 1);
    }
    ok
}

// `Encoding` is where this is false. Ruled out: bytes left over after the last record; a bit of 2 past those that a node uses.
#[tactic(auto, unfolding(echo_spec::specs::Input::encoded))]
pub fn encoded(nodes: &[u8], bits: &[u8]) -> bool
    ensures { result ≡ input.encoded nodes.now bits.now }
{
    nodes.len() % RECORD == 0 && nodes_encoded(nodes) && bits_encoded(bits)
}

// The nodes' part of `Limit`. Ruled out: a limit that is itself refused; side entries without one.
#[tactic(auto, unfolding(echo_spec::specs::Input::nodes_within))]
pub fn nodes_within(nodes: &[u8], bits: &[u8], side: &[u64]) -> bool
    ensures { result ≡ input.nodes_within nodes.now bits.now side.now }
{
    nodes.len() <= MAX_NODE_BYTES && bits.len() <= MAX_BITS && side.len() <= MAX_SIDE
}
