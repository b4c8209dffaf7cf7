// Inputs of a problem written in bytes, in the layout of specs/Encoding.antt and docs/FORMATS.md.
// Under "Ruled out" stand wrong programs that a public function's contract refuses.
#![tactic(auto)]

ghost use Rattle.std.specs.Prelude.{◌≡◌, [], ◌∷◌, map};
ghost use Rattle.echo_bytes.specs.Page.{page, written};
ghost use Rattle.layout_bytes.specs.Encoding.{le64, bytes, numbers, input_bytes, inputs_bytes};

use echo_bytes::Place;

// ---------------------------------------------------------------- numbers and inputs

// A number in 8 bytes, the lowest first.
fn put_number(n: u64, p: Place, out: &mut [u8]) -> Place
    ensures { page result out.new ≡ written (page p out.old) (le64 n) }
{
    p.word(out, &n.to_le_bytes())
}

// An input of bytes: the count and then the bytes.
fn put_bytes(xs: &[u8], p: Place, out: &mut [u8]) -> Place
    ensures { page result out.new ≡ written (page p out.old) (input_bytes (bytes xs.now)) }
{
    put_number(xs.len() as u64, p, out).word(out, xs)
}

// An input of numbers likewise.
// Kept: beside `put_bytes`, since bytes are put as one piece and numbers one after the other; over a trait of elements each would have both.
fn put_numbers(xs: &[u64], p: Place, out: &mut [u8]) -> Place
    ensures { page result out.new ≡ written (page p out.old) (input_bytes (numbers xs.now)) }
{
    let mut q = put_number(xs.len() as u64, p, out);
    for x in xs {
        q = put_number(*x, q, out);
    }
    q
}

// ---------------------------------------------------------------- the inputs

// An arena and the columns of its table: four of variables and of arrays, three of functions. Ruled out: two columns exchanged; a column left out.
pub fn put_table(arena: &[u8], columns: &[&[u64]], p: Place, out: &mut [u8]) -> Place
    ensures { page result out.new ≡ written (page p out.old) (inputs_bytes (bytes arena.now ∷ map (λ c. numbers c.now) columns.now)) }
{
    let mut q = put_bytes(arena, p, out);
    for column in columns {
        q = put_numbers(column, q, out);
    }
    q
}

// The inputs before the tables: the nodes' bytes, the bits, the side entries and the roots. Ruled out: as many roots
// as there are side entries; the bits before the nodes.
pub fn put_nodes(
    nodes: &[u8],
    bits: &[u8],
    side: &[u64],
    roots: &[u64],
    p: Place,
    out: &mut [u8],
) -> Place
    ensures { page result out.new ≡ written (page p out.old) (inputs_bytes (bytes nodes.now ∷ bytes bits.now ∷ numbers side.now ∷ numbers roots.now ∷ [])) }
{
    let q = put_bytes(nodes, p, out);
    let s = put_bytes(bits, q, out);
    let t = put_numbers(side, s, out);
    put_numbers(roots, t, out)
}
