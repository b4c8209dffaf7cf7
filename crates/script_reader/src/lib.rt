// A SCRIPT READ BACK: the entry point `read_script`, over what `script_rebuild` decides and `script_fill` writes.
// Under "Ruled out" stand wrong programs that a public function's contract refuses.
#![tactic(auto)]

ghost use Rattle.std.specs.Prelude.{◌≡◌};
ghost use Rattle.readback.specs.ReadAnswers.{read_script_answer};
ghost use Rattle.script_fill.specs.Outputs.{problem_in, SameSlices};
ghost use Rattle.script_rebuild.specs.Decided.{lengths_of, needs_of};
ghost use Rattle.script_reader.specs.Outputs.{NodesFit, NodesFilled, read_back};

use heap_laws::Heap;
use refusals::MAX_ROOTS;
use script_entries::Script;
pub use script_fill::Outputs;
use script_fill::{fill, fill_arrays, fill_functions, fill_variables};
use script_names::Table;
use script_rebuild::{OUTPUTS, decide};
pub use script_rebuild::{ReadError, Sizes};

// How many elements there are of each output.
fn room(o: &Outputs) -> [usize; OUTPUTS]
    ensures { result ≡ lengths_of (problem_in o.now) }
{
    [
        o.nodes.len(),
        o.bits.len(),
        o.side.len(),
        o.roots.len(),
        o.names.len(),
        o.name_start.len(),
        o.name_len.len(),
        o.var_node.len(),
        o.var_width.len(),
        o.anames.len(),
        o.aname_start.len(),
        o.aname_len.len(),
        o.index_width.len(),
        o.value_width.len(),
        o.fnames.len(),
        o.fname_start.len(),
        o.fname_len.len(),
        o.func_width.len(),
    ]
}

// The outputs that the local arrays have.
fn fill_nodes(
    sizes: &Sizes,
    heap: &Heap,
    tops: &[u64; MAX_ROOTS],
    nodes: &mut [u8],
    bits: &mut [u8],
    side: &mut [u64],
    roots: &mut [u64],
)
    requires { NodesFit (needs_of sizes.now) heap.now tops.now nodes.old bits.old side.old roots.old }
    ensures { NodesFilled (needs_of sizes.now) heap.now tops.now nodes.old bits.old side.old roots.old nodes.new bits.new side.new roots.new }
{
    fill(&heap.records[..sizes.nodes], nodes);
    fill(&heap.bits[..sizes.bits], bits);
    fill(&heap.side[..sizes.side], side);
    fill(&tops[..sizes.roots], roots);
}

// READ A SCRIPT BACK: the eighteen inputs of a problem, written into what is lent. An acceptance leaves what lies past each result as it was; a
// refusal clears every output, all of it.
pub fn read_script(script: &[u8], outputs: &mut Outputs) -> Result<Sizes, ReadError>
    ensures same_slices { SameSlices outputs.old outputs.new }
    ensures answer { read_back result (problem_in outputs.new) ≡ read_script_answer script.now (problem_in outputs.old) }
{
    let room = room(outputs);
    let mut t = Table::new();
    let mut heap = Heap::new();
    let mut tops = [0u64; MAX_ROOTS];
    match decide(script, &mut t, &mut heap, &mut tops, &room) {
        Err(e) => {
            outputs.clear();
            Err(e)
        }
        Ok(x) => {
            let read = Script {
                text: script,
                table: &t,
                header: x.header,
            };
            fill_nodes(
                &x.sizes,
                &heap,
                &tops,
                outputs.nodes,
                outputs.bits,
                outputs.side,
                outputs.roots,
            );
            fill_variables(
                &read,
                outputs.names,
                outputs.name_start,
                outputs.name_len,
                outputs.var_node,
                outputs.var_width,
            );
            fill_arrays(
                &read,
                outputs.anames,
                outputs.aname_start,
                outputs.aname_len,
                outputs.index_width,
                outputs.value_width,
            );
            fill_functions(
                &read,
                outputs.fnames,
                outputs.fname_start,
                outputs.fname_len,
                outputs.func_width,
            );
            Ok(x.sizes)
        }
    }
}
