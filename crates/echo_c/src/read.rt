// Scripts read back, for C.
ghost use Rattle.std.specs.Prelude.{◌≡◌};
ghost use Rattle.lent.specs.Lent.{problem_of};
ghost use Rattle.readback.specs.ReadAnswers.{read_script_answer};
ghost use Rattle.read_answers.specs.Answered.{read_numbers};

use read_answers::ReadAnswer;
use script_reader::Outputs;

// The problem of a script, in the eighteen outputs.
#[unsafe(no_mangle)]
pub extern "C" fn read_script(
    script: &[u8],
    nodes: &mut [u8],
    bits: &mut [u8],
    side: &mut [u64],
    roots: &mut [u64],
    names: &mut [u8],
    name_start: &mut [u64],
    name_len: &mut [u64],
    var_node: &mut [u64],
    var_width: &mut [u64],
    anames: &mut [u8],
    aname_start: &mut [u64],
    aname_len: &mut [u64],
    index_width: &mut [u64],
    value_width: &mut [u64],
    fnames: &mut [u8],
    fname_start: &mut [u64],
    fname_len: &mut [u64],
    func_width: &mut [u64],
) -> ReadAnswer
    ensures { read_numbers result (problem_of nodes.new bits.new side.new roots.new names.new name_start.new name_len.new var_node.new var_width.new anames.new aname_start.new aname_len.new index_width.new value_width.new fnames.new fname_start.new fname_len.new func_width.new) ≡ read_script_answer script.now (problem_of nodes.old bits.old side.old roots.old names.old name_start.old name_len.old var_node.old var_width.old anames.old aname_start.old aname_len.old index_width.old value_width.old fnames.old fname_start.old fname_len.old func_width.old) }
{
    let mut outputs = Outputs {
        nodes,
        bits,
        side,
        roots,
        names,
        name_start,
        name_len,
        var_node,
        var_width,
        anames,
        aname_start,
        aname_len,
        index_width,
        value_width,
        fnames,
        fname_start,
        fname_len,
        func_width,
    };
    ReadAnswer::from(script_reader::read_script(script, &mut outputs))
}
