// The entry points for C, and for Rust over C, under their plain names, as in include/echo.h: the printer and the width pass here, the others
// in files of their own. A slice is a pointer and a `size_t`; the answer is a struct of numbers.
// Kept: each export that takes a problem names its eighteen slices, as C passes them, and no macro of this language writes a function.
#![tactic(auto)]

pub mod fewest_form;
pub mod formula_form;
pub mod hidden_form;
pub mod let_form;
pub mod read;
pub mod records;
pub mod release_file;
pub mod scripts;
pub mod size;
pub mod trace;

ghost use Rattle.std.specs.Prelude.{◌≡◌};
ghost use Rattle.echo_spec.specs.Input.{array_columns};
ghost use Rattle.echo_spec.specs.Answers.{echo_ext_answer, ext_wf_answer};
ghost use Rattle.lent.specs.Lent.{problem_of};
ghost use Rattle.c_answers.specs.Answered.{printed, passed};

use c_answers::{EchoAnswer, WidthAnswer};
use lent::Problem;

// The printer.
#[unsafe(no_mangle)]
pub extern "C" fn echo_ext<'a>(
    nodes: &'a [u8],
    bits: &'a [u8],
    side: &'a [u64],
    roots: &'a [u64],
    names: &'a [u8],
    name_start: &'a [u64],
    name_len: &'a [u64],
    var_node: &'a [u64],
    var_width: &'a [u64],
    anames: &'a [u8],
    aname_start: &'a [u64],
    aname_len: &'a [u64],
    index_width: &'a [u64],
    value_width: &'a [u64],
    fnames: &'a [u8],
    fname_start: &'a [u64],
    fname_len: &'a [u64],
    func_width: &'a [u64],
    out: &mut [u8],
) -> EchoAnswer
    ensures { printed result out.new ≡ echo_ext_answer (problem_of nodes.now bits.now side.now roots.now names.now name_start.now name_len.now var_node.now var_width.now anames.now aname_start.now aname_len.now index_width.now value_width.now fnames.now fname_start.now fname_len.now func_width.now) out.old }
{
    let problem = Problem {
        nodes,
        bits,
        side,
        roots,
        names,
        name_start,
        name_len,
        var_node,
        var_width,
        anames,
        aname_start,
        aname_len,
        index_width,
        value_width,
        fnames,
        fname_start,
        fname_len,
        func_width,
    };
    EchoAnswer::from(echo_kernel::echo_ext(&problem, out))
}

// The width pass.
#[unsafe(no_mangle)]
pub extern "C" fn ext_wf(
    nodes: &[u8],
    bits: &[u8],
    side: &[u64],
    index_width: &[u64],
    value_width: &[u64],
    out: &mut [u64],
) -> WidthAnswer
    ensures { passed result out.new ≡ ext_wf_answer nodes.now bits.now side.now (array_columns index_width.now value_width.now) out.old }
{
    WidthAnswer::from(sliver_kernel::ext_wf(nodes, bits, side, index_width, value_width, out))
}
