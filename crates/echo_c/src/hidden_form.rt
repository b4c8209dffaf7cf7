// The hidden form of a script, for C.
ghost use Rattle.std.specs.Prelude.{◌≡◌};
ghost use Rattle.lent.specs.Lent.{problem_of};
ghost use Rattle.hidden.specs.Hidden.{echo_hidden_answer};
ghost use Rattle.c_answers.specs.Answered.{printed};

use c_answers::EchoAnswer;
use lent::Problem;

// The printer, with zeros for the digits of each constant.
#[unsafe(no_mangle)]
pub extern "C" fn echo_hidden<'a>(
    nodes: &'a [u8],
    bits: &'a [u8],
    side: &'a [u64],
    roots: &'a [u64],
    names: &'a [u8],
    name_start: &'a [u64],
    name_len: &'a [u64],
    var_node: &'a [u64],
    var_width: &'a [u64],
    anames: &'a [u8],
    aname_start: &'a [u64],
    aname_len: &'a [u64],
    index_width: &'a [u64],
    value_width: &'a [u64],
    fnames: &'a [u8],
    fname_start: &'a [u64],
    fname_len: &'a [u64],
    func_width: &'a [u64],
    out: &mut [u8],
) -> EchoAnswer
    ensures { printed result out.new ≡ echo_hidden_answer (problem_of nodes.now bits.now side.now roots.now names.now name_start.now name_len.now var_node.now var_width.now anames.now aname_start.now aname_len.now index_width.now value_width.now fnames.now fname_start.now fname_len.now func_width.now) out.old }
{
    let problem = Problem {
        nodes,
        bits,
        side,
        roots,
        names,
        name_start,
        name_len,
        var_node,
        var_width,
        anames,
        aname_start,
        aname_len,
        index_width,
        value_width,
        fnames,
        fname_start,
        fname_len,
        func_width,
    };
    EchoAnswer::from(echo_hidden::echo_hidden(&problem, out))
}
