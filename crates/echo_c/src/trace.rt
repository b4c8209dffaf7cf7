// The replay of a trace, for C.
ghost use Rattle.std.specs.Prelude.{◌≡◌};
ghost use Rattle.lent.specs.Lent.{problem_of};
ghost use Rattle.traces.specs.Trace.{replay_trace_answer};
ghost use Rattle.trace_answers.specs.Answered.{replayed};

use lent::Problem;
use trace_answers::TraceAnswer;

// Masks and counts of the rows of a trace.
#[unsafe(no_mangle)]
pub extern "C" fn replay_trace<'a>(
    nodes: &'a [u8],
    bits: &'a [u8],
    side: &'a [u64],
    roots: &'a [u64],
    names: &'a [u8],
    name_start: &'a [u64],
    name_len: &'a [u64],
    var_node: &'a [u64],
    var_width: &'a [u64],
    anames: &'a [u8],
    aname_start: &'a [u64],
    aname_len: &'a [u64],
    index_width: &'a [u64],
    value_width: &'a [u64],
    fnames: &'a [u8],
    fname_start: &'a [u64],
    fname_len: &'a [u64],
    func_width: &'a [u64],
    values: &[u64],
    masks: &mut [u64],
    counts: &mut [u64],
) -> TraceAnswer
    ensures { replayed result masks.new counts.new ≡ replay_trace_answer (problem_of nodes.now bits.now side.now roots.now names.now name_start.now name_len.now var_node.now var_width.now anames.now aname_start.now aname_len.now index_width.now value_width.now fnames.now fname_start.now fname_len.now func_width.now) values.now masks.old counts.old }
{
    let problem = Problem {
        nodes,
        bits,
        side,
        roots,
        names,
        name_start,
        name_len,
        var_node,
        var_width,
        anames,
        aname_start,
        aname_len,
        index_width,
        value_width,
        fnames,
        fname_start,
        fname_len,
        func_width,
    };
    TraceAnswer::from(replay_trace::replay_trace(&problem, values, masks, counts))
}
