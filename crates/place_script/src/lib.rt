// The nodes of a whole script: its variables, the functions that no assertion calls on zeros, and its assertions, whose nodes are the roots.
// Under "Ruled out" stand wrong programs that a public function's contract refuses.
#![tactic(auto)]

ghost use Rattle.std.specs.Prelude.{◌≡◌, List, [], ℕ, ◌+◌, ◌*◌, ◌≤◌, ◌<◌, length, true, false};
ghost use Rattle.reading.specs.Trees.{Tree, Declarations};
ghost use Rattle.readback.specs.Rebuild.{Item};
ghost use Rattle.heap_laws.specs.Heap.{Held, Stacked};
ghost use Rattle.script_entries.specs.Entries.{names_of, Declares, ArgumentsAt};
ghost use Rattle.place_script.specs.Variables.{VariablesTo};
ghost use Rattle.place_script.specs.Zeros.{zeros_call, HeldTo};
ghost use Rattle.place_script.specs.Uncalled.{unflagged};
ghost use Rattle.place_script.specs.Scripts.{Ready, ScriptTo, RootsIn};
ghost use Rattle.place_script.specs.Placing.{PlacedRoots};

use heap_laws::{Heap, OverLimit};
use refusals::{MAX_ENTRIES, MAX_ROOTS};
use script_calls::FLAGS;
use script_check::last_line;
use script_entries::{Script, next_argument};
use script_heap::{add_call, add_variable, push_node, settle_number};
use script_place::{Operand, Unread, place};
use script_tokens::literal;

// ---------------------------------------------------------------- variables

// The variables, in the order in which they are declared.
fn place_variables(script: &Script, heap: &mut Heap) -> Result<(), OverLimit>
    requires { ((D : Declarations) × Declares script.now D) × (names_of script.now.header ≤ 3 * MAX_ENTRIES) }
    ensures { (D : Declarations) → Declares script.now D → Held heap.old []
        → Stacked script.now.text.now heap.old [] → VariablesTo script.now.text.now heap.new D result }
{
    for k in 0..script.header.variables {
        let w = script.variable_at(k);
        add_variable(heap, w)?;
    }
    Ok(())
}

// ---------------------------------------------------------------- functions that no assertion calls

// A call of function g on zeros; the sorts of its arguments stand at place p.
fn call_on_zeros(s: &[u8], heap: &mut Heap, p: usize, g: u64, width: u64) -> Result<(), OverLimit>
    requires { (ws : List ℕ) × ((first : List Item) × ArgumentsAt s.now p ws × Held heap.old first × Stacked s.now heap.old []) }
    ensures { (ws : List ℕ) (first : List Item) → ArgumentsAt s.now p ws → Held heap.old first
        → Stacked s.now heap.old [] → HeldTo s.now heap.new (zeros_call g width ws first) result }
{
    let mut a = p;
    // Kept: each argument tells where the next one begins.
    while let Some(x) = next_argument(s, a) {
        let m = settle_number(heap, 0, x.value)?;
        push_node(heap, m)?;
        a = x.end;
    }
    add_call(heap, 0, g, width)?;
    Ok(())
}

// Each function that is not called is called on zeros, in the order in which they are declared.
fn place_uncalled(script: &Script, called: &[bool; FLAGS], heap: &mut Heap) -> Result<(), OverLimit>
    requires { (D : Declarations) × (first : List Item) × Declares script.now D × (names_of script.now.header ≤ 3 * MAX_ENTRIES) × (length D.functions ≤ MAX_ENTRIES)
        × Held heap.old first × Stacked script.now.text.now heap.old [] }
    ensures { (D : Declarations) (first : List Item) → Declares script.now D
        → Held heap.old first → Stacked script.now.text.now heap.old []
        → HeldTo script.now.text.now heap.new (unflagged called.now 0 D.functions first) result }
{
    let n = script.header.names - script.header.arrays;
    for g in 0..n {
        if called[g] {
            continue;
        }
        let f = script.function_at(g);
        call_on_zeros(script.text, heap, f.arguments, g as u64, f.width)?;
    }
    Ok(())
}

// ---------------------------------------------------------------- assertions

// The assertions, the first at place `from`: their nodes are put in `roots`, and the answer is how many there are.
// Kept: an array that is lent and a number, as of the library's `read`, since the caller hands both on.
fn place_assertions(
    script: &Script,
    heap: &mut Heap,
    roots: &mut [u64; MAX_ROOTS],
    from: usize,
) -> Result<usize, Unread>
    requires { (D : Declarations) × (first : List Item) × Declares script.now D × Held heap.old first × Stacked script.now.text.now heap.old []
        × (length D.variables ≤ length first) × (from ≤ length script.now.text.now) }
    ensures { PlacedRoots script.now.text.now script.now.table.now script.now.header heap.old from heap.new roots.new result }
{
    let mut k: usize = 0;
    let mut p = from;
    // Kept: each assertion tells where the next one begins. `script_check` goes over them in the same way, but keeps nothing of them: one loop for
    // both would hand this one's heap and roots to a closure.
    while let Some(a) = literal(script.text, p, b"(assert ") {
        let z = place(script, heap, a, 0)?;
        let Operand::Node(i) = z.operand else {
            return Err(Unread::NoScript);
        };
        if z.width != 0 {
            return Err(Unread::NoScript);
        }
        let q = literal(script.text, z.end, b")\n").ok_or(Unread::NoScript)?;
        if k == MAX_ROOTS {
            return Err(Unread::Limit);
        }
        roots[k] = i;
        k += 1;
        p = q;
    }
    if last_line(script.text, p) {
        Ok(k)
    } else {
        Err(Unread::NoScript)
    }
}

// ---------------------------------------------------------------- scripts

// All nodes of a script whose assertions begin at place `from`, in arrays that hold nothing yet, and how many roots it has; or that the bytes
// are no script, or over a limit. Ruled out: a function that an assertion calls, called on zeros too; roots in another order; an answer that
// the nodes are over a limit where they keep to it; bytes that are no script told as one.
pub fn place_script(
    script: &Script,
    called: &[bool; FLAGS],
    heap: &mut Heap,
    roots: &mut [u64; MAX_ROOTS],
    from: usize,
) -> Result<usize, Unread>
    requires { (D : Declarations) × Declares script.now D × (length D.functions ≤ MAX_ENTRIES) × (names_of script.now.header ≤ 3 * MAX_ENTRIES) × Held heap.old [] × Stacked script.now.text.now heap.old []
        × (from ≤ length script.now.text.now) }
    ensures reads { (D : Declarations) → Declares script.now D → RootsIn script.now.text.now D from result }
    ensures placed { (D : Declarations) (ts : List Tree)
        → Ready script.now.text.now script.now.table.now script.now.header called.now heap.old roots.old from D ts
        → ScriptTo heap.new roots.new D ts result }
{
    place_variables(script, heap)?;
    place_uncalled(script, called, heap)?;
    place_assertions(script, heap, roots, from)
}
