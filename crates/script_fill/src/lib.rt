// The outputs of a script that is read back, and how the tables of declarations, and what was laid out in local arrays, are written into them.
// Under "Ruled out" stand wrong programs that a public function's contract refuses.
#![tactic(auto)]

ghost use Rattle.std.specs.Prelude.{◌≡◌, ℕ, List, ◌++◌, ◌+◌, ◌-◌, ◌≤◌, ◌<◌, length, drop, get_or};
ghost use Rattle.std.specs.Option.{SomeIff};
ghost use Rattle.reading.specs.Trees.{Declarations};
ghost use Rattle.echo_spec.specs.Answers.{at_front, zeroed};
ghost use Rattle.readback.specs.Rebuild.{arena};
ghost use Rattle.readback.specs.ReadAnswers.{each_with, nothing};
ghost use Rattle.script_names.specs.Entries.{place_of};
ghost use Rattle.script_fill.specs.Filling.{line_name, line_names, Lines, FewOf, NamesFit, NamesFilled, VariablesFit, VariablesFilled, ArraysFit, ArraysFilled, FunctionsFit, FunctionsFilled};
ghost use Rattle.refusals.specs.declared.TheConstants.{MAX_ARENA};
ghost use Rattle.script_fill.specs.Outputs.{problem_in, SameSlices};

use lent::clear;
use refusals::MAX_ARENA;
use script_entries::Script;
use script_names::Table;
use script_tokens::bar_at;

// ---------------------------------------------------------------- outputs

// What a script is read into: the eighteen slices of a problem by name, each lent to be written.
#[derive(Drop)]
pub struct Outputs<'a> {
    pub nodes: &'a mut [u8],
    pub bits: &'a mut [u8],
    pub side: &'a mut [u64],
    pub roots: &'a mut [u64],
    pub names: &'a mut [u8],
    pub name_start: &'a mut [u64],
    pub name_len: &'a mut [u64],
    pub var_node: &'a mut [u64],
    pub var_width: &'a mut [u64],
    pub anames: &'a mut [u8],
    pub aname_start: &'a mut [u64],
    pub aname_len: &'a mut [u64],
    pub index_width: &'a mut [u64],
    pub value_width: &'a mut [u64],
    pub fnames: &'a mut [u8],
    pub fname_start: &'a mut [u64],
    pub fname_len: &'a mut [u64],
    pub func_width: &'a mut [u64],
}

impl Outputs<'_> {
    // All eighteen become 0 throughout. Ruled out: an output left as it was; only the part cleared that an acceptance would write.
    pub fn clear(&mut self)
        ensures same_slices { SameSlices self.old self.new }
        ensures zeros { problem_in self.new ≡ each_with (λ _. zeroed) nothing (problem_in self.old) }
    {
        clear(self.nodes);
        clear(self.bits);
        clear(self.side);
        clear(self.roots);
        clear(self.names);
        clear(self.name_start);
        clear(self.name_len);
        clear(self.var_node);
        clear(self.var_width);
        clear(self.anames);
        clear(self.aname_start);
        clear(self.aname_len);
        clear(self.index_width);
        clear(self.value_width);
        clear(self.fnames);
        clear(self.fname_start);
        clear(self.fname_len);
        clear(self.func_width);
    }
}

// All of `from`.
// Kept: by a loop; copy_from_slice needs memmove of the C library.
fn copy<T: Copy>(to: &mut [T], from: &[T])
    requires { length to.old ≡ length from.now }
    ensures { to.new ≡ from.now }
{
    for i in 0..from.len() {
        to[i] = from[i];
    }
}

// The elements of `part` at the front of `out`. Ruled out: the last of them left out; what lies past them cleared.
pub fn fill<T: Copy>(part: &[T], out: &mut [T])
    requires { length part.now ≤ length out.old }
    ensures { out.new ≡ part.now ++ drop (length part.now) out.old }
{
    copy(&mut out[..part.len()], part);
}

// ---------------------------------------------------------------- names

// The place where the name of line k begins, or 0 past the table.
fn place(t: &Table, k: usize) -> usize
    ensures { result ≡ place_of t.now k }
{
    t.lines.get(k).map_or(0, |line| line.place)
}

// The name of line k, up to its bar.
fn name_of<'a>(script: &Script<'a>, k: usize) -> &'a [u8]
    requires { place_of script.now.table.now k ≤ length script.now.text.now }
    ensures { result.now ≡ line_name script.now.text.now script.now.table.now k }
{
    let s = script.text;
    let p = place(script.table, k);
    &s[p..bar_at(s, p)]
}

// The bytes of the names of `count` lines, from line `from` on, where they are within the limit. Ruled out: the last name left out; the bars
// counted with the names.
pub fn names_length(script: &Script, from: usize, count: usize) -> Option<usize>
    requires { Lines script.now.text.now script.now.table.now from count }
    ensures { SomeIff result (length (arena (line_names script.now.text.now script.now.table.now from count)) ≤ MAX_ARENA)
        (length (arena (line_names script.now.text.now script.now.table.now from count))) }
{
    let mut n: usize = 0;
    for i in 0..count {
        let size = name_of(script, from + i).len();
        if size > MAX_ARENA - n {
            return None;
        }
        n += size;
    }
    Some(n)
}

// The names end to end, where each starts, and their lengths.
fn put_names(
    script: &Script,
    from: usize,
    count: usize,
    names: &mut [u8],
    starts: &mut [u64],
    lengths: &mut [u64],
)
    requires lines { Lines script.now.text.now script.now.table.now from count }
    requires room { NamesFit (line_names script.now.text.now script.now.table.now from count) names.old starts.old lengths.old }
    ensures { NamesFilled (line_names script.now.text.now script.now.table.now from count) names.old starts.old lengths.old names.new starts.new lengths.new }
{
    let mut at = 0;
    for i in 0..count {
        let name = name_of(script, from + i);
        let e = at + name.len();
        copy(&mut names[at..e], name);
        starts[i] = at as u64;
        lengths[i] = name.len() as u64;
        at = e;
    }
}

// ---------------------------------------------------------------- numbers

// What `number` gives of each place below `count`, at the front of `out`.
fn put_numbers<F: Fn(usize) -> u64>(count: usize, number: F, out: &mut [u64])
    requires room { count ≤ length out.old }
    requires callable { (i : ℕ) → i < count → F.pre number i }
    ensures { (l : List ℕ) → length l ≡ count → ((i x : ℕ) → i < count → F.post number i x → get_or l i 0 ≡ x) → out.new ≡ at_front l out.old }
{
    for i in 0..count {
        out[i] = number(i);
    }
}

// ---------------------------------------------------------------- tables

// Kept: each table's own outputs as parameters, since a method that borrows all of `Outputs` would have to say of each other output that it stays;
// a struct of the three columns of names would be taken out of `Outputs` for each table, which lends its eighteen slices one by one.
// The table of variables. Ruled out: a name that starts one byte too far on; a variable's node one too high.
pub fn fill_variables(
    script: &Script,
    names: &mut [u8],
    starts: &mut [u64],
    lengths: &mut [u64],
    nodes: &mut [u64],
    widths: &mut [u64],
)
    requires { (D : Declarations) × FewOf script.now D × VariablesFit D names.old starts.old lengths.old nodes.old widths.old }
    ensures { (D : Declarations) → FewOf script.now D
        → VariablesFilled D names.old starts.old lengths.old nodes.old widths.old
        names.new starts.new lengths.new nodes.new widths.new }
{
    let count = script.header.variables;
    put_names(script, 0, count, names, starts, lengths);
    put_numbers(count, |i| i as u64, nodes);
    put_numbers(count, |i| script.variable_at(i), widths);
}

// The table of arrays. Ruled out: the names of the variables again; the two columns of widths exchanged.
pub fn fill_arrays(
    script: &Script,
    names: &mut [u8],
    starts: &mut [u64],
    lengths: &mut [u64],
    index: &mut [u64],
    value: &mut [u64],
)
    requires { (D : Declarations) × FewOf script.now D × ArraysFit D names.old starts.old lengths.old index.old value.old }
    ensures { (D : Declarations) → FewOf script.now D
        → ArraysFilled D names.old starts.old lengths.old index.old value.old
        names.new starts.new lengths.new index.new value.new }
{
    let from = script.header.variables;
    let count = script.header.arrays - from;
    put_names(script, from, count, names, starts, lengths);
    put_numbers(count, |i| script.array_at(i).index, index);
    put_numbers(count, |i| script.array_at(i).value, value);
}

// The table of functions. Ruled out: the names of arrays and functions together; the width of the last argument in place of the function's.
pub fn fill_functions(
    script: &Script,
    names: &mut [u8],
    starts: &mut [u64],
    lengths: &mut [u64],
    widths: &mut [u64],
)
    requires { (D : Declarations) × FewOf script.now D × FunctionsFit D names.old starts.old lengths.old widths.old }
    ensures { (D : Declarations) → FewOf script.now D
        → FunctionsFilled D names.old starts.old lengths.old widths.old
        names.new starts.new lengths.new widths.new }
{
    let from = script.header.arrays;
    let count = script.header.names - from;
    put_names(script, from, count, names, starts, lengths);
    put_numbers(count, |i| script.function_at(i).width, widths);
}
