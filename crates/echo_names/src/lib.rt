// Names: the part of an arena that a table's entry gives, and which names a table may declare.
// A name is the part of its arena itself, never a copy, so `range_eq` and `word_is` of the Rust are one comparison of two slices.
#![tactic(auto)]

ghost use Rattle.std.specs.Prelude.{◌≡◌, [], ◌++◌, ◌+◌, ◌≤◌, ◌<◌, length, take, get_or};
ghost use Rattle.lists.specs.Tests.{same, in_list, every};
ghost use Rattle.echo_spec.specs.Input.{part as «part_of», names_of};
ghost use Rattle.echo_spec.specs.Names.{byte_ok, first_ok, reserved, table_ok};
ghost use Rattle.echo_names.specs.Groups.{total, in_table};
ghost use Rattle.echo_names.specs.Compared.{Compared};
ghost use Rattle.echo_names.specs.NameTables.{entry_at};

use lent::get;

// ---------------------------------------------------------------- parts of an arena

// The part of the arena from `start` on, `len` bytes long; the empty part where that does not lie inside.
// Ruled out: a part that starts one byte late; one cut short at the arena's end.
#[tactic(auto, using(crate::specs::NameTables::part_out))]
pub fn part<'a>(arena: &'a [u8], start: u64, len: u64) -> &'a [u8]
    ensures { result.now ≡ «part_of» arena.now start len }
{
    let n = arena.len();
    let from = start as usize;
    let count = len as usize;
    if from <= n && count <= n - from {
        &arena[from..from + count]
    } else {
        &arena[..0]
    }
}

// Name k of a table whose columns may differ in length: a length past the last one is 0.
// Ruled out: each entry with the first one's start; with the first one's length.
pub fn name_at<'a>(arena: &'a [u8], starts: &[u64], lens: &[u64], k: u64) -> &'a [u8]
    requires { k < length starts.now }
    ensures { result.now ≡ get_or (names_of arena.now starts.now lens.now) k [] }
{
    part(arena, get(starts, k), get(lens, k))
}

// So many bytes are looked at together.
const BLOCK: usize = 16;

// Are the bytes of the block from place i on the same?
// Kept: all of them are looked at; a loop that is not left midway is done at once.
fn same_block(a: &[u8], b: &[u8], i: usize) -> bool
    requires { (i + BLOCK ≤ length a.now) × (i + BLOCK ≤ length b.now) }
    ensures { Compared a.now b.now i (i + BLOCK) result }
{
    let mut ok = true;
    for k in i..i + BLOCK {
        if a[k] != b[k] {
            ok = false;
        }
    }
    ok
}

// Are all bytes from place i on the same?
fn same_rest(a: &[u8], b: &[u8], i: usize) -> bool
    requires { (length a.now ≡ length b.now) × (i ≤ length a.now) }
    ensures { Compared a.now b.now i (length a.now) result }
{
    for k in i..a.len() {
        if a[k] != b[k] {
            return false;
        }
    }
    true
}

// Are the two the same bytes?
// Kept: by blocks, of which all bytes are looked at. With `starts_with` in place of this in `stands` of script_names a release with long chains of
// names of 32 bytes took 1.56 of the time that it takes with this.
// Ruled out: one that compares no more bytes than the shorter has; one that leaves the last byte out.
pub fn same_bytes(a: &[u8], b: &[u8]) -> bool
    ensures { result ≡ same a.now b.now }
{
    let n = a.len();
    if n != b.len() {
        return false;
    }
    let blocks = n / BLOCK;
    for k in 0..blocks {
        if !same_block(a, b, BLOCK * k) {
            return false;
        }
    }
    same_rest(a, b, BLOCK * blocks)
}

// ---------------------------------------------------------------- bytes of a name

// A byte that a name may have: from 32 on, but for 127, the bar and the backslash. Bytes from 128 on are taken as they come.
#[tactic(auto, using(std::proofs::lemmas::Bool::Decides::nat_tests), unfolding(echo_spec::specs::Names::byte_ok))]
fn byte_ok(c: u8) -> bool
    ensures { result ≡ byte_ok c }
{
    c >= 32 && c != 127 && c != b'|' && c != b'\\'
}

// Each byte of the name may stand in one. Ruled out: a name with a bar; one that is taken for its first byte.
pub fn bytes_ok(name: &[u8]) -> bool
    ensures { result ≡ every byte_ok name.now }
{
    name.iter().all(|c| byte_ok(*c))
}

// There is a first byte, and it is none that SMT-LIB keeps for solvers. Ruled out: the empty name; a name that begins with @.
#[tactic(auto, using(std::proofs::lemmas::Bool::Decides::nat_tests), unfolding(echo_spec::specs::Names::first_ok))]
pub fn first_ok(name: &[u8]) -> bool
    ensures { result ≡ first_ok name.now }
{
    match name {
        [] | [b'@' | b'.', ..] => false,
        _ => true,
    }
}

// ---------------------------------------------------------------- reserved words

// The words of `reserved_0` to `reserved_4`, and those that SMT-LIB 2.7 added, last in their groups; words of one length together.
static WORDS: [u8; 820] = *b"!_=\
    as=>or\
    letparpopnotandxorite\
    echoexitpushBooltruebvor\
    matchresetfalseQF_BVArraystorebvnotbvnegbvandbvxorbvnorbvaddbvsubbvmulbvshlbvultbvulebvugtbvugebvsltbvslebvsgtbvsge\
    BINARYexistsforallSTRINGassertQF_ABVselectBitVecconcatrepeatbvnandbvxnorbvcompbvudivbvurembvsdivbvsrembvsmodbvlshrbvashrbvnegolambdabv2int\
    int2bvbv2natnat2bv\
    DECIMALNUMERALextractbvuaddobvsaddobvumulobvsmulobvusubobvssubobvsdivobvredor\
    get-infoset-infodistinctQF_AUFBVbvredand\
    check-satget-modelget-proofget-valueset-logicint_to_bv\
    define-funget-optionset-optionubv_to_intsbv_to_int\
    HEXADECIMALdeclare-fundefine-sortzero_extendsign_extendrotate_left\
    declare-sortrotate_rightdefine-const\
    declare-const\
    define-fun-recget-assertionsget-assignmentget-unsat-core\
    define-funs-rec\
    declare-datatypereset-assertions\
    declare-datatypes\
    check-sat-assuming\
    get-unsat-assumptions";

// How many words have 1 byte, 2 bytes, and so on: the groups of the table, one after the other.
static COUNTS: [usize; 21] = [
    3, 3, 7, 6, 23, 26, 11, 5, 6, 5, 6, 3, 1, 4, 1, 2, 1, 1, 0, 0, 1,
];

// Is the name one of the words of a table grouped by length?
// The loops over groups and over the words of a group are left with the answer at the first match.
// Kept: two loops; with `chunks_exact` and `any` over the words of a group it stayed open which words had been looked at.
fn find_word(name: &[u8], words: &[u8], counts: &[usize]) -> bool
    requires { total 1 counts.now ≤ length words.now }
    ensures { result ≡ in_table name.now words.now counts.now }
{
    let n = name.len();
    let mut start = 0;
    'search: {
        for (g, count) in counts.iter().enumerate() {
            if g + 1 == n {
                for k in 0..*count {
                    let at = start + k * n;
                    if same_bytes(name, &words[at..at + n]) {
                        break 'search true;
                    }
                }
            }
            start += *count * (g + 1);
        }
        false
    }
}

// Is the name a reserved word or a theory symbol?
// Ruled out: a table with one letter of a word wrong, or without a word that SMT-LIB 2.7 added; a search that leaves out the last word
// of a group.
pub fn is_reserved(name: &[u8]) -> bool
    ensures { result ≡ in_list name.now reserved }
{
    find_word(name, &WORDS, &COUNTS)
}

// ---------------------------------------------------------------- name tables

// The names of a table: parts of its arena, each by an entry of two columns of one length.
// Kept: the arena and the columns in each contract, as `names_of` of the definitions takes them; a word for all three would be one more to look up.
#[derive(Clone, Copy)]
pub struct NameTable<'a> {
    pub arena: &'a [u8],
    pub starts: &'a [u64],
    pub lens: &'a [u64],
    ghost columns: { length starts.now ≡ length lens.now },
}

impl<'a> NameTable<'a> {
    // The name of entry k.
    fn name(&self, k: usize) -> &'a [u8]
        requires { k < length self.now.starts.now }
        ensures { result.now ≡ «part_of» self.now.arena.now (get_or self.now.starts.now k 0) (get_or self.now.lens.now k 0) }
    {
        part(self.arena, self.starts[k], self.lens[k])
    }

    // Is it the name of entry k? What tells most names apart is looked at first, and by itself: the length, and the last byte, since names that differ
    // mostly do so at the end.
    // Kept: by the entry's numbers. Where the part was made first, and told from the name by its own length, a script with 512 names took 1.2 to 1.4 of
    // the instructions, and 1.1 of the time.
    fn same_name(&self, k: usize, name: &[u8]) -> bool
        requires { k < length self.now.starts.now }
        ensures { result ≡ same name.now («part_of» self.now.arena.now (get_or self.now.starts.now k 0) (get_or self.now.lens.now k 0)) }
    {
        let n = name.len();
        if n == 0 {
            return same_bytes(name, self.name(k));
        }
        if self.lens[k] as usize != n {
            return false;
        }
        let size = self.arena.len();
        let from = self.starts[k] as usize;
        if n > size || from > size - n {
            return false;
        }
        if self.arena[from + (n - 1)] != name[n - 1] {
            return false;
        }
        same_bytes(name, &self.arena[from..from + n])
    }

    // Is the name one of the first `upto` names?
    // Kept: by numbers: over the columns together `upto` would cut both, and in a chain the name of an entry is asked for without
    // the fact that there is one.
    fn has(&self, upto: usize, name: &[u8]) -> bool
        requires { upto ≤ length self.now.starts.now }
        ensures { result ≡ in_list name.now (take upto (names_of self.now.arena.now self.now.starts.now self.now.lens.now)) }
    {
        for j in 0..upto {
            if self.same_name(j, name) {
                return true;
            }
        }
        false
    }

    // Entry k, after the names before it and all names of the two tables before this one.
    // A part that is empty, or does not lie inside its arena, has no first byte.
    fn entry_ok(&self, first: &NameTable<'a>, second: &NameTable<'a>, k: usize) -> bool
        requires { k < length self.now.starts.now }
        ensures { result
            ≡ entry_at self.now.arena.now self.now.starts.now self.now.lens.now
            first.now.arena.now first.now.starts.now first.now.lens.now
            second.now.arena.now second.now.starts.now second.now.lens.now k }
    {
        let name = self.name(k);
        bytes_ok(name)
            && first_ok(name)
            && !is_reserved(name)
            && !first.has(first.starts.len(), name)
            && !second.has(second.starts.len(), name)
            && !self.has(k, name)
    }

    // Does each name pass, after the names of the two tables before this one and those before it in its own?
    // That a table's columns are of one length is for who makes it to show, where the Rust tests it here.
    // Kept: a loop, as in `has`.
    // Ruled out: names compared with their own table alone; a last name that is not looked at.
    pub fn accepted(&self, first: &NameTable<'a>, second: &NameTable<'a>) -> bool
        ensures { result
            ≡ table_ok
            (names_of first.now.arena.now first.now.starts.now first.now.lens.now ++ names_of second.now.arena.now second.now.starts.now second.now.lens.now)
            (names_of self.now.arena.now self.now.starts.now self.now.lens.now) }
    {
        for k in 0..self.starts.len() {
            if !self.entry_ok(first, second, k) {
                return false;
            }
        }
        true
    }
}
