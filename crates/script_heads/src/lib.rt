// The head of a term in a script: a constant, a name, or what stands after an opening bracket, up to where the operands begin.
// Under "Ruled out" stand wrong programs that a public function's contract refuses.
#![tactic(auto)]

ghost use Rattle.std.specs.Prelude.{◌≡◌, [], ◌∷◌, ◌++◌, ◌+◌, ◌≤◌, ◌<◌, length, drop, get_or};
ghost use Rattle.std.proofs.Math.Option.{none};
ghost use Rattle.lists.specs.Bytes.{bytes};
ghost use Rattle.reading.specs.Trees.{Declarations};
ghost use Rattle.readback.specs.Reader.{expect};
ghost use Rattle.script_tokens.specs.Reached.{Numbered};
ghost use Rattle.script_entries.specs.Entries.{Declares};
ghost use Rattle.script_heads.specs.Heads.{HeadAt};
ghost use Rattle.script_heads.specs.Numerals.{blank_numeral};
ghost use Rattle.script_heads.specs.HeadLaws.{Opens};

use script_entries::{Entry, Script, next_argument};
use script_symbols::kind_of;
use script_tokens::{Number, byte_at, digits_end, literal, name_end, numeral, word_end};

// The head of a term that can have a sort, and where what follows it begins.
// Kept: `end` stands in each head, since each is read up to another token, and its definition says which.
#[derive(Clone, Copy, Debug, PartialEq, Eq)]
pub enum Head {
    // after the digits
    Constant(usize),
    // after the name
    Variable {
        number: usize,
        width: u64,
        end: usize,
    },
    // a function without arguments, after the name
    Nullary {
        number: usize,
        width: u64,
        end: usize,
    },
    // So many of the two numerals; where the operands begin.
    // Kept: the numerals are compared with the shape's by number, in one place. An enum of none, one and two would have an arm for each pair of a
    // head and a shape.
    Operator {
        kind: u8,
        numerals: u64,
        first: u64,
        second: u64,
        end: usize,
    },
    // where the sorts of the arguments stand; where the arguments begin
    Call {
        number: usize,
        arguments: usize,
        width: u64,
        end: usize,
    },
    // so many stores open; after the array's name
    Select {
        number: usize,
        index: u64,
        value: u64,
        stores: usize,
        end: usize,
    },
}

// A constant, from its `#` on.
fn constant_head(s: &[u8], at: usize) -> Option<Head>
    requires { get_or s.now at 0 ≡ 35 }
    ensures { (D : Declarations) → HeadAt s.now D at result }
{
    if byte_at(s, at + 1) != b'b' {
        return None;
    }
    let e = digits_end(s, at + 2);
    (e > at + 2).then_some(Head::Constant(e))
}

// A name by itself, from its first bar on.
fn name_head(script: &Script, at: usize) -> Option<Head>
    requires { ((D : Declarations) × Declares script.now D) × (get_or script.now.text.now at 0 ≡ 124) }
    ensures { (D : Declarations) → Declares script.now D → HeadAt script.now.text.now D at result }
{
    let end = name_end(script.text, at + 1)?;
    let entry = script.entry_of(at + 1, end)?;
    match entry {
        Entry::Variable(number, width) => Some(Head::Variable { number, width, end }),
        Entry::Array(..) => None,
        Entry::Function(number, x) => match next_argument(script.text, x.arguments) {
            None => Some(Head::Nullary {
                number,
                width: x.width,
                end,
            }),
            Some(_) => None,
        },
    }
}

// ---------------------------------------------------------------- after an opening bracket

// A call, from its bracket on.
fn call_head(script: &Script, at: usize) -> Option<Head>
    requires { ((D : Declarations) × Declares script.now D) × (get_or script.now.text.now at 0 ≡ 40) × (get_or script.now.text.now (at + 1) 0 ≡ 124) }
    ensures { (D : Declarations) → Declares script.now D → HeadAt script.now.text.now D at result }
{
    let end = name_end(script.text, at + 2)?;
    let Entry::Function(number, x) = script.entry_of(at + 2, end)? else {
        return None;
    };
    next_argument(script.text, x.arguments)?;
    Some(Head::Call {
        number,
        arguments: x.arguments,
        width: x.width,
        end,
    })
}

// An operator without numerals, from its bracket on.
fn plain_head(s: &[u8], at: usize) -> Option<Head>
    requires { (get_or s.now at 0 ≡ 40) × (get_or s.now (at + 1) 0 ≡ 40 → ⊥) × (get_or s.now (at + 1) 0 ≡ 124 → ⊥) × (expect (bytes "(select ") (drop at s.now) ≡ none) }
    ensures { (D : Declarations) → HeadAt s.now D at result }
{
    let a = at + 1;
    if a >= s.len() {
        return None;
    }
    let end = word_end(s, a);
    let kind = kind_of(&s[a..end])?;
    Some(Head::Operator {
        kind,
        numerals: 0,
        first: 0,
        second: 0,
        end,
    })
}

// A blank and a numeral.
fn blank_numeral(s: &[u8], at: usize) -> Option<Number>
    requires { at ≤ length s.now }
    ensures { Numbered s.now (blank_numeral (drop at s.now)) result }
{
    if byte_at(s, at) != b' ' {
        return None;
    }
    numeral(s, at + 1)
}

// An operator with numerals, from the two brackets on.
fn indexed_head(s: &[u8], at: usize) -> Option<Head>
    requires { (get_or s.now at 0 ≡ 40) × (get_or s.now (at + 1) 0 ≡ 40) }
    ensures { (D : Declarations) → HeadAt s.now D at result }
{
    let a = literal(s, at + 2, b"_ ")?;
    let e = word_end(s, a);
    let kind = kind_of(&s[a..e])?;
    let i = blank_numeral(s, e)?;
    if byte_at(s, i.end) == b')' {
        return Some(Head::Operator {
            kind,
            numerals: 1,
            first: i.value,
            second: 0,
            end: i.end + 1,
        });
    }
    let j = blank_numeral(s, i.end)?;
    if byte_at(s, j.end) == b')' {
        return Some(Head::Operator {
            kind,
            numerals: 2,
            first: i.value,
            second: j.value,
            end: j.end + 1,
        });
    }
    None
}

// How many stores open one after the other.
fn stores_at(s: &[u8], at: usize) -> usize
    requires { at ≤ length s.now }
    ensures { Opens s.now at result }
{
    let mut n = 0;
    let mut p = at;
    // Kept: each store tells where the next one begins.
    while let Some(q) = literal(s, p, b"(store ") {
        p = q;
        n += 1;
    }
    n
}

// A select, from its bracket on, up to its array's name.
fn select_head(script: &Script, at: usize) -> Option<Head>
    requires { ((D : Declarations) × Declares script.now D) × (at + 8 ≤ length script.now.text.now) × (drop at script.now.text.now ≡ 40 ∷ (bytes "select " ++ drop (at + 8) script.now.text.now)) }
    ensures { (D : Declarations) → Declares script.now D → HeadAt script.now.text.now D at result }
{
    let stores = stores_at(script.text, at + 8);
    let p = at + 8 + 7 * stores;
    if byte_at(script.text, p) != b'|' {
        return None;
    }
    let end = name_end(script.text, p + 1)?;
    let Entry::Array(number, x) = script.entry_of(p + 1, end)? else {
        return None;
    };
    Some(Head::Select {
        number,
        index: x.index,
        value: x.value,
        stores,
        end,
    })
}

// What stands after an opening bracket.
fn open_head(script: &Script, at: usize) -> Option<Head>
    requires { ((D : Declarations) × Declares script.now D) × (get_or script.now.text.now at 0 ≡ 40) }
    ensures { (D : Declarations) → Declares script.now D → HeadAt script.now.text.now D at result }
{
    match byte_at(script.text, at + 1) {
        b'(' => indexed_head(script.text, at),
        b'|' => call_head(script, at),
        _ => match literal(script.text, at, b"(select ") {
            Some(_) => select_head(script, at),
            None => plain_head(script.text, at),
        },
    }
}

// The head of the term at a place. Ruled out: a name of an array taken for a term; a second numeral left out; a numeral of more than 64 bits
// taken by its lowest bits; one store too few counted before an array's name.
pub fn head_at(script: &Script, at: usize) -> Option<Head>
    requires { (D : Declarations) × Declares script.now D }
    ensures { (D : Declarations) → Declares script.now D → HeadAt script.now.text.now D at result }
{
    match byte_at(script.text, at) {
        b'#' => constant_head(script.text, at),
        b'|' => name_head(script, at),
        b'(' => open_head(script, at),
        _ => None,
    }
}
