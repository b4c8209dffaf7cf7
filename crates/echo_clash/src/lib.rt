// Refusal `Clash`: a declared name that a `let` would give to a shared node.
//
// A name is read as the letter and a number in whatever way, and the name of that number is written anew and compared: so a name with a
// leading zero, or with other bytes than digits, needs no test of its own.
#![tactic(auto)]

ghost use Rattle.std.specs.Prelude.{◌≡◌, not, ◌-◌, ◌≤◌, ◌<◌, length};
ghost use Rattle.lists.specs.Tests.{same, every};
ghost use Rattle.echo_spec.specs.Input.{names_of};
ghost use Rattle.lets.specs.Lets.{let_name, uses_in, names_clear};
ghost use Rattle.lent.specs.Lent.{problem_at, dag_at};
ghost use Rattle.echo_clash.specs.Clash.{digit, read_from, clashes as «clashes-of»};
ghost use Rattle.echo_clash.specs.Clearable.{Clearable};

use echo_checks::Names;
use echo_names::{NameTable, part};
use echo_sharing::flagged;
use lent::Problem;
use refusals::MAX_NODES;

// What a byte is as a digit; 0 for a byte below the digits.
fn value_of(c: u8) -> u64
    ensures { result ≡ c - 48 }
{
    u64::from(c).saturating_sub(u64::from(b'0'))
}

// One digit more, the number held at 2,048.
#[tactic(auto, unfolding(crate::specs::Clash::digit))]
fn one_digit(v: u64, c: u8) -> u64
    ensures { result ≡ digit v c }
{
    v.saturating_mul(10)
        .saturating_add(value_of(c))
        .min(MAX_NODES as u64)
}

// The number that the bytes make as digits, the highest first, held at 2,048, which is past every node.
fn read_number(s: &[u8]) -> u64
    ensures { result ≡ read_from 0 s.now }
{
    s.iter().fold(0, |v, c| one_digit(v, *c))
}

// Is this the name of node i.
fn is_let_name(name: &[u8], i: u64) -> bool
    requires { i < MAX_NODES }
    ensures { result ≡ same name.now (let_name i) }
{
    // The longest name is `d2047`.
    let mut room = [0u8; 8];
    let p = echo_bytes::start();
    let q = p.byte(&mut room, b'd');
    let r = q.number(&mut room, i);
    let n = r.at;
    name == &room[..n]
}

// Is this the name of a shared node.
fn clashes(name: &[u8], shared: &[bool]) -> bool
    requires { length shared.now ≤ MAX_NODES }
    ensures { result ≡ «clashes-of» shared.now name.now }
{
    let [_letter, digits @ ..] = name else {
        return false;
    };
    let v = read_number(digits);
    flagged(shared, v) && is_let_name(name, v)
}

// Is no name of a table that of a shared node.
fn table_clear(table: &NameTable, shared: &[bool]) -> bool
    requires { length shared.now ≤ MAX_NODES }
    ensures { result ≡ every (λ m. not («clashes-of» shared.now m)) (names_of table.now.arena.now table.now.starts.now table.now.lens.now) }
{
    table.starts.iter().zip(table.lens).all(|(start, len)| {
        let name = part(table.arena, *start, *len);
        !clashes(name, shared)
    })
}

// `Clash` is where this is false: no declared name is that of a shared node, reached or not. Ruled out: variables alone looked at; a name
// with a leading zero taken for a node's; a node that has one use.
pub fn names_clear(problem: &Problem, shared: &[bool]) -> bool
    requires { Clearable problem.now shared.now }
    ensures { result ≡ names_clear (dag_at problem.now) (uses_in (dag_at problem.now) (problem_at problem.now).roots) }
{
    let names = Names::of(problem);
    table_clear(&names.variables, shared)
        && table_clear(&names.arrays, shared)
        && table_clear(&names.functions, shared)
}
