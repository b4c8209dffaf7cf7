// Prints the ten marked cases: for each its label, number and length, and the script if there is one.
#![tactic(auto)]

use echo_kernel::echo_ext;
use lent::Problem;
use std::io;
use std::io::Write;

// Kinds of a node. Kept: numbers, as they stand among the bytes of the records here.
const ADD: u8 = 2;

const ROTL: u8 = 34;

// M2's node records, of 17 bytes each: Var of width 8, Const of bits 0 to 7, Add(0,1), Eq(2,0).
const SUM: [u8; 68] = *b"\
    \x00\x08\0\0\0\0\0\0\0\0\0\0\0\0\0\0\0\
    \x01\0\0\0\0\x08\0\0\0\0\0\0\0\0\0\0\0\
    \x02\0\0\0\0\x01\0\0\0\0\0\0\0\0\0\0\0\
    \x13\x02\0\0\0\0\0\0\0\0\0\0\0\0\0\0\0";

// The places in `SUM` of node 2's kind and of node 3's second operand.
const KIND: usize = 34;

const RIGHT: usize = 56;

// M10's: Const of bits 0 to 31, Select(9,0,0,0).
const SELECT: [u8; 34] = *b"\
    \x01\0\0\0\0\x20\0\0\0\0\0\0\0\0\0\0\0\
    \x25\x09\0\0\0\0\0\0\0\0\0\0\0\0\0\0\0";

// Bits, the least significant first.
const FIVE: [u8; 8] = [1, 0, 1, 0, 0, 0, 0, 0];

const ELEVEN: [u8; 8] = [1, 1, 0, 1, 0, 0, 0, 0];

// M1 has nothing in it.
const M1: Problem = Problem {
    nodes: &[],
    bits: &[],
    side: &[],
    roots: &[],
    names: &[],
    name_start: &[],
    name_len: &[],
    var_node: &[],
    var_width: &[],
    anames: &[],
    aname_start: &[],
    aname_len: &[],
    index_width: &[],
    value_width: &[],
    fnames: &[],
    fname_start: &[],
    fname_len: &[],
    func_width: &[],
};

// What cases differ in from M2: its bits, the kind of node 2, the second operand of node 3, the root and the variable's name.
#[derive(Clone, Copy)]
struct Sum<'a> {
    bits: &'a [u8],
    kind: u8,
    right: u8,
    root: u64,
    name: &'a [u8],
}

const M2: Sum = Sum {
    bits: &FIVE,
    kind: ADD,
    right: 0,
    root: 3,
    name: b"x",
};

// Kept: the two numbers by a match; for `EchoAnswer` this program would stand on all that is answered for C.
fn tell<W: Write>(writer: &mut W, label: u64, problem: &Problem, out: &mut [u8]) -> io::Result<()> {
    let (number, length) = match echo_ext(problem, out) {
        Ok(n) => (0, n),
        Err(e) => (u64::from(e), 0),
    };
    writeln!(writer, "M{label} {number} {length}")?;
    if length <= out.len() {
        writer.write_all(&out[..length])?;
    }
    Ok(())
}

fn tell_sum<W: Write>(writer: &mut W, label: u64, case: Sum, out: &mut [u8]) -> io::Result<()> {
    let none = M1;
    let mut nodes = SUM;
    nodes[KIND] = case.kind;
    nodes[RIGHT] = case.right;
    let problem = Problem {
        nodes: &nodes,
        bits: case.bits,
        roots: &[case.root],
        names: case.name,
        name_start: &[0],
        name_len: &[case.name.len() as u64],
        var_node: &[0],
        var_width: &[8],
        ..none
    };
    tell(writer, label, &problem, out)
}

fn main(rt: HostRuntime) -> io::Result<()> {
    let mut writer = io::writer(&rt);
    let mut out = [0u8; 200];
    let mut short = [0u8; 102];
    tell(&mut writer, 1, &M1, &mut out)?;
    tell_sum(&mut writer, 2, M2, &mut out)?;
    tell_sum(&mut writer, 3, M2, &mut short)?;
    tell_sum(&mut writer, 4, Sum { right: 2, ..M2 }, &mut out)?;
    tell_sum(&mut writer, 5, Sum { root: 0, ..M2 }, &mut out)?;
    let reserved = Sum {
        name: b"bvadd",
        ..M2
    };
    tell_sum(&mut writer, 6, reserved, &mut out)?;
    tell_sum(&mut writer, 7, Sum { root: 4, ..M2 }, &mut out)?;
    let rotated = Sum {
        bits: &ELEVEN,
        kind: ROTL,
        ..M2
    };
    tell_sum(&mut writer, 8, rotated, &mut out)?;
    let never_called = Problem {
        fnames: b"f",
        fname_start: &[0],
        fname_len: &[1],
        func_width: &[8],
        ..M1
    };
    tell(&mut writer, 9, &never_called, &mut out)?;
    let selected = Problem {
        nodes: &SELECT,
        bits: &[0; 32],
        ..M1
    };
    tell(&mut writer, 10, &selected, &mut out)
}
