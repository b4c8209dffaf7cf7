// The symbols of the operators, read: from a word of a script to the kind that it names.
// Under "Ruled out" stand wrong programs that a public function's contract refuses.
#![tactic(auto)]

ghost use Rattle.std.specs.Prelude.{◌≡◌, ◌≤◌, ◌<◌, length};
ghost use Rattle.readback.specs.Reader.{kind_of};
ghost use Rattle.script_symbols.specs.Packed.{packed, short_kind, kind_in};

// A word of seven bytes at most as one number, the first byte the lowest, with a 1 above the last.
fn pack(w: &[u8]) -> u64
    requires { length w.now ≤ 7 }
    ensures { result ≡ packed w.now }
{
    let mut v = 1;
    for c in w.iter().rev() {
        v = v * 256 + u64::from(*c);
    }
    v
}

// The kind of a packed word.
// Kept: a `match` on the bytes themselves was tried. It leaves 155 goals, one for each byte that may differ, which name no byte.
fn short_kind(v: u64) -> Option<u8>
    ensures { kind_in result ≡ short_kind v }
{
    match v {
        1 => Some(0),
        1530692466274 => Some(2), // bvadd
        1522388924002 => Some(3), // bvsub
        1565338203746 => Some(4), // bvmul
        411670005773922 => Some(5), // bvudiv
        401757456135778 => Some(6), // bvurem
        1530860238434 => Some(7), // bvand
        6214874722 => Some(8), // bvor
        1591008065122 => Some(9), // bvxor
        1565120493154 => Some(10), // bvshl
        407267915363938 => Some(11), // bvlshr
        407267914643042 => Some(12), // bvashr
        104817961519577189 => Some(14), // extract
        409436605542243 => Some(15), // concat
        23426153 => Some(18), // ite
        317 => Some(19), // =
        1599547471458 => Some(21), // bvult
        1535122962018 => Some(22), // bvule
        1599463585378 => Some(23), // bvugt
        1535039075938 => Some(24), // bvuge
        1599547340386 => Some(25), // bvslt
        1535122830946 => Some(26), // bvsle
        1599463454306 => Some(27), // bvsgt
        1535038944866 => Some(28), // bvsge
        24407918 => Some(29), // not
        23359073 => Some(30), // and
        94831 => Some(31), // or
        1599597344354 => Some(32), // bvnot
        1543594997346 => Some(33), // bvneg
        411670005642850 => Some(35), // bvsdiv
        401757456004706 => Some(36), // bvsrem
        _ => None,
    }
}

// The kind of a word of more than seven bytes.
fn long_kind(w: &[u8]) -> Option<u8>
    requires { 7 < length w.now }
    ensures { kind_in result ≡ kind_of w.now }
{
    if echo_names::same_bytes(w, b"distinct") {
        return Some(20);
    }
    if echo_names::same_bytes(w, b"zero_extend") {
        return Some(16);
    }
    if echo_names::same_bytes(w, b"sign_extend") {
        return Some(17);
    }
    if echo_names::same_bytes(w, b"rotate_left") {
        return Some(34);
    }
    if echo_names::same_bytes(w, b"rotate_right") {
        return Some(13);
    }
    None
}

// The kind of the operator that a word names, if it names one. The empty word is that of a variable, whose symbol is empty: no term has it as its
// head. Ruled out: `bvslt` taken for `bvsle`; a word that only begins with a symbol.
pub fn kind_of(w: &[u8]) -> Option<u8>
    ensures { kind_in result ≡ kind_of w.now }
{
    if w.len() <= 7 {
        return short_kind(pack(w));
    }
    long_kind(w)
}
