// Models written as text, for test programs: pairs of hexadecimal digits, O for a number 0 (four bytes), and letters for
// what depends on the widths of operands, so that a change of them changes the letters' meaning here and no text:
// S for the byte of a site; A, behind the low byte of an action, for its other bytes; K, behind the coefficients of L1 to
// L4, for those of further levels; P for a leaf 0. Other characters stand for nothing. And how such programs read and print.
#![tactic(auto)]

ghost use Rattle.std.specs.Prelude.{◌≤◌, ◌<◌, length, IfSome};

pub mod report; // report.rt: numbers and refusals printed

// Where a byte first stands from an offset on; the length where it does not.
pub fn find(text: &[u8], from: usize, b: u8) -> usize
    requires { from ≤ length text.now }
    ensures { (from ≤ result) × (result ≤ length text.now) }
{
    for i in from..text.len() {
        if text[i] == b {
            return i;
        }
    }
    text.len()
}

// The value of a digit.
fn digit(c: u8) -> Option<u8>
    ensures { IfSome result (λ d. d < 16) }
{
    match c {
        b'0'..=b'9' => Some(c - b'0'),
        b'a'..=b'f' => Some(c - b'a' + 10),
        _ => None,
    }
}

// Bytes of a number; of a leaf and its numbers; of an action behind the low one; of coefficients behind L4.
const NUMBER: usize = 4;

const LEAF: usize = 37;

const ACTION_MORE: usize = 1;

const COEFFICIENTS_MORE: usize = 16;

// How many bytes a character stands for, with the one behind it.
fn count(c: u8) -> usize {
    if digit(c).is_some() {
        return 1;
    }
    match c {
        b'S' => 1,
        b'A' => ACTION_MORE,
        b'K' => COEFFICIENTS_MORE,
        b'O' => NUMBER,
        b'P' => LEAF,
        _ => 0,
    }
}

// The first of these bytes; the others are 0.
fn first(c: u8, d: u8) -> u8 {
    if c == b'S' {
        return 0x02;
    }
    if c == b'P' {
        return 0x10;
    }
    match (digit(c), digit(d)) {
        (Some(high), Some(low)) => high * 16 + low,
        _ => 0,
    }
}

fn put(out: &mut [u8], at: usize, b: u8) {
    if at < out.len() {
        out[at] = b;
    }
}

// A digit is read with the one behind it.
fn step(c: u8) -> usize
    ensures { (1 ≤ result) × (result ≤ 2) }
{
    if digit(c).is_some() { 2 } else { 1 }
}

// The character at a place, 0 past the end.
fn char_at(text: &[u8], i: usize) -> u8 {
    text.get(i).copied().unwrap_or(0)
}

// The bytes that a text stands for, into a buffer of zeros as far as there is room; how many.
pub fn bytes_of(text: &[u8], out: &mut [u8]) -> usize
    ensures { result ≤ length out.old }
{
    let mut at: usize = 0;
    let mut i: usize = 0;
    // No `for`: a digit goes with the one behind it.
    while i < text.len() {
        let c = text[i];
        let n = count(c);
        if out.len() - at < n {
            return at;
        }
        let b = first(c, char_at(text, i + 1));
        put(out, at, b);
        at += n;
        i += step(c);
    }
    at
}
