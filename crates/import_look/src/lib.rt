// The command of an atom or of a result, read where it stands in the text.
#![tactic(auto)]

ghost use Rattle.std.specs.Prelude.{◌≡◌, ◌≤◌, ◌<◌, length};
ghost use Rattle.whole.specs.Linears.{numbers};
ghost use Rattle.import_model.specs.Import.{text_most};
ghost use Rattle.import_look.specs.Looks.{Skips, operator_of, condition_told, tested_of, Compares, Looks, LeafLooks};

use import_frames::is_blank;
use import_linears::all_fit;
use import_sum_at::sum_at;
use model_command::byte_at;
use whole::NUMBERS;
use whole_linears::sub;

// A command by its byte (10 to 13), with its operand; of an atom, whether the outcome where it holds is written first.
#[derive(Clone, Copy)]
pub struct Told {
    pub kind: u8,
    pub first: bool,
    pub condition: u8,
    pub linear: [i64; NUMBERS],
}

// Of a comparison: whether the outcome where it holds is written first, whether its difference is right less left, and
// the place behind it.
#[derive(Clone, Copy)]
pub struct Operator {
    pub first: bool,
    pub turned: bool,
    pub next: usize,
}

// Behind white space.
fn skip(text: &[u8], at: usize) -> usize
    requires { at ≤ length text.now }
    ensures { Skips text.now at result }
{
    for i in at..text.len() {
        if !is_blank(text[i]) {
            return i;
        }
    }
    text.len()
}

fn operator_at(text: &[u8], i: usize) -> Operator
    requires { (i ≤ length text.now) × (length text.now ≤ text_most) }
    ensures { (result ≡ operator_of text.now i) × (result.next ≤ length text.now) }
{
    if i + 1 < text.len() {
        let less = byte_at(text, i) == b'<';
        if byte_at(text, i + 1) == b'=' {
            return Operator {
                first: true,
                turned: !less,
                next: i + 2,
            };
        }
        return Operator {
            first: false,
            turned: less,
            next: i + 1,
        };
    }
    Operator {
        first: false,
        turned: false,
        next: i,
    }
}

fn difference(a: [i64; NUMBERS], b: [i64; NUMBERS], first: bool) -> Told
    requires { (length a ≡ numbers) × (length b ≡ numbers) }
    ensures { result ≡ tested_of a b first }
{
    if all_fit(a) {
        if all_fit(b) {
            return Told {
                kind: 0x12,
                first,
                condition: 0,
                linear: sub(a, b),
            };
        }
    }
    Told {
        kind: 0x12,
        first,
        condition: 0,
        linear: a,
    }
}

// A comparison's test.
fn comparison(text: &[u8], at: usize) -> Told
    requires { (at ≤ length text.now) × (length text.now ≤ text_most) }
    ensures { Compares text.now at result }
{
    let a = sum_at(text, at);
    let o = operator_at(text, a.next);
    let b = sum_at(text, o.next);
    if o.turned {
        return difference(b.linear, a.linear, o.first);
    }
    difference(a.linear, b.linear, o.first)
}

// The condition whose digit stands at a place: one now, or one of the next step.
fn condition(text: &[u8], at: usize, base: u8) -> Told
    requires { base ≤ 4 }
    ensures { result ≡ condition_told text.now at base }
{
    let b = byte_at(text, at);
    let number = if b >= b'0' { b - b'0' + base } else { 0 };
    Told {
        kind: 0x11,
        first: true,
        condition: number,
        linear: [0; NUMBERS],
    }
}

// The atom at a place.
pub fn look(text: &[u8], at: usize) -> Told
    requires { (at ≤ length text.now) × (length text.now ≤ text_most) }
    ensures { Looks text.now at result }
{
    let i = skip(text, at);
    match byte_at(text, i) {
        b'C' => condition(text, i + 1, 0),
        b'N' => condition(text, i + 1, 4),
        _ => comparison(text, at),
    }
}

// The result at a place.
pub fn leaf(text: &[u8], at: usize) -> Told
    requires { at ≤ length text.now }
    ensures { LeafLooks text.now at result }
{
    let i = skip(text, at);
    if byte_at(text, i) == b'f' {
        return Told {
            kind: 0x13,
            first: true,
            condition: 0,
            linear: [0, 0, 0, 0, 0, 0, 0, 0, 0],
        };
    }
    let a = sum_at(text, at);
    let linear = a.linear;
    Told {
        kind: 0x10,
        first: true,
        condition: 0,
        linear,
    }
}
