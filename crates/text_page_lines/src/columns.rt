// Numbers right-aligned in their columns, each with the space behind it.
ghost use Rattle.std.specs.Prelude.{◌≡◌, not, [], ◌∷◌, ◌++◌, ◌^◌, ◌<◌, eqb, pos, nat_abs, replicate};
ghost use Rattle.whole_division.specs.Words.{two_words, whole_as};
ghost use Rattle.text_page_lines.specs.Page.{steps_columns, value_columns, in_decimal, right, value_text};

use whole_division::{Whole, divide};

// The words of x without its sign.
fn magnitude(x: Whole) -> Whole
    requires { nat_abs (whole_as x) < 10 ^ 29 }
    ensures { two_words result.high result.low ≡ nat_abs (whole_as x) }
{
    if !x.below {
        return x;
    }
    match x.low.checked_add(1) {
        Some(low) => Whole {
            below: false,
            high: x.high,
            low,
        },
        None => Whole {
            below: false,
            high: x.high + 1,
            low: 0,
        },
    }
}

fn not_zero(high: u64, low: u64) -> bool
    ensures { result ≡ not (eqb (two_words high low) 0) }
{
    high != 0 || low != 0
}

fn blank() -> [u8; 31]
    ensures { result ≡ replicate 31 32 }
{
    [b' '; 31]
}

// A whole number, its digits from the last to the first, then its sign.
fn value_column(x: Whole) -> [u8; 31]
    requires { nat_abs (whole_as x) < 10 ^ 29 }
    ensures { result ≡ right value_columns (in_decimal (whole_as x)) ++ (32 ∷ []) }
{
    let n = magnitude(x);
    let mut high = n.high;
    let mut low = n.low;
    let mut out = blank();
    let mut at: usize = 30;
    loop {
        let q = divide(high, low, 10);
        at -= 1;
        out[at] = b'0' + q.rest as u8;
        high = q.high;
        low = q.low;
        if !not_zero(high, low) {
            break;
        }
    }
    if x.below {
        out[at - 1] = b'-';
    }
    out
}

// "none", which is no number.
fn none_column() -> [u8; 31]
    ensures { result ≡ right value_columns (110 ∷ 111 ∷ 110 ∷ 101 ∷ []) ++ (32 ∷ []) }
{
    let mut out = blank();
    out[26..30].copy_from_slice(b"none");
    out
}

// A value with the action read: none has action 0.
pub(crate) fn text_column(a: u32, x: Whole) -> [u8; 31]
    requires { nat_abs (whole_as x) < 10 ^ 29 }
    ensures { result ≡ right value_columns (value_text a (whole_as x)) ++ (32 ∷ []) }
{
    if a == 0 {
        return none_column();
    }
    value_column(x)
}

// Steps have one digit.
pub(crate) fn steps_column(h: u32) -> [u8; 3]
    requires { h < 10 }
    ensures { result ≡ right steps_columns (in_decimal (pos h)) ++ (32 ∷ []) }
{
    [b' ', b'0' + h as u8, b' ']
}
