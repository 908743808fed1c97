// Linears of the model's bytes at a point, without a copy of their numbers.
ghost use Rattle.std.specs.Prelude.{◌≡◌, true, ◌+◌, ◌≤◌, IfSome, leb, pos, nat_abs, length};
ghost use Rattle.std.specs.Int.Signed.{le_z};
ghost use Rattle.whole.specs.Linears.{numbers};
ghost use Rattle.whole.specs.Numerator.{words};
ghost use Rattle.theory.specs.Command.{word_at, linear_at};
ghost use Rattle.theory.specs.Command.{signed as Signed-of};
ghost use Rattle.model_command.specs.CursorReadings.{linear_bytes};
ghost use Rattle.plain_pass.specs.Pass.{FlatPoint};
ghost use Rattle.plain_pass.specs.Pass.{numerator as numerator_of};

use super::numerator;
use plain_pass::Point;
use whole::{COEFFICIENTS, Numerator, two_words};

// 2²⁷: nine products of such a number and one of 32 bits have a sum of one word.
const FEW: u64 = 134217728;

// A number that may be one of nine.
fn few(a: i64) -> bool
    ensures { result ≡ leb (nat_abs a) 134217728 }
{
    a.unsigned_abs() <= FEW
}

pub fn number(model: &[u8], at: usize) -> i64
    requires { at + 4 ≤ length model.now }
    ensures { result ≡ Signed-of (word_at model.now at) }
{
    i64::from(model_command::word(model, at).cast_signed())
}

// Where a number is met that may not fit in one word.
fn wide_at(model: &[u8], at: usize, x: &Point) -> Numerator
    requires { at + linear_bytes ≤ length model.now }
    ensures { result ≡ words (numerator_of x.now (linear_at model.now at)) }
{
    numerator(model_command::linear_at(model, at), x)
}

// The linear at an offset, at a point, times d, in one word unless a number is met that may not fit there: the levels that the point has, then the constant.
fn short_at(model: &[u8], at: usize, x: &Point) -> Option<i64>
    requires { (at + linear_bytes ≤ length model.now) × FlatPoint x.now }
    ensures { IfSome result (λ sum. sum ≡ numerator_of x.now (linear_at model.now at)) }
{
    let mut sum: i64 = 0;
    for i in 0..x.levels {
        let a = number(model, at + i * 4);
        if !few(a) {
            return None;
        }
        sum += a * i64::from(x.n[i]);
    }
    let c = number(model, at + COEFFICIENTS * 4);
    if !few(c) {
        return None;
    }
    Some(sum + c * i64::from(x.n[COEFFICIENTS]))
}

// The linear at an offset, at a point, times d.
pub fn numerator_at(model: &[u8], at: usize, x: &Point) -> Numerator
    requires { (at + linear_bytes ≤ length model.now) × FlatPoint x.now }
    ensures { result ≡ words (numerator_of x.now (linear_at model.now at)) }
{
    match short_at(model, at, x) {
        Some(sum) => two_words::from_word(sum),
        None => wide_at(model, at, x),
    }
}

// "high is taken when p ≤ 0"
pub fn test_at(model: &[u8], at: usize, x: &Point) -> bool
    requires { (at + linear_bytes ≤ length model.now) × FlatPoint x.now }
    ensures { result ≡ le_z (numerator_of x.now (linear_at model.now at)) (pos 0) }
{
    match short_at(model, at, x) {
        Some(sum) => sum <= 0,
        None => two_words::not_positive(wide_at(model, at, x)),
    }
}
