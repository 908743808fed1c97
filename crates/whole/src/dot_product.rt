// A linear's numerator at a point: each coefficient times its numerator, and the constant times the denominator.
ghost use Rattle.std.specs.Prelude.{◌≡◌};
ghost use Rattle.whole.specs.Linears.{Smalls, dot_list};
ghost use Rattle.whole.specs.Numerator.{words};

use super::limits::mag;
use super::two_words::{from_word, product, sum};
use super::{NUMBERS, Numerator};

// 2²⁷: up to 31 products of such a number and one of 32 bits have a sum of one word.
const FEW: u64 = 134217728;

// The sum of the products, in two words.
fn wide(c: [i64; NUMBERS], n: [i32; NUMBERS]) -> Numerator
    requires { Smalls c }
    ensures { result ≡ words (dot_list c n) }
{
    let mut s = Numerator { low: 0, high: 0 };
    for k in 0..NUMBERS {
        s = sum(s, product(c[k], n[k]));
    }
    s
}

// The same: in one word, unless a number is met that may not fit there.
pub fn dot(c: [i64; NUMBERS], n: [i32; NUMBERS]) -> Numerator
    requires { Smalls c }
    ensures { result ≡ words (dot_list c n) }
{
    let mut s: i64 = 0;
    for i in 0..NUMBERS {
        if mag(c[i]) > FEW {
            return wide(c, n);
        }
        s += c[i] * i64::from(n[i]);
    }
    from_word(s)
}
