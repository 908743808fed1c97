// The answer of a value: place, action, low word, high word.
#![tactic(auto)]

ghost use Rattle.std.specs.Prelude.{◌≡◌, ◌+◌, ◌≤◌, length};
ghost use Rattle.text_decimal.specs.Put.{PutAt};
ghost use Rattle.value_walk.specs.Out.{out as value_out};
ghost use Rattle.c_answers.specs.Answers.{answered};
ghost use Rattle.c_value_answers.specs.ValueAnswer.{word_bytes, value_bytes, value_answer};

use c_answers::{put_le, put_pair, short};
use value_walk::Value;
use whole::limits::bits;

// Low word, high word.
pub fn put_words(out: &mut [u8], at: usize, low: u64, high: i64) -> usize
    requires { at + 16 ≤ length out.old }
    ensures { PutAt out.old at (word_bytes low high) result out.new }
{
    let n = put_le(out, at, low, 8);
    put_le(out, n, bits(high), 8)
}

fn put_value(out: &mut [u8], v: Value) -> usize
    requires { 24 ≤ length out.old }
    ensures { PutAt out.old 0 (value_bytes (value_out v)) result out.new }
{
    let n = put_pair(out, v.place, v.action as usize);
    put_words(out, n, v.numerator.low, v.numerator.high)
}

// A value's number, and its bytes where they fit.
pub fn value(out: &mut [u8], v: Value) -> u32
    ensures { answered result out.new ≡ value_answer (value_out v) out.old }
{
    if out.len() < 24 {
        return short(v.number);
    }
    put_value(out, v);
    v.number
}
