// Numbers of a linear and actions as bytes, low byte first, from a place of a lent buffer.
#![tactic(auto)]

ghost use Rattle.std.specs.Prelude.{◌≡◌, ◌+◌, ◌≤◌, T, length};
ghost use Rattle.theory.specs.Plain.{in_32_bits};
ghost use Rattle.import_numbers.specs.Numbers.{all_within};
ghost use Rattle.text_decimal.specs.Put.{PutAt};
ghost use Rattle.import_model.specs.Encode.{low_first, word_of, words_bytes, action_encoded};

use c_answers::put_le;
use whole::NUMBERS;

// Two's complement, 32 bits.
fn word(z: i64) -> u64
    requires { T (in_32_bits z) }
    ensures { result ≡ word_of z }
{
    let n = z.unsigned_abs();
    if z < 0 { 4294967296 - n } else { n }
}

fn put_word(out: &mut [u8], at: usize, z: i64) -> usize
    requires { T (in_32_bits z) × (at + 4 ≤ length out.old) }
    ensures { PutAt out.old at (low_first 4 (word_of z)) result out.new }
{
    put_le(out, at, word(z), 4)
}

// The nine numbers of a linear.
pub fn put_words(out: &mut [u8], at: usize, a: [i64; NUMBERS]) -> usize
    requires { T (all_within a) × (at + 36 ≤ length out.old) }
    ensures { PutAt out.old at (words_bytes a) result out.new }
{
    let mut next = at;
    for i in 0..NUMBERS {
        next = put_word(out, next, a[i]);
    }
    next
}

// An action, or how many there are.
pub fn put_action(out: &mut [u8], at: usize, action: u16) -> usize
    requires { at + 2 ≤ length out.old }
    ensures { PutAt out.old at (action_encoded action) result out.new }
{
    put_le(out, at, u64::from(action), 2)
}
