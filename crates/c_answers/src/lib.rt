// An answer as bytes at the start of a lent slice, low byte first.
#![tactic(auto)]

ghost use Rattle.std.specs.Prelude.{◌≡◌, ◌+◌, ◌≤◌, length};
ghost use Rattle.text_decimal.specs.Put.{PutAt};
ghost use Rattle.c_answers.specs.Answers.{le, pair_bytes};
ghost use Rattle.c_answers.specs.Answers.{short as short-of};

// The two refusals that 17 comes before.
const PAST_LIMITS: u32 = 11;

const TABLES_FULL: u32 = 12;

// "17: buffer too short" yields to every refusal but 11 and 12.
pub fn short(number: u32) -> u32
    ensures { result ≡ short-of number }
{
    if number == 0 || number == PAST_LIMITS || number == TABLES_FULL {
        return 17;
    }
    number
}

// k bytes of x, from a place on; then the place behind them.
pub fn put_le(out: &mut [u8], at: usize, x: u64, k: usize) -> usize
    requires { at + k ≤ length out.old }
    ensures { PutAt out.old at (le k x) result out.new }
{
    // No `to_le_bytes`: behind a name k can be more than 8.
    let mut rest = x;
    for i in 0..k {
        out[at + i] = (rest % 256) as u8;
        rest /= 256;
    }
    at + k
}

// The first two numbers of an answer, 8 bytes.
pub fn put_pair(out: &mut [u8], place: usize, second: usize) -> usize
    requires { 8 ≤ length out.old }
    ensures { PutAt out.old 0 (pair_bytes place second) result out.new × (result ≡ 8) }
{
    let n = put_le(out, 0, place as u64, 4);
    put_le(out, n, second as u64, 4)
}
