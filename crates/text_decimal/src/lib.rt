// Bytes, decimal numbers and lines of them, written from a place of a lent buffer.
// Each writer answers the place behind what it wrote. A `.._len` function says first how long that is.
#![tactic(auto)]

ghost use Rattle.std.specs.Prelude.{◌≡◌, ℤ, ◌+◌, ◌≤◌, pos, length};
ghost use Rattle.theory.specs.Listing.{digits, spaced};
ghost use Rattle.text_decimal.specs.Put.{PutAt, number_bytes};

use whole::limits::mag;

pub mod lines; // lines.rt: some numbers, and lines of them

pub fn put_bytes(out: &mut [u8], at: usize, src: &[u8]) -> usize
    requires { at + length src.now ≤ length out.old }
    ensures { PutAt out.old at src.now result out.new }
{
    let end = at + src.len();
    out[at..end].copy_from_slice(src);
    end
}

// x in decimal, with at most left + 1 digits.
fn put_digits(out: &mut [u8], at: usize, x: u64, left: u32) -> usize
    requires { at + length (digits left x) ≤ length out.old }
    ensures { PutAt out.old at (digits left x) result out.new }
{
    let d = b'0' + (x % 10) as u8;
    if left == 0 || x < 10 {
        out[at] = d;
        return at + 1;
    }
    let n = put_digits(out, at, x / 10, left - 1);
    out[n] = d;
    n + 1
}

fn digits_len(x: u64, left: u32) -> usize
    requires { left ≤ 19 }
    ensures { (result ≡ length (digits left x)) × (result ≤ left + 1) }
{
    if left == 0 || x < 10 {
        return 1;
    }
    digits_len(x / 10, left - 1) + 1
}

// A number as lines have it: a space, a sign where it is negative, and its digits.
pub trait Decimal: Copy {
    ghost whole: { Self → ℤ };

    fn put_spaced(self, out: &mut [u8], at: usize) -> usize
        requires { at + length (spaced (whole self)) ≤ length out.old }
        ensures { PutAt out.old at (spaced (whole self)) result out.new };

    fn spaced_len(self) -> usize
        ensures { (result ≡ length (spaced (whole self))) × (result ≤ number_bytes) };
}

impl Decimal for u64 {
    ghost whole = { pos };

    fn put_spaced(self, out: &mut [u8], at: usize) -> usize {
        let n = put_bytes(out, at, b" ");
        put_digits(out, n, self, 19)
    }

    fn spaced_len(self) -> usize
        ensures { (result ≡ length (spaced (pos self))) × (result ≤ 21) }
    {
        digits_len(self, 19) + 1
    }
}

impl Decimal for i64 {
    ghost whole = { λ z. z };

    fn put_spaced(self, out: &mut [u8], at: usize) -> usize {
        let x = mag(self);
        if self < 0 {
            let n = put_bytes(out, at, b" -");
            return put_digits(out, n, x, 19);
        }
        x.put_spaced(out, at)
    }

    fn spaced_len(self) -> usize {
        let n = mag(self).spaced_len();
        if self < 0 { n + 1 } else { n }
    }
}
