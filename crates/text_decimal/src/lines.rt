// Some numbers, each behind a space, and lines of them: node words are signed, all other numbers are not.
ghost use Rattle.std.specs.Prelude.{◌≡◌, map, ◌+◌, ◌*◌, ◌^◌, ◌≤◌, length};
ghost use Rattle.theory.specs.Listing.{spaced_all, line};
ghost use Rattle.text_decimal.specs.Put.{PutAt, number_bytes, line_bytes};

use super::{Decimal, put_bytes};

fn put_all<T: Decimal>(out: &mut [u8], at: usize, xs: &[T]) -> usize
    requires { at + length (spaced_all (map T.whole xs.now)) ≤ length out.old }
    ensures { PutAt out.old at (spaced_all (map T.whole xs.now)) result out.new }
{
    let mut next = at;
    for x in xs {
        next = x.put_spaced(out, next);
    }
    next
}

fn all_len<T: Decimal>(xs: &[T]) -> usize
    requires { length xs.now ≤ 2 ^ 32 }
    ensures { (result ≡ length (spaced_all (map T.whole xs.now))) × (result ≤ number_bytes * length xs.now) }
{
    let mut n = 0;
    for x in xs {
        n += x.spaced_len();
    }
    n
}

pub fn put_line<T: Decimal>(out: &mut [u8], at: usize, start: &[u8], xs: &[T]) -> usize
    requires { at + length (line start.now (map T.whole xs.now)) ≤ length out.old }
    ensures { PutAt out.old at (line start.now (map T.whole xs.now)) result out.new }
{
    let n = put_bytes(out, at, start);
    let m = put_all(out, n, xs);
    put_bytes(out, m, b"\n")
}

pub fn line_len<T: Decimal>(start: &[u8], xs: &[T]) -> usize
    requires { (length start.now ≤ 2 ^ 32) × (length xs.now ≤ 2 ^ 32) }
    ensures { (result ≡ length (line start.now (map T.whole xs.now))) × (result ≤ line_bytes (length start.now) (length xs.now)) }
{
    start.len() + all_len(xs) + 1
}
