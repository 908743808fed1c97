// The answer of a name: place, length, the name, zeros up to 16.
ghost use Rattle.std.specs.Prelude.{◌+◌, ◌≤◌, length};
ghost use Rattle.text_decimal.specs.Put.{PutAt};
ghost use Rattle.c_name_answers.specs.Names.{padded_name, named_bytes};

use c_answers::{put_le, put_pair};
use text_decimal::put_bytes;

// A name of at most 16 bytes, and zeros behind it.
fn put_padded(out: &mut [u8], at: usize, name: &[u8]) -> usize
    requires { (length name.now ≤ 16) × (at + 16 ≤ length out.old) }
    ensures { PutAt out.old at (padded_name name.now) result out.new }
{
    let n = put_bytes(out, at, name);
    put_le(out, n, 0, 16 - name.len())
}

pub fn put_name(out: &mut [u8], place: usize, name: &[u8]) -> usize
    requires { (length name.now ≤ 16) × (24 ≤ length out.old) }
    ensures { PutAt out.old 0 (named_bytes place name.now) result out.new }
{
    let n = put_pair(out, place, name.len());
    put_padded(out, n, name)
}
