// A line of a page.
ghost use Rattle.std.specs.Prelude.{◌≡◌, [], ◌∷◌, ◌++◌, ◌+◌, ◌≤◌, length, replicate};
ghost use Rattle.theory.specs.Widths.{name_bytes};
ghost use Rattle.text_decimal.specs.Put.{PutAt};
ghost use Rattle.whole_division.specs.Words.{whole_as};
ghost use Rattle.text_page_lines.specs.Page.{left, page_line};
ghost use Rattle.text_page_lines.specs.Columns.{FittingLine};

use super::columns::{steps_column, text_column};
use text_decimal::put_bytes;
use whole_division::Whole;

// What stands behind an empty name.
fn line_end() -> [u8; 17]
    ensures { result ≡ replicate name_bytes 32 ++ (10 ∷ []) }
{
    let mut end = [b' '; 17];
    end[16] = b'\n';
    end
}

// An action's name padded to 16, and the line's end.
fn put_name(out: &mut [u8], at: usize, name: &[u8]) -> usize
    requires { (length name.now ≤ name_bytes) × (at + 17 ≤ length out.old) }
    ensures { PutAt out.old at (left name_bytes name.now ++ (10 ∷ [])) result out.new }
{
    let end = line_end();
    let from = name.len();
    let n = put_bytes(out, at, name);
    put_bytes(out, n, &end[from..])
}

// The line of h steps: an action, its value and its name.
pub fn put_line(out: &mut [u8], at: usize, h: u32, a: u32, x: Whole, name: &[u8]) -> usize
    requires { FittingLine h (whole_as x) name.now × (at + 51 ≤ length out.old) }
    ensures { PutAt out.old at (page_line h a (whole_as x) name.now) result out.new }
{
    let steps = steps_column(h);
    let value = text_column(a, x);
    let n = put_bytes(out, at, &steps);
    let m = put_bytes(out, n, &value);
    put_name(out, m, name)
}
