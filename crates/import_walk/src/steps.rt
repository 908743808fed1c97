// Steps over the bytes.
ghost use Rattle.std.specs.Prelude.{◌≡◌, false, ◌≤◌, length, drop, get_or};
ghost use Rattle.import_parts.specs.Walk.{past as past_of, next_letter as next-letter-of, item_rest};
ghost use Rattle.import_walk.specs.Onward.{Onward, Ahead};

use crate::scan::scan;

// The byte at an offset, 0 past the end.
pub fn byte_at(text: &[u8], at: usize) -> u8
    ensures { result ≡ get_or text.now at 0 }
{
    if at < text.len() { text[at] } else { 0 }
}

// n bytes on, or the end.
pub fn ahead(text: &[u8], at: usize, n: usize) -> usize
    requires { at ≤ length text.now }
    ensures { Ahead text.now at n result }
{
    let left = text.len() - at;
    if n < left { at + n } else { text.len() }
}

// Behind the first byte c, or the end.
pub fn past(text: &[u8], from: usize, c: u8) -> usize
    requires { from ≤ length text.now }
    ensures { Onward text.now from result (past_of c (drop from text.now)) }
{
    for i in from..text.len() {
        if text[i] == c {
            return i + 1;
        }
    }
    text.len()
}

// The first letter of the next item or else, or the end.
pub fn next_letter(text: &[u8], from: usize) -> usize
    requires { from ≤ length text.now }
    ensures { Onward text.now from result (next-letter-of false (drop from text.now)) }
{
    scan(text, from, false)
}

// From where an item's cases begin to the next item, or the end.
pub fn end_of_item(text: &[u8], at: usize) -> usize
    requires { at ≤ length text.now }
    ensures { Onward text.now at result (item_rest (drop at text.now)) }
{
    let other = next_letter(text, at);
    let result = past(text, other, b':');
    next_letter(text, result)
}
