// A name's sixteen bytes, from its opening quotation mark.
ghost use Rattle.std.specs.Prelude.{◌≡◌, false, ◌≤◌, length, drop, get_or};
ghost use Rattle.import_parts.specs.Walk.{name_byte as name-byte-of, name_rest, string_rest, spelled, spells as spells-of};
ghost use Rattle.import_walk.specs.Onward.{Onward};

use crate::scan::{QUOTES, scan};
use crate::steps::{ahead, next_letter};

pub const SPACE: u8 = b' ';

// Behind the string whose characters begin here.
fn string_end(text: &[u8], from: usize) -> usize
    requires { from ≤ length text.now }
    ensures { Onward text.now from result (string_rest false (drop from text.now)) }
{
    scan(text, from, true)
}

// The next item, or the end.
pub fn end_of_name(text: &[u8], at: usize) -> usize
    requires { at ≤ length text.now }
    ensures { Onward text.now at result (name_rest (drop at text.now)) }
{
    let from = ahead(text, at, 1);
    let end = string_end(text, from);
    next_letter(text, end)
}

// Whether a byte is a character: a second quotation mark is, and what is none while none stands before it.
#[tactic(auto, unfolding(import_parts::specs::Walk::spells))]
fn spells(quoted: bool, k: u8) -> bool
    ensures { result ≡ spells-of quoted k }
{
    if k == QUOTES { quoted } else { !quoted }
}

// Character j of the string whose characters begin here, a space behind its last.
fn character(text: &[u8], from: usize, j: usize) -> u8
    requires { from ≤ length text.now }
    ensures { result ≡ get_or (spelled false (drop from text.now)) j 0x20 }
{
    let mut left = j;
    let mut quoted = false;
    for i in from..text.len() {
        let k = text[i];
        if spells(quoted, k) {
            if left == 0 {
                return k;
            }
            left -= 1;
            quoted = false;
        } else {
            if quoted {
                return SPACE;
            }
            quoted = true;
        }
    }
    SPACE
}

// Byte j of the sixteen.
pub fn name_byte(text: &[u8], at: usize, j: usize) -> u8
    requires { at ≤ length text.now }
    ensures { result ≡ name-byte-of j (drop at text.now) }
{
    let from = ahead(text, at, 1);
    character(text, from, j)
}
