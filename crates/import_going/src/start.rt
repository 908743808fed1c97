// The atom or the result that comes first.
ghost use Rattle.std.specs.Prelude.{◌≤◌, ◌<◌, ◌≡◌, false, length, drop};
ghost use Rattle.import_model.specs.Import.{text_most};
ghost use Rattle.import_found.specs.Places.{after_colon, next_case, find as place_after, go as place-from};
ghost use Rattle.import_places.specs.Walking.{signs, two_to};
ghost use Rattle.import_going.specs.Turns.{cond_at, Spotted};

use crate::behind::behind;
use crate::bracket::is_cond;
use crate::turning::{Going, Turn, after_byte};
use import_places::{Next, find};

// An atom with its sign and the signs around it, a result, nothing, or more brackets than a text may have. No `Result`: the last
// two are taken apart from the others in one `match`.
#[derive(Clone, Copy)]
pub enum Spot {
    Atom(usize, bool, u64, u32),
    Result(usize),
    Lost,
    Deep,
}

// Whether a bracket of a condition is opened here.
#[tactic(auto, unfolding(crate::specs::Turns::cond_at))]
fn bracket_at(text: &[u8], i: usize, k: u8) -> bool
    requires { (i < length text.now) × (length text.now ≤ text_most) }
    ensures { result ≡ cond_at text.now i k }
{
    k == b'(' && is_cond(text, i + 1)
}

// The result behind an else.
fn result_behind(text: &[u8], from: usize) -> Spot
    requires { from ≤ length text.now }
    ensures { Spotted text.now (after_colon (drop from text.now)) result }
{
    match behind(text, from, b':') {
        Some(i) => Spot::Result(i),
        None => Spot::Lost,
    }
}

pub fn go(text: &[u8], from: usize, mask: u64, count: u32) -> Spot
    requires { (from ≤ length text.now) × (length text.now ≤ text_most) × (mask < two_to count) }
    ensures { Spotted text.now (place-from (drop from text.now) false (signs mask count)) result }
{
    let mut s = Going {
        sign: false,
        mask,
        count,
    };
    for i in from..text.len() {
        let k = text[i];
        let cond = bracket_at(text, i, k);
        match after_byte(s, k, cond) {
            Turn::On(g) => s = g,
            Turn::Atom => return Spot::Atom(i, s.sign, s.mask, s.count),
            Turn::Else => return result_behind(text, i + 1),
            Turn::Deep => return Spot::Deep,
            Turn::Lost => return Spot::Lost,
        }
    }
    Spot::Lost
}

// The first place of the next case.
pub fn next_case(text: &[u8], from: usize) -> Spot
    requires { (from ≤ length text.now) × (length text.now ≤ text_most) }
    ensures { Spotted text.now (next_case (drop from text.now)) result }
{
    match behind(text, from, b';') {
        Some(i) => go(text, i, 0, 0),
        None => Spot::Lost,
    }
}

// Where to go on once the atom at an offset is decided.
pub fn decided(text: &[u8], from: usize, value: bool, mask: u64, count: u32) -> Spot
    requires { (from ≤ length text.now) × (length text.now ≤ text_most) × (mask < two_to count) }
    ensures { Spotted text.now (place_after (drop from text.now) 0 value false (signs mask count)) result }
{
    match find(text, from, value, mask, count) {
        Next::Go(i, m, c) => go(text, i, m, c),
        Next::Result(i) => Spot::Result(i),
        Next::NextCase(i) => next_case(text, i),
        Next::Lost => Spot::Lost,
    }
}
