// An item's opening: the command that it becomes, with its operands.
ghost use Rattle.std.specs.Prelude.{◌≡◌, ◌≤◌, length, drop};
ghost use Rattle.import_model.specs.Import.{text_most};
ghost use Rattle.import_parts.specs.Walk.{word_of, index_in};
ghost use Rattle.import_walk.specs.Answers.{OpeningAt, ActionAt, BehindAt, kind_by};

use crate::number::{Number, digit_value, number_at};
use crate::site::ACTION_MOST;
use crate::steps::{ahead, byte_at, past};

pub const REWARD: u8 = 0x20;

pub const CHANCE: u8 = 0x21;

pub const LEVEL: u8 = 0x22;

pub const END: u8 = 0x23;

pub const NAME: u8 = 0x30;

#[derive(Clone, Copy)]
pub struct Opening {
    pub kind: u8,
    pub action: u32,
    pub index: u8,
    pub next: usize,
}

#[tactic(auto, unfolding(crate::specs::Answers::kind_by))]
fn kind_of(first: u8, second: u8) -> u8
    ensures { result ≡ kind_by first second }
{
    match first {
        b'r' => REWARD,
        b'c' => CHANCE,
        b'e' => END,
        _ if second == b'a' => NAME,
        _ => LEVEL,
    }
}

#[tactic(auto, unfolding(import_parts::specs::Walk::word_of))]
fn word_len(kind: u8) -> usize
    ensures { (result ≡ word_of kind) × (1 ≤ result) }
{
    match kind {
        REWARD | CHANCE => 6,
        END => 3,
        _ => 4,
    }
}

// The action, and what stands behind it.
fn action_at(text: &[u8], at: usize, kind: u8) -> Number
    requires { at ≤ length text.now }
    ensures { ActionAt text.now at kind result }
{
    let n = word_len(kind);
    let from = ahead(text, at, n);
    number_at(text, from, ACTION_MOST)
}

// The digit behind N or L.
fn index_at(text: &[u8], at: usize, kind: u8) -> u8
    requires { (at ≤ length text.now) × (length text.now ≤ text_most) }
    ensures { result ≡ index_in kind (drop at text.now) }
{
    if kind == CHANCE || kind == LEVEL {
        digit_value(byte_at(text, at + 1))
    } else {
        0
    }
}

// From an item's first letter.
pub fn opening_at(text: &[u8], at: usize) -> Opening
    requires { (at ≤ length text.now) × (length text.now ≤ text_most) }
    ensures { OpeningAt text.now at result }
{
    let first = byte_at(text, at);
    let second = byte_at(text, at + 1);
    let kind = kind_of(first, second);
    let a = action_at(text, at, kind);
    let index = index_at(text, a.next, kind);
    let next = behind(text, a.next, kind);
    Opening {
        kind,
        action: a.value,
        index,
        next,
    }
}

// Where the cases begin; at the string of a name.
fn behind(text: &[u8], at: usize, kind: u8) -> usize
    requires { at ≤ length text.now }
    ensures { BehindAt text.now at kind result }
{
    if kind == NAME {
        return at;
    }
    past(text, at, b'=')
}
