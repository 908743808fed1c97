// Numbers, cut off at the greatest that their operand holds.
ghost use Rattle.std.specs.Prelude.{◌≡◌, ◌≤◌, ◌<◌, ◌-◌, length};
ghost use Rattle.import_parts.specs.Walk.{goes_on as goes-on-of, grown as grown-of};
ghost use Rattle.import_walk.specs.Onward.{NumberAt, SettingAt};

use crate::steps::past;
use import_state::bytes::{is_blank, is_digit};

#[derive(Clone, Copy)]
pub struct Number {
    pub value: u32,
    pub next: usize,
}

#[tactic(auto, unfolding(import_parts::specs::Walk::goes_on, import_state::specs::Bytes::blank, import_state::specs::Bytes::digit))]
fn goes_on(k: u8) -> bool
    ensures { result ≡ goes-on-of k }
{
    is_blank(k) || is_digit(k)
}

// What a digit stands for.
pub fn digit_value(k: u8) -> u8
    ensures { result ≡ k - 48 }
{
    k.saturating_sub(b'0')
}

// A number of one more byte.
fn grown(most: u32, value: u32, k: u8) -> u32
    requires { (most ≤ 65535) × (value ≤ most) }
    ensures { (result ≡ grown-of most value k) × (result ≤ most) }
{
    if is_blank(k) {
        return value;
    }
    most.min(value * 10 + u32::from(digit_value(k)))
}

// The number that stands here, and the token behind it.
pub fn number_at(text: &[u8], from: usize, most: u32) -> Number
    requires { (from ≤ length text.now) × (most ≤ 65535) }
    ensures { NumberAt text.now from most result }
{
    let mut value: u32 = 0;
    for i in from..text.len() {
        let k = text[i];
        if !goes_on(k) {
            return Number { value, next: i };
        }
        value = grown(most, value, k);
    }
    Number {
        value,
        next: text.len(),
    }
}

// The number behind the next "=".
pub fn setting_at(text: &[u8], from: usize, most: u32) -> Number
    requires { (from ≤ length text.now) × (most ≤ 65535) }
    ensures { SettingAt text.now from most result }
{
    let at = past(text, from, b'=');
    number_at(text, at, most)
}
