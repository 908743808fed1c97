// "site" and its four numbers.
ghost use Rattle.std.specs.Prelude.{◌≤◌, length};
ghost use Rattle.import_walk.specs.Answers.{SiteAt};

use crate::number::setting_at;

pub const BYTE_MOST: u32 = 255;

pub const ACTION_MOST: u32 = 65535;

#[derive(Clone, Copy)]
pub struct Site {
    pub levels: u32,
    pub conditions: u32,
    pub actions: u32,
    pub weights: u32,
    pub next: usize,
}

// The numbers from an offset before "m" on, and where the first item begins.
pub fn header_at(text: &[u8], at: usize) -> Site
    requires { at ≤ length text.now }
    ensures { SiteAt text.now at result }
{
    let m = setting_at(text, at, BYTE_MOST);
    let n = setting_at(text, m.next, BYTE_MOST);
    let a = setting_at(text, n.next, ACTION_MOST);
    let w = setting_at(text, a.next, BYTE_MOST);
    Site {
        levels: m.value,
        conditions: n.value,
        actions: a.value,
        weights: w.value,
        next: w.next,
    }
}
