// "Every reward, chance and next level is given exactly once", the end worth at most once: a flag for each, and for each name.
ghost use Rattle.std.specs.Prelude.{◌≡◌, true, false, ◌<◌, get_or, set};
ghost use Rattle.model_progress.specs.GivenFlags.{base_of, row_given, action_given, all_given, site_as, noted};
ghost use Rattle.model_progress.specs.GivenFlags.{place as place_of};

use super::Site;
use model_command::Command;
use model_form::{ACTIONS, CONDITIONS, LEVELS};

// Flags in all: the end worth's, then rows of the actions from 1 on, for the reward, each chance, each next level and the name.
pub const FLAGS: usize = (2 + CONDITIONS + LEVELS) * ACTIONS + 1;

// The row of names: those before it are for the reward, the chances and the next levels.
pub const NAMES: usize = 1 + CONDITIONS + LEVELS;

// The place of a flag: rewards have base 0 and i 0, chances base 0, next levels the conditions as their base, names their row and i 0; the end worth, of action 0, has all 0.
pub fn place(base: usize, i: u8, a: u16) -> usize
    requires { base < 256 }
    ensures { result ≡ place_of base i a }
{
    (base + usize::from(i)) * ACTIONS + usize::from(a)
}

// The base of what a command gives.
pub fn base(command: u8) -> usize
    ensures { (result ≡ base_of command) × (result < 256) }
{
    if command == 0x22 { CONDITIONS } else { 0 }
}

pub fn has(flags: &[bool], i: usize) -> bool
    ensures { result ≡ get_or flags.now i false }
{
    flags.get(i).copied().unwrap_or(false)
}

fn raise(flags: &mut [bool], i: usize)
    ensures { flags.new ≡ set flags.old i true }
{
    if i < flags.len() {
        flags[i] = true;
    }
}

// What a command gives is flagged.
pub fn note(flags: &mut [bool], c: Command)
    ensures { flags.new ≡ noted c flags.old }
{
    match c {
        Command::Give {
            command,
            action,
            index,
        } => raise(flags, place(base(command), index, action)),
        Command::Name(action) => raise(flags, place(NAMES, 0, action)),
        _ => {}
    }
}

// Flags 1 to n of an action's row.
fn row(flags: &[bool], base: usize, a: u16, n: u8) -> bool
    requires { base < 256 }
    ensures { result ≡ row_given flags.now base a n }
{
    for i in 0..n {
        if !has(flags, place(base, i + 1, a)) {
            return false;
        }
    }
    true
}

fn action(flags: &[bool], site: Site, a: u16) -> bool
    ensures { result ≡ action_given flags.now (site_as site) a }
{
    has(flags, place(0, 0, a))
        && row(flags, 0, a, site.conditions)
        && row(flags, CONDITIONS, a, site.levels)
}

// All that the site asks for.
pub fn complete(flags: &[bool], site: Site) -> bool
    ensures { result ≡ all_given flags.now (site_as site) }
{
    for a in 0..site.actions {
        if !action(flags, site, a + 1) {
            return false;
        }
    }
    true
}
