// The state after an action and a setting of the next conditions.
ghost use Rattle.std.specs.Prelude.{◌≡◌};
ghost use Rattle.theory.specs.Load.{site_at};
ghost use Rattle.plain_pass.specs.Pass.{FlatPoint};
ghost use Rattle.plain_pass.specs.Parts.{Parts};
ghost use Rattle.plain_step.specs.PointState.{ModelReady, FitsSite, SiteAction, under, LevelIs, LeadsTo};

use super::sites;
use plain_pass::{Point, Slot};

fn with_setting(mut x: Point, r: u32) -> Point
    ensures { result ≡ under x r }
{
    x.setting = r;
    x
}

// The numerator of next level i at a point and its setting.
fn next_level(model: &[u8], parts: &[u32], a: u16, i: u8, x: Point) -> Option<i32>
    requires { ModelReady model.now × SiteAction model.now a × Parts model.now parts.now × FlatPoint x }
    ensures { LevelIs model.now a i x result }
{
    let g = Slot {
        command: 0x22,
        action: a,
        index: i,
    };
    plain_limits::in_32_bits(plain_evaluate::level_at(model, parts, g, x))
}

// The next state, unless one of its numerators leaves 32 bits; it has the setting as its mask, and the same denominator.
pub fn next_state(model: &[u8], parts: &[u32], a: u16, x: Point, r: u32) -> Option<Point>
    requires { ModelReady model.now × SiteAction model.now a × Parts model.now parts.now × FitsSite (site_at model.now) x }
    ensures { LeadsTo model.now a x r result }
{
    let y = with_setting(x, r);
    let mut n = x.n;
    let m = usize::from(sites::levels(model));
    for i in 0..m {
        n[i] = next_level(model, parts, a, i as u8 + 1, y)?;
    }
    Some(Point {
        mask: r,
        setting: 0,
        n,
        levels: m,
    })
}
