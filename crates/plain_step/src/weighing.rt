// The weight of a setting of the next conditions: "the product over conditions of w or W − w".
ghost use Rattle.std.specs.Prelude.{◌≡◌, ◌-◌, ◌≤◌, leb};
ghost use Rattle.whole.specs.Cases.{if};
ghost use Rattle.theory.specs.Load.{site_at};
ghost use Rattle.theory.specs.Meaning.{nth};
ghost use Rattle.theory.specs.Value.{bits};
ghost use Rattle.plain_pass.specs.Parts.{Parts};
ghost use Rattle.plain_step.specs.PointState.{ModelReady, StandingPoint, SiteAction, Chance, ChancesAre, OutOf, Weighs};

use super::sites;
use model_form::CONDITIONS;
use plain_pass::{Point, Slot};
use value_walk::states::condition;

fn chance(model: &[u8], parts: &[u32], a: u16, k: u8, x: Point) -> u64
    requires { StandingPoint model.now x × SiteAction model.now a × (1 ≤ k) × Parts model.now parts.now }
    ensures { Chance model.now a k x result }
{
    if sites::conditions(model) < k {
        return 0;
    }
    let g = Slot {
        command: 0x21,
        action: a,
        index: k,
    };
    plain_evaluate::chance_at(model, parts, g, x)
}

// The chances of an action at a state: the weights, out of W, that the conditions are yes next; 0 beyond condition n.
pub fn chances(model: &[u8], parts: &[u32], a: u16, x: Point) -> [u64; CONDITIONS]
    requires { StandingPoint model.now x × SiteAction model.now a × Parts model.now parts.now }
    ensures { ChancesAre model.now a x result }
{
    let mut c = [0u64; CONDITIONS];
    for k in 0..CONDITIONS {
        c[k] = chance(model, parts, a, k as u8 + 1, x);
    }
    c
}

// w where the setting has condition k, else W − w; 1 beyond condition n.
fn factor(n: u8, total: u8, k: u8, w: u64, r: u32) -> u64
    requires { (1 ≤ k) × (w ≤ total) }
    ensures { result ≡ if (leb k n) (if (nth (bits n r) k) w (total - w)) 1 }
{
    if n < k {
        1
    } else if condition(u32::from(n), r, u32::from(k)) {
        w
    } else {
        u64::from(total) - w
    }
}

pub fn weight(model: &[u8], c: [u64; CONDITIONS], r: u32) -> u64
    requires { ModelReady model.now × OutOf (site_at model.now).weights c }
    ensures { Weighs (site_at model.now) c r result }
{
    let n = sites::conditions(model);
    let total = sites::weights(model);
    let mut weight = 1;
    for k in 0..CONDITIONS {
        weight *= factor(n, total, k as u8 + 1, c[k], r);
    }
    weight
}
