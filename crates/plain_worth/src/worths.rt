// The worth of a state and the worth of an action, which call each other, steps left falling.
ghost use Rattle.std.specs.Prelude.{◌≤◌};
ghost use Rattle.plain_pass.specs.Parts.{NoNotes, Parts};
ghost use Rattle.plain_step.specs.PointState.{StandingPoint, SiteAction};
ghost use Rattle.plain_worth.specs.Worths.{Earned, StateWorth, ActionWorth};

use plain_limits::Total;
use plain_pass::{Point, Slot};
use plain_step::{moves, sites, weighing};
use whole::limits::power_within;

// "W^(n×h), a reward, W^(n×h) × reward"; none where the reward is forbidden, "W^(n×h) first".
fn earned(model: &[u8], parts: &[u32], steps: u32, a: u16, x: Point) -> Total
    requires { StandingPoint model.now x × SiteAction model.now a × (steps ≤ 8) × Parts model.now parts.now }
    ensures { Earned model.now steps a x result }
{
    let n = u32::from(sites::conditions(model));
    let p = power_within(u32::from(sites::weights(model)), n * steps);
    if p.is_none() {
        return Total::Over;
    }
    let g = Slot {
        command: 0x20,
        action: a,
        index: 0,
    };
    let Some(reward) = plain_evaluate::reward_at(model, parts, g, x) else {
        return Total::None;
    };
    plain_limits::worth_of(plain_limits::times(p, plain_limits::narrow(reward)))
}

// With no step left, "an end worth times D beyond ±(2⁶² − 1) is 11".
fn ended(model: &[u8], parts: &[u32], x: Point) -> Total
    requires { StandingPoint model.now x × Parts model.now parts.now }
    ensures { StateWorth model.now 0 x result }
{
    let z = plain_limits::narrow(plain_evaluate::end_at(model, parts, x));
    plain_limits::worth_of(z)
}

// "the worth of a state tries each action"
#[cycle(action_worth_state_worth)]
fn state_worth(model: &[u8], parts: &[u32], steps: u32, x: Point) -> Total
    requires { StandingPoint model.now x × (steps ≤ 8) × Parts model.now parts.now }
    ensures { StateWorth model.now steps x result }
{
    if steps == 0 {
        return ended(model, parts, x);
    }
    let last = sites::actions(model);
    let mut best = plain_limits::numbered(1, action_worth(model, parts, steps, 1, x));
    let mut a: u16 = 2;
    loop {
        if plain_limits::actions_done(best, a, last) {
            return best;
        }
        best = plain_limits::better(best, a, action_worth(model, parts, steps, a, x));
        a += 1;
    }
}

// "an action's worth sums the worth of its next states; those of weight 0 are skipped"; it is left at the first none.
#[cycle(action_worth_state_worth)]
pub fn action_worth(model: &[u8], parts: &[u32], steps: u32, a: u16, x: Point) -> Total
    requires { StandingPoint model.now x × SiteAction model.now a × (1 ≤ steps) × (steps ≤ 8) × Parts model.now parts.now }
    ensures { ActionWorth model.now steps a x result }
{
    let c = weighing::chances(model, parts, a, x);
    let count = sites::settings(model);
    let mut sum = earned(model, parts, steps, a, x);
    let mut r: u32 = 0;
    loop {
        if plain_limits::settings_done(sum, r, count) {
            return sum;
        }
        let w = weighing::weight(model, c, r);
        if w == 0 {
            r += 1;
            continue;
        }
        let Some(y) = moves::next_state(model, parts, a, x, r) else {
            return Total::Over;
        };
        if steps == 1 {
            sum = plain_limits::added(sum, w, ended(model, parts, y));
            r += 1;
            continue;
        }
        sum = plain_limits::added(sum, w, state_worth(model, parts, steps - 1, y));
        r += 1;
    }
}

// The worth of a state, where the diagrams begin noted first, in the words that are lent for it.
fn noted(model: &[u8], parts: &mut [u32], steps: u32, x: Point) -> Total
    requires { StandingPoint model.now x × (steps ≤ 8) × NoNotes parts.old }
    ensures { StateWorth model.now steps x result }
{
    plain_parts::find(model, parts);
    state_worth(model, parts, steps, x)
}

// The worth of a state; words for all actions are cleared only where a model has many.
pub fn worked(model: &[u8], steps: u32, x: Point) -> Total
    requires { StandingPoint model.now x × (steps ≤ 8) }
    ensures { StateWorth model.now steps x result }
{
    if sites::actions(model) as usize <= plain_parts::FEW_ACTIONS {
        let mut few = [0u32; plain_parts::FEW_SLOTS];
        return noted(model, &mut few, steps, x);
    }
    let mut all = [0u32; plain_parts::SLOTS];
    noted(model, &mut all, steps, x)
}
