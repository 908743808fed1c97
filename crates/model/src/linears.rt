// Commands with a linear, which are most of a long model: a run of them is judged without the other commands' cases.
ghost use Rattle.std.specs.Prelude.{◌≡◌, true, List, Bool, ◌+◌, ◌≤◌, length};
ghost use Rattle.theory.specs.Form.{linear_bytes};
ghost use Rattle.theory.specs.Command.{byte_at};
ghost use Rattle.model_form.specs.Forms.{form_of};
ghost use Rattle.model.specs.Walk.{Walk, PassesLinear};

use model_facts::Seen;
use model_form::Form;
use model_progress::{Progress, Site, operands};

// The offset behind a run, and what the run leaves.
#[derive(Clone, Copy)]
pub struct Stretch {
    pub at: usize,
    pub seen: Seen,
}

fn leaf(form: Form, model: &[u8], at: usize, s: Progress) -> Option<Seen>
    requires { (byte_at model.now at ≡ 0x10) × (at + (1 + linear_bytes (form_of form)) ≤ length model.now) }
    ensures { PassesLinear (form_of form) model.now at s result }
{
    if model_command_rules::leaf(form, model, at + 1, s) != 0 {
        return None;
    }
    let weight = operands::weight(form, model, at + 1, s.site.weights);
    Some(s.seen.pushed(false, weight, false))
}

fn test(form: Form, model: &[u8], at: usize, s: Progress) -> Option<Seen>
    requires { (byte_at model.now at ≡ 0x12) × (at + (1 + linear_bytes (form_of form)) ≤ length model.now) }
    ensures { PassesLinear (form_of form) model.now at s result }
{
    if model_command_rules::test(form, model, at + 1, s) != 0 {
        return None;
    }
    Some(s.seen.joined(false))
}

// What the command at an offset leaves where it breaks no rule; one without a linear, or cut short, is not passed here.
fn turn(form: Form, model: &[u8], at: usize, s: Progress) -> Option<Seen>
    ensures { PassesLinear (form_of form) model.now at s result }
{
    if model.len() <= at || model.len() - at <= form.linear_bytes() {
        return None;
    }
    match model[at] {
        0x10 => leaf(form, model, at, s),
        0x12 => test(form, model, at, s),
        _ => None,
    }
}

// As far as they break no rule: the command at fault, and any other, is `rest`'s.
pub fn pass(form: Form, model: &[u8], from: usize, site: Site, before: Seen) -> Stretch
    ensures { (from ≤ result.at) × ((F : List Bool) → Walk (form_of form) model.now from (record { begun = true; site = site; seen = before }) F
        → Walk (form_of form) model.now result.at (record { begun = true; site = site; seen = result.seen }) F) }
{
    let mut seen = before;
    let mut at = from;
    loop {
        let s = Progress {
            begun: true,
            site,
            seen,
        };
        let Some(after) = turn(form, model, at, s) else {
            return Stretch { at, seen };
        };
        seen = after;
        at += 1 + form.linear_bytes();
    }
}
