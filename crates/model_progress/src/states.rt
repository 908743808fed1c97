// What a command that breaks no rule leaves.
ghost use Rattle.std.specs.Prelude.{◌≡◌, replicate, true, false, [], ℕ, List};
ghost use Rattle.theory.specs.Command.{whole, read_in};
ghost use Rattle.theory.specs.Widths.{flags_most};
ghost use Rattle.theory.specs.Verdict.{at_start, site_of, first_broken, first_rules};
ghost use Rattle.theory.specs.Verdict.{after as after-command};
ghost use Rattle.theory.specs.Form.{Form as Written};
ghost use Rattle.model_form.specs.Forms.{form_of};
ghost use Rattle.model_command.specs.CursorReadings.{command_of_in};
ghost use Rattle.model_progress.specs.GivenFlags.{ProgressStands, Leaves, site_as};
ghost use Rattle.model_facts.specs.Seen.{seen as seen_of};

use super::{Progress, Site, operands};
use model_command::Command;
use model_facts::Seen;
use model_form::{CONDITIONS, Form};

pub fn start() -> Progress
    ensures { ProgressStands result (replicate flags_most false) at_start }
{
    Progress {
        begun: false,
        site: Site {
            levels: 0,
            conditions: 0,
            actions: 0,
            weights: 0,
        },
        seen: Seen::none(),
    }
}

fn begun(m: u8, n: u8, a: u16, w: u8) -> Progress
    ensures { (result.begun ≡ true) × ((site_as result.site ≡ site_of m n a w) × (seen_of result.seen ≡ [])) }
{
    Progress {
        begun: true,
        site: Site {
            levels: m,
            conditions: n,
            actions: a,
            weights: w,
        },
        seen: Seen::none(),
    }
}

// Behind the first command, which is a site where it breaks no rule.
pub fn first(c: Command) -> Progress
    ensures { (form : Written) (B : List ℕ) (at : ℕ) → first_broken (first_rules form (command_of_in form B at c)) ≡ 0
        → (result.begun ≡ true) × ProgressStands result (replicate flags_most false) (after-command at_start (command_of_in form B at c)) }
{
    match c {
        Command::Site {
            levels,
            conditions,
            actions,
            weights,
        } => begun(levels, conditions, actions, weights),
        _ => start(),
    }
}

fn with_seen(s: Progress, seen: Seen) -> Progress
    ensures { result ≡ record { begun = s.begun; site = s.site; seen = seen } }
{
    Progress { seen, ..s }
}

// Behind the command at an offset; what it gives is `given::note`'s.
pub fn after(form: Form, model: &[u8], at: usize, c: Command, s: Progress) -> Progress
    requires { whole (command_of_in (form_of form) model.now at c) ≡ read_in (form_of form) model.now at }
    ensures { Leaves (form_of form) model.now at s c result }
{
    let seen = s.seen;
    match c {
        Command::Site {
            levels,
            conditions,
            actions,
            weights,
        } => begun(levels, conditions, actions, weights),
        Command::Leaf => {
            let weight = operands::weight(form, model, at + 1, s.site.weights);
            with_seen(s, seen.pushed(false, weight, false))
        }
        Command::Condition(k) => with_seen(s, seen.joined(CONDITIONS < usize::from(k))),
        Command::Test => with_seen(s, seen.joined(false)),
        Command::Forbidden => with_seen(s, seen.pushed(false, false, true)),
        Command::Give { .. } => with_seen(s, seen.popped()),
        Command::Name(_) => s,
        Command::End => s,
    }
}
