// "Given a model and a name, the planner gives the action's number.": one pass over the model's commands.
#![tactic(auto)]

ghost use Rattle.std.specs.Prelude.{◌≡◌, ◌+◌, ◌≤◌, length, take, drop};
ghost use Rattle.theory.specs.Widths.{name_bytes};
ghost use Rattle.theory.specs.Command.{whole, read_at, readings};
ghost use Rattle.model_command.specs.CursorReadings.{command_of};
ghost use Rattle.model_find.specs.declared.Bearers.TheVariants.{Nobody};
ghost use Rattle.model_find.specs.Find.{trim, same_name, refused_find};
ghost use Rattle.model_find.specs.Find.{find as find-of};
ghost use Rattle.model_find.specs.Tally.{found_as, with_reading, tally};
ghost use Rattle.model_find.specs.Tally.{joined as Joined-by};
ghost use Rattle.model_find.specs.Tally.{told as told_of};

use model_command::{Command, NAME_BYTES};
use model_form::Form;

// "refuses a name that no action carries with 18, and one that several carry with 19"
const NO_BEARER: u32 = 18;
// A name has one letter at least.
const NAME_LEAST: usize = 1;

const SEVERAL_BEARERS: u32 = 19;

// Number and place of a refusal, 0 and 0 where there is none; the action, 0 where there is one.
#[derive(Clone, Copy)]
pub struct Found {
    pub number: u32,
    pub place: usize,
    pub action: u32,
}

// Who carries a name, of the commands so far. No Result: none of the three is a failure before the pass is over.
#[derive(Clone, Copy)]
enum Bearers {
    Nobody,
    One(u32),
    Several,
}

fn refused(number: u32, place: usize) -> Found
    ensures { found_as result ≡ refused_find number place }
{
    Found {
        number,
        place,
        action: 0,
    }
}

fn joined(known: Bearers, action: u32) -> Bearers
    ensures { result ≡ Joined-by known action }
{
    match known {
        Bearers::Nobody => Bearers::One(action),
        Bearers::One(_) => Bearers::Several,
        Bearers::Several => Bearers::Several,
    }
}

// The bytes of a name command, from an offset on and without the spaces at their end, are the name.
fn spells(model: &[u8], from: usize, name: &[u8]) -> bool
    requires { from + name_bytes ≤ length model.now }
    ensures { result ≡ same_name (trim (take name_bytes (drop from model.now))) name.now }
{
    let size = model_names::trimmed_len(model, from, NAME_BYTES);
    &model[from..from + size] == name
}

fn with_command(model: &[u8], at: usize, c: Command, name: &[u8], known: Bearers) -> Bearers
    requires { whole (command_of model.now at c) ≡ read_at model.now at }
    ensures { result ≡ with_reading name.now known (whole (command_of model.now at c)) }
{
    if let Command::Name(a) = c {
        if spells(model, at + Form::New.behind_action(), name) {
            joined(known, u32::from(a))
        } else {
            known
        }
    } else {
        known
    }
}

fn bearers_of(model: &[u8], name: &[u8]) -> Bearers
    ensures { result ≡ tally name.now Nobody (readings model.now) }
{
    let mut at: usize = 0;
    let mut known = Bearers::Nobody;
    loop {
        let Ok(c) = model_command::command_at(model, at) else {
            return known;
        };
        if model::is_end(c) {
            return known;
        }
        known = with_command(model, at, c, name, known);
        at = model_command::next_after(model, at);
    }
}

fn told(b: Bearers) -> Found
    ensures { found_as result ≡ told_of b }
{
    match b {
        Bearers::Nobody => refused(NO_BEARER, 0),
        Bearers::One(action) => Found {
            number: 0,
            place: 0,
            action,
        },
        Bearers::Several => refused(SEVERAL_BEARERS, 0),
    }
}

// The action that carries a name, but for spaces at its end.
// No steps are asked, and no stage words lent: both are given as good ones.
pub fn find(model: &[u8], name: &[u8]) -> Found
    ensures { found_as result ≡ find-of model.now name.now }
{
    let v = model::early(model, 1, 8);
    if v.number != 0 {
        return refused(v.number, v.place);
    }
    let size = model_names::trimmed_len(name, 0, name.len());
    if size < NAME_LEAST {
        return refused(NO_BEARER, 0);
    }
    told(bearers_of(model, &name[..size]))
}
