// Names of actions: "An action's name is that part of the model itself, without its trailing spaces".
#![tactic(auto)]

ghost use Rattle.std.specs.Prelude.{◌≡◌, List, ℕ, ◌+◌, ◌≤◌, length, drop};
ghost use Rattle.theory.specs.Command.{whole, readings};
ghost use Rattle.theory.specs.Name.{names_action, trimmed, name_part};
ghost use Rattle.theory.specs.Name.{named_part as part-named};
ghost use Rattle.theory.specs.Name.{name_refusal as refused};
ghost use Rattle.theory.specs.Name.{name as name_of};
ghost use Rattle.model_command.specs.CursorReadings.{command_of};
ghost use Rattle.model.specs.Answers.{shown};
ghost use Rattle.model_names.specs.Parts.{part_as};

use model::Verdict;
use model_command::{Command, NAME_BYTES};
use model_form::Form;

// "16: action not 1 to A"
const NO_ACTION: u32 = 16;

// A part of the model.
#[derive(Clone, Copy)]
pub struct Part {
    pub start: usize,
    pub size: usize,
}

// How long n bytes from an offset on are without the spaces at their end.
pub fn trimmed_len(model: &[u8], from: usize, n: usize) -> usize
    requires { from + n ≤ length model.now }
    ensures { (result ≤ n) × (result ≡ trimmed (drop from model.now) n) }
{
    for k in (0..n).rev() {
        if model[from + k] != 0x20 {
            return k + 1;
        }
    }
    0
}

fn names(c: Command, action: u32) -> bool
    ensures { (B : List ℕ) (at : ℕ) → result ≡ names_action action (whole (command_of B at c)) }
{
    match c {
        Command::Name(a) => action == u32::from(a),
        _ => false,
    }
}

// The part behind the command's byte and its action, of the command that names an action; empty where there is none.
fn named_part(model: &[u8], action: u32) -> Part
    ensures { (part_as result ≡ part-named model.now action (readings model.now)) × (result.start + result.size ≤ length model.now) }
{
    let mut at: usize = 0;
    loop {
        let Ok(c) = model_command::command_at(model, at) else {
            return Part { start: 0, size: 0 };
        };
        if names(c, action) {
            let from = at + Form::New.behind_action();
            return Part {
                start: from,
                size: trimmed_len(model, from, NAME_BYTES),
            };
        }
        if model::is_end(c) {
            return Part { start: 0, size: 0 };
        }
        at = model_command::next_after(model, at);
    }
}

// "16: action not 1 to A", after 10 and the model's own; no steps are asked.
pub fn name_refusal(model: &[u8], action: u32) -> Verdict
    ensures { shown result ≡ refused model.now action }
{
    let v = model::early(model, 1, 8);
    if v.number != 0 {
        return v;
    }
    if action < 1 || u32::from(model::site(model).actions) < action {
        return Verdict {
            number: NO_ACTION,
            place: 0,
        };
    }
    Verdict {
        number: 0,
        place: 0,
    }
}

// The name of an action, empty if it has none or the call is refused.
pub fn name(model: &[u8], action: u32) -> &[u8]
    ensures bytes { result.now ≡ name_of model.now action }
    ensures memory { result.ref_ptr.0 ≡ model.entry.ref_ptr.0 }
    ensures place { result.ref_ptr.1 ≡ model.entry.ref_ptr.1 + (name_part model.now action).start }
{
    let v = name_refusal(model, action);
    if v.number != 0 {
        return &model[..0];
    }
    let p = named_part(model, action);
    &model[p.start..p.start + p.size]
}
