// Site models: "What a refusal gives", numbers 1 to 10, and the site. One pass over the bytes, and no table.
#![tactic(auto)]

mod linears; // linears.rt: runs of commands with a linear

ghost use Rattle.std.specs.Prelude.{◌≡◌, false, true, ◌<◌, replicate};
ghost use Rattle.theory.specs.Widths.{flags_most};
ghost use Rattle.theory.specs.Command.{end_model};
ghost use Rattle.theory.specs.Verdict.{verdict, verdict_in};
ghost use Rattle.model_form.specs.Forms.{form_of};
ghost use Rattle.theory.specs.Verdict.{refusal as refused};
ghost use Rattle.theory.specs.Verdict.{ended as ended_at};
ghost use Rattle.theory.specs.Verdict.{Verdict as Outcome};
ghost use Rattle.theory.specs.Load.{site_at};
ghost use Rattle.theory.specs.Solve.{early as early-of};
ghost use Rattle.model_progress.specs.GivenFlags.{site_as};
ghost use Rattle.model.specs.Answers.{shown};
ghost use Rattle.model.specs.Walk.{Walk};
ghost use Rattle.model.specs.Answers.{is_end as ends};

use model_command::{Command, CommandError};
use model_form::Form;
use model_progress::given::FLAGS;
use model_progress::refusals::{EXTRA, SHORT, SIZES, STEPS, UNKNOWN};
use model_progress::{Progress, Site};

// "A model may have 262,144 bytes"
pub const BYTES_MOST: usize = 262144;

// "horizon or steps not 1 to 8", and the eight stage words.
const STEPS_MOST: u32 = 8;

pub const STAGE_WORDS: usize = 8;

// The number and the place of a refusal; 0 and 0 where there is none. `planner_validate` answers it, so it is C's structure and no Result.
#[repr(C)]
#[derive(Clone, Copy)]
pub struct Verdict {
    pub number: u32,
    pub place: usize,
}

pub fn is_end(c: Command) -> bool
    ensures { result ≡ ends c }
{
    matches!(c, Command::End)
}

fn refusal(number: u32, place: usize) -> Verdict
    ensures { shown result ≡ refused number place }
{
    Verdict { number, place }
}

// "8: bytes after end", at the offset of the extra byte.
fn ended(size: usize, at: usize) -> Verdict
    requires { at < size }
    ensures { (v : Outcome) → shown result ≡ ended_at size at end_model v }
{
    if at + 1 < size {
        Verdict {
            number: EXTRA,
            place: at + 1,
        }
    } else {
        Verdict {
            number: 0,
            place: 0,
        }
    }
}

// "the model by offset": the first command at fault decides. From the second command on the site stays; `flags`: what has been given.
fn rest(form: Form, model: &[u8], flags: &mut [bool], from: usize, begun: Progress) -> Verdict
    requires { (begun.begun ≡ true) × Walk (form_of form) model.now from begun flags.old }
    ensures { shown result ≡ verdict_in (form_of form) model.now }
{
    let site = begun.site;
    let mut seen = begun.seen;
    let mut at = from;
    loop {
        let run = linears::pass(form, model, at, site, seen);
        seen = run.seen;
        at = run.at;
        match model_command::command_in(form, model, at) {
            Ok(c) => {
                let s = Progress {
                    begun: true,
                    site,
                    seen,
                };
                let k = model_command_rules::broken(form, model, at, c, flags, s);
                if k != 0 {
                    return refusal(k, at);
                }
                if is_end(c) {
                    return ended(model.len(), at);
                }
                model_progress::given::note(flags, c);
                let t = model_progress::states::after(form, model, at, c, s);
                seen = t.seen;
                at += model_command::size_in(form, c);
            }
            Err(CommandError::Unknown) => return refusal(UNKNOWN, at),
            Err(CommandError::Short) => return refusal(SHORT, at),
        }
    }
}

// The first command by itself.
fn judge(form: Form, model: &[u8], flags: &mut [bool]) -> Verdict
    requires { flags.old ≡ replicate flags_most false }
    ensures { shown result ≡ verdict_in (form_of form) model.now }
{
    match model_command::command_in(form, model, 0) {
        Ok(c) => {
            let k = model_command_rules::first(form, c);
            if k != 0 {
                return refusal(k, 0);
            }
            let from = model_command::next_after_in(form, model, 0);
            rest(form, model, flags, from, model_progress::states::first(c))
        }
        Err(CommandError::Unknown) => refusal(UNKNOWN, 0),
        Err(CommandError::Short) => refusal(SHORT, 0),
    }
}

pub fn validate_in(form: Form, model: &[u8]) -> Verdict
    ensures { shown result ≡ verdict_in (form_of form) model.now }
{
    let mut flags = [false; FLAGS];
    judge(form, model, &mut flags)
}

// The same in the form that the planner reads.
pub fn validate(model: &[u8]) -> Verdict
    ensures { shown result ≡ verdict model.now }
{
    validate_in(Form::New, model)
}

// "10: stage words not eight, or model above 262,144 bytes; 9: horizon or steps not 1 to 8", then the model's own.
pub fn early(model: &[u8], steps: u32, stage_words: usize) -> Verdict
    ensures { shown result ≡ early-of model.now steps stage_words }
{
    if stage_words != STAGE_WORDS || BYTES_MOST < model.len() {
        return refusal(SIZES, 0);
    }
    if steps < 1 || STEPS_MOST < steps {
        return refusal(STEPS, 0);
    }
    validate(model)
}

// The operands of the first command.
pub fn site(model: &[u8]) -> Site
    ensures { site_as result ≡ site_at model.now }
{
    Site {
        levels: model_command::byte_at(model, 1),
        conditions: model_command::byte_at(model, 2),
        actions: model_command::action_in(Form::New, model, 3),
        weights: model_command::byte_at(model, 3 + Form::New.action_bytes()),
    }
}
