// The number of the first rule that a command breaks, 0 where it breaks none.
#![tactic(auto)]

ghost use Rattle.std.specs.Prelude.{◌≡◌, ℕ, ◌+◌, ◌≤◌, length, Bool, List};
ghost use Rattle.theory.specs.Command.{push_leaf, push_condition, push_test, push_forbidden, name_action, end_model, whole, read_in, linear_in};
ghost use Rattle.theory.specs.Command.{give as given_to};
ghost use Rattle.theory.specs.Valid.{all};
ghost use Rattle.theory.specs.Verdict.{printable, first_broken, first_rules};
ghost use Rattle.theory.specs.Form.{linear_bytes};
ghost use Rattle.model_form.specs.Forms.{form_of};
ghost use Rattle.model_command.specs.CursorReadings.{command_of_in};
ghost use Rattle.model_progress.specs.GivenFlags.{BreaksRule, Later, in_order};

use model_command::Command;
use model_form::Form;
use model_progress::refusals::{MISSING, OPERAND, ORDER, STACK, TWICE};
use model_progress::{Progress, given, operands};
use model_stack::STACK_MOST;

// "operands 4, then 5, 6, diagram 4"
fn ordered(operand: bool, stack: bool, twice: bool, diagram: bool) -> u32
    ensures { result ≡ first_broken (in_order operand stack twice diagram) }
{
    if operand {
        return OPERAND;
    }
    if stack {
        return STACK;
    }
    if twice {
        return TWICE;
    }
    if diagram {
        return OPERAND;
    }
    0
}

// "Coefficients beyond level m are zero", of the leaf whose linear stands at an offset.
pub fn leaf(form: Form, model: &[u8], from: usize, s: Progress) -> u32
    requires { from + linear_bytes (form_of form) ≤ length model.now }
    ensures { (F : List Bool) → Later s F (push_leaf (linear_in (form_of form) model.now from)) result }
{
    let full = STACK_MOST <= s.seen.len;
    let levels = usize::from(s.site.levels);
    ordered(
        levels < operands::used(form, model, from),
        full,
        false,
        false,
    )
}

fn condition(s: Progress, k: u8) -> u32
    ensures { (F : List Bool) → Later s F (push_condition k) result }
{
    let short = s.seen.len < 2;
    ordered(
        !operands::condition(s.site.conditions, k),
        short,
        false,
        false,
    )
}

// The same of a test, which has "some coefficient not zero".
pub fn test(form: Form, model: &[u8], from: usize, s: Progress) -> u32
    requires { from + linear_bytes (form_of form) ≤ length model.now }
    ensures { (F : List Bool) → Later s F (push_test (linear_in (form_of form) model.now from)) result }
{
    let short = s.seen.len < 2;
    let levels = usize::from(s.site.levels);
    let used = operands::used(form, model, from);
    let operand = (levels < used) | (used == 0);
    ordered(operand, short, false, false)
}

fn forbidden(s: Progress) -> u32
    ensures { (F : List Bool) → Later s F push_forbidden result }
{
    let full = STACK_MOST <= s.seen.len;
    ordered(false, full, false, false)
}

fn give(flags: &[bool], s: Progress, c: u8, a: u16, i: u8) -> u32
    ensures { Later s flags.now (given_to (record { command = c; action = a; index = i })) result }
{
    let short = s.seen.len < 1;
    let twice = given::has(flags, given::place(given::base(c), i, a));
    ordered(
        !operands::slot(s.site, c, a, i),
        short,
        twice,
        !s.seen.may_be(c),
    )
}

// `text`: whether the name's bytes are printable.
fn name(flags: &[bool], s: Progress, a: u16, text: bool) -> u32
    ensures { (b : List ℕ) → text ≡ all printable b → Later s flags.now (name_action a b) result }
{
    let twice = given::has(flags, given::place(given::NAMES, 0, a));
    let named = operands::among(usize::from(s.site.actions), usize::from(a));
    ordered(!named | !text, false, twice, false)
}

fn end(flags: &[bool], s: Progress) -> u32
    ensures { Later s flags.now end_model result }
{
    if !given::complete(flags, s.site) {
        return MISSING;
    }
    if 0 < s.seen.len { MISSING } else { 0 }
}

// "site .. is first and only there"
pub fn first(form: Form, c: Command) -> u32
    ensures { (B : List ℕ) (at : ℕ) → result ≡ first_broken (first_rules (form_of form) (command_of_in (form_of form) B at c)) }
{
    match c {
        Command::Site {
            levels,
            conditions,
            actions,
            weights,
        } => operands::site(form, levels, conditions, actions, weights),
        _ => ORDER,
    }
}

fn later(form: Form, model: &[u8], at: usize, c: Command, flags: &[bool], s: Progress) -> u32
    requires { whole (command_of_in (form_of form) model.now at c) ≡ read_in (form_of form) model.now at }
    ensures { Later s flags.now (command_of_in (form_of form) model.now at c) result }
{
    match c {
        Command::Site { .. } => ORDER,
        Command::Leaf => leaf(form, model, at + 1, s),
        Command::Condition(k) => condition(s, k),
        Command::Test => test(form, model, at + 1, s),
        Command::Forbidden => forbidden(s),
        Command::Give {
            command,
            action,
            index,
        } => give(flags, s, command, action, index),
        Command::Name(a) => name(
            flags,
            s,
            a,
            operands::text(model, at + form.behind_action()),
        ),
        Command::End => end(flags, s),
    }
}

// The command that stands at an offset, after those that left `flags` and `s`.
pub fn broken(form: Form, model: &[u8], at: usize, c: Command, flags: &[bool], s: Progress) -> u32
    requires { whole (command_of_in (form_of form) model.now at c) ≡ read_in (form_of form) model.now at }
    ensures { BreaksRule (form_of form) s flags.now (command_of_in (form_of form) model.now at c) result }
{
    if s.begun {
        later(form, model, at, c, flags, s)
    } else {
        first(form, c)
    }
}
