// "The site model": a cursor over the lent bytes, one command at a time.
#![tactic(auto)]

pub mod widening; // widening.rt: operands as indices, with their bounds

ghost use Rattle.std.specs.Prelude.{◌≡◌, List, ℕ, ◌+◌, ◌≤◌, ◌<◌, length};
ghost use Rattle.theory.specs.Command.{whole, read_in, read_at, command_in, byte_at, word_at, action_at, linear_at, signed};
ghost use Rattle.theory.specs.Command.{width_in as bytes_of};
ghost use Rattle.model_form.specs.Forms.{form_of};
ghost use Rattle.model_command.specs.CursorReadings.{linear_bytes, linear_of, site_in, command_of_in, read_of_in, read_of, next_in, next_at};
ghost use Rattle.whole.specs.Linears.{Smalls};

use model_form::Form;
use whole::NUMBERS;

// "30 name: action, 16 bytes"
pub const NAME_BYTES: usize = 16;

// A command with its operands. What is given has its command's byte, the action, and the condition or level (0 where there is none).
// A linear's bytes stay in the model, behind the command's byte; a name's, behind the action.
#[derive(Clone, Copy)]
pub enum Command {
    Site {
        levels: u8,
        conditions: u8,
        actions: u16,
        weights: u8,
    },
    Leaf,
    Condition(u8),
    Test,
    Forbidden,
    Give {
        command: u8,
        action: u16,
        index: u8,
    },
    Name(u16),
    End,
}

// Why no whole command stands at an offset.
#[derive(Clone, Copy)]
pub enum CommandError {
    Unknown,
    Short,
}

// The byte at an offset, 0 past the end.
pub fn byte_at(model: &[u8], at: usize) -> u8
    ensures { result ≡ byte_at model.now at }
{
    model.get(at).copied().unwrap_or(0)
}

// Four bytes, low byte first.
pub fn word(model: &[u8], at: usize) -> u32
    requires { at + 4 ≤ length model.now }
    ensures { result ≡ word_at model.now at }
{
    u32::from_le_bytes([model[at], model[at + 1], model[at + 2], model[at + 3]])
}

fn number(model: &[u8], at: usize) -> i64
    requires { at + 4 ≤ length model.now }
    ensures { result ≡ signed (word_at model.now at) }
{
    i64::from(word(model, at).cast_signed())
}

// The coefficients of the levels, then the constant, held as a node holds them.
pub fn linear_at(model: &[u8], at: usize) -> [i64; NUMBERS]
    requires { at + linear_bytes ≤ length model.now }
    ensures { Smalls result × (linear_of result ≡ linear_at model.now at) }
{
    let mut out = [0; NUMBERS];
    for i in 0..NUMBERS {
        out[i] = number(model, at + i * 4);
    }
    out
}

// An action operand, and A.
pub fn action_in(form: Form, model: &[u8], at: usize) -> u16
    requires { at < 18446744073709551615 }
    ensures { result ≡ action_at (form_of form) model.now at }
{
    let low = byte_at(model, at);
    match form {
        Form::Old => u16::from(low),
        Form::New => u16::from_le_bytes([low, byte_at(model, at + 1)]),
    }
}

// How many bytes a command has; 0 where the byte is unknown.
pub fn width_in(form: Form, op: u8) -> usize
    ensures { (result ≡ bytes_of (form_of form) op) × (result < 1024) }
{
    if op == form.site_byte() {
        return 4 + form.action_bytes();
    }
    match op {
        0x10 => 1 + form.linear_bytes(),
        0x11 => 2,
        0x12 => 1 + form.linear_bytes(),
        0x13 => form.forbidden_bytes(),
        0x20 => form.behind_action(),
        0x21 => form.behind_action() + 1,
        0x22 => form.behind_action() + 1,
        0x23 => 1,
        0x30 => form.behind_action() + NAME_BYTES,
        0xff => 1,
        _ => 0,
    }
}

// A known site.
fn site_at(form: Form, model: &[u8], at: usize) -> Command
    requires { at < length model.now }
    ensures { command_of_in (form_of form) model.now at result ≡ site_in (form_of form) model.now at }
{
    Command::Site {
        levels: byte_at(model, at + 1),
        conditions: byte_at(model, at + 2),
        actions: action_in(form, model, at + 3),
        weights: byte_at(model, at + (3 + form.action_bytes())),
    }
}

// A known command all of whose bytes are there.
fn whole_at(form: Form, model: &[u8], at: usize, op: u8) -> Command
    requires { (op ≡ byte_at model.now at) × (at < length model.now) }
    ensures { command_of_in (form_of form) model.now at result ≡ command_in (form_of form) model.now at }
{
    if op == form.site_byte() {
        return site_at(form, model, at);
    }
    let behind = at + form.behind_action();
    match op {
        0x10 => Command::Leaf,
        0x11 => Command::Condition(byte_at(model, at + 1)),
        0x12 => Command::Test,
        0x13 => Command::Forbidden,
        0x20 => Command::Give {
            command: op,
            action: action_in(form, model, at + 1),
            index: 0,
        },
        0x21 => Command::Give {
            command: op,
            action: action_in(form, model, at + 1),
            index: byte_at(model, behind),
        },
        0x22 => Command::Give {
            command: op,
            action: action_in(form, model, at + 1),
            index: byte_at(model, behind),
        },
        0x23 => Command::Give {
            command: op,
            action: 0,
            index: 0,
        },
        0x30 => Command::Name(action_in(form, model, at + 1)),
        _ => Command::End,
    }
}

// What stands at an offset: past the end and cut short are one answer, since both are refused alike.
pub fn command_in(form: Form, model: &[u8], at: usize) -> Result<Command, CommandError>
    ensures { read_of_in (form_of form) model.now at result ≡ read_in (form_of form) model.now at }
{
    if model.len() <= at {
        return Err(CommandError::Short);
    }
    let op = model[at];
    let w = width_in(form, op);
    if w == 0 {
        return Err(CommandError::Unknown);
    }
    if model.len() - at < w {
        return Err(CommandError::Short);
    }
    Ok(whole_at(form, model, at, op))
}

// How many bytes a command that was read has, without a second look at them.
pub fn size_in(form: Form, c: Command) -> usize
    ensures { (B : List ℕ) (at : ℕ) → whole (command_of_in (form_of form) B at c) ≡ read_in (form_of form) B at → result ≡ bytes_of (form_of form) (byte_at B at) }
{
    match c {
        Command::Site { .. } => 4 + form.action_bytes(),
        Command::Leaf | Command::Test => 1 + form.linear_bytes(),
        Command::Condition(_) => 2,
        Command::Forbidden => form.forbidden_bytes(),
        Command::Give { command, .. } => width_in(form, command),
        Command::Name(_) => form.behind_action() + NAME_BYTES,
        Command::End => 1,
    }
}

// The offset behind the command at an offset; it stays within the model.
pub fn next_after_in(form: Form, model: &[u8], at: usize) -> usize
    ensures { result ≡ next_in (form_of form) model.now at }
{
    if model.len() <= at {
        return model.len();
    }
    let w = width_in(form, model[at]);
    if model.len() - at < w {
        return model.len();
    }
    at + w
}

// The same in the form that the planner reads.
pub fn command_at(model: &[u8], at: usize) -> Result<Command, CommandError>
    ensures { read_of model.now at result ≡ read_at model.now at }
{
    command_in(Form::New, model, at)
}

pub fn next_after(model: &[u8], at: usize) -> usize
    ensures { result ≡ next_at model.now at }
{
    next_after_in(Form::New, model, at)
}
