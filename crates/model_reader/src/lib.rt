// "A reader over the lent model hands over one command after another": the model and the next offset.
// The functions are thin, and the work is the cursor's.
#![tactic(auto)]

ghost use Rattle.std.specs.Prelude.{◌≡◌};
ghost use Rattle.theory.specs.Command.{read_at};
ghost use Rattle.model_command.specs.CursorReadings.{read_of, next_at};

use model_command::{Command, CommandError};

#[derive(Drop)]
pub struct Reader<'a> {
    pub model: &'a [u8],
    pub next: usize,
}

pub fn new<'a>(model: &'a [u8]) -> Reader<'a>
    ensures { (result.model ≡ model.entry) × (result.next ≡ 0) }
{
    Reader { model, next: 0 }
}

// What stands at the reader's offset.
pub fn next<'a>(r: Reader<'a>) -> Result<Command, CommandError>
    ensures { read_of r.entry.model.now r.entry.next result ≡ read_at r.entry.model.now r.entry.next }
{
    model_command::command_at(r.model, r.next)
}

// The reader behind the command at its offset.
pub fn past<'a>(r: Reader<'a>) -> Reader<'a>
    ensures { (result.model ≡ r.entry.model) × (result.next ≡ next_at r.entry.model.now r.entry.next) }
{
    let next = model_command::next_after(r.model, r.next);
    Reader {
        model: r.model,
        next,
    }
}

// The first command, for a caller with a plain slice.
pub fn first(model: &[u8]) -> Result<Command, CommandError>
    ensures { read_of model.now 0 result ≡ read_at model.now 0 }
{
    next(new(model))
}

// The command behind the first one, for such a caller.
pub fn second(model: &[u8]) -> Result<Command, CommandError>
    ensures { read_of model.now (next_at model.now 0) result ≡ read_at model.now (next_at model.now 0) }
{
    next(past(new(model)))
}
