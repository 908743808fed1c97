// "A model with 13 does not fit the old form": whether a model has it, wherever it stands.
ghost use Rattle.std.specs.Prelude.{◌≡◌};
ghost use Rattle.theory.specs.Command.{readings_in};
ghost use Rattle.model_form.specs.Forms.{form_of};
ghost use Rattle.convert_model.specs.Conversion.{forbids as forbids-in};
ghost use Rattle.convert_model.specs.Written.{reads_forbidden};

use convert_forms::writing::goes_on;
use model_command::{Command, CommandError};
use model_form::Form;

fn is_forbidden(read: Result<Command, CommandError>) -> bool
    ensures { result ≡ reads_forbidden read }
{
    match read {
        Ok(c) => matches!(c, Command::Forbidden),
        Err(_) => false,
    }
}

// Also where loading drops the leaf.
pub(crate) fn forbids(form: Form, model: &[u8]) -> bool
    ensures { result ≡ forbids-in (readings_in (form_of form) model.now) }
{
    let mut at: usize = 0;
    loop {
        let read = model_command::command_in(form, model, at);
        if is_forbidden(read) {
            return true;
        }
        if goes_on(read) {
            at = model_command::next_after_in(form, model, at);
        } else {
            return false;
        }
    }
}
