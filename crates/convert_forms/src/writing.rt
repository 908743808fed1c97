// A model in another form: its length, and then its bytes, command by command.
ghost use Rattle.std.specs.Prelude.{◌≡◌, ◌+◌, ◌≤◌, ◌<◌, ltb, length};
ghost use Rattle.whole.specs.Cases.{if};
ghost use Rattle.theory.specs.Command.{byte_at};
ghost use Rattle.model_form.specs.Forms.{form_of};
ghost use Rattle.text_decimal.specs.Put.{PutAt};
ghost use Rattle.convert_forms.specs.Forms.{copied, fitted, converted, model_as};
ghost use Rattle.convert_forms.specs.OperandLayouts.{reads_on};

use super::layouts::{byte_in, command_len, layout_in};
use model_command::{Command, CommandError, byte_at};
use model_form::Form;

// A whole command that is not the end.
pub fn goes_on(read: Result<Command, CommandError>) -> bool
    ensures { result ≡ reads_on read }
{
    match read {
        Ok(c) => !matches!(c, Command::End),
        Err(_) => false,
    }
}

// The byte j of those from an offset on; 0 beyond the last of them.
fn operand_byte(model: &[u8], from: usize, size: usize, j: usize) -> u8
    requires { from + size < 9223372036854775808 }
    ensures { result ≡ if (ltb j size) (byte_at model.now (from + j)) 0 }
{
    if j < size {
        byte_at(model, from + j)
    } else {
        0
    }
}

// Some bytes of the model, cut or followed by zeros to a length.
fn put_fitted(
    out: &mut [u8],
    at: usize,
    model: &[u8],
    from: usize,
    size: usize,
    wanted: usize,
) -> usize
    requires { (at + wanted ≤ length out.old) × (from + size < 9223372036854775808) }
    ensures { PutAt out.old at (fitted wanted (copied model.now from size)) result out.new }
{
    for j in 0..wanted {
        out[at + j] = operand_byte(model, from, size, j);
    }
    at + wanted
}

// One command in another form.
fn put_command(out: &mut [u8], next: usize, from: Form, to: Form, model: &[u8], at: usize) -> usize
    requires { (next + length (converted (form_of from) (form_of to) model.now at) ≤ length out.old) × (at < 4294967296) }
    ensures { PutAt out.old next (converted (form_of from) (form_of to) model.now at) result out.new }
{
    let op = byte_at(model, at);
    let code = byte_in(from, to, op);
    let x = layout_in(from, op);
    let y = layout_in(to, code);
    let differing = at + (1 + x.before);
    let behind = at + (1 + x.before + x.differing);
    out[next] = code;
    let n = put_fitted(out, next + 1, model, at + 1, x.before, x.before);
    let k = put_fitted(out, n, model, differing, x.differing, y.differing);
    put_fitted(out, k, model, behind, x.behind, x.behind)
}

// How long a model is in another form: known from its commands, before anything is written.
pub fn model_len(from: Form, to: Form, model: &[u8]) -> usize
    requires { length model.now ≤ 262144 }
    ensures { result ≡ length (model_as (form_of from) (form_of to) model.now) }
{
    let mut at: usize = 0;
    let mut n: usize = 0;
    loop {
        n += command_len(from, to, byte_at(model, at));
        if goes_on(model_command::command_in(from, model, at)) {
            at = model_command::next_after_in(from, model, at);
        } else {
            return n;
        }
    }
}

// All commands in another form, to the start of a buffer.
pub fn put_model(out: &mut [u8], from: Form, to: Form, model: &[u8]) -> usize
    requires { (length (model_as (form_of from) (form_of to) model.now) ≤ length out.old) × (length model.now ≤ 262144) }
    ensures { PutAt out.old 0 (model_as (form_of from) (form_of to) model.now) result out.new }
{
    let mut at: usize = 0;
    let mut next: usize = 0;
    loop {
        next = put_command(out, next, from, to, model, at);
        if goes_on(model_command::command_in(from, model, at)) {
            at = model_command::next_after_in(from, model, at);
        } else {
            return next;
        }
    }
}
