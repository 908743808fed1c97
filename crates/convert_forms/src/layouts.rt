// What differs between the forms of a command.
ghost use Rattle.std.specs.Prelude.{◌≡◌};
ghost use Rattle.model_form.specs.Forms.{form_of};
ghost use Rattle.convert_forms.specs.Forms.{layout};
ghost use Rattle.convert_forms.specs.Forms.{layout_in as layout_of};
ghost use Rattle.convert_forms.specs.Forms.{byte_in as byte_of};
ghost use Rattle.convert_forms.specs.OperandLayouts.{layout_as, converted_length};

use model_command::NAME_BYTES;
use model_form::Form;

// A command's operands: bytes that are the same in both forms, those that differ, and again some that are the same.
#[derive(Clone, Copy)]
pub struct Layout {
    pub before: usize,
    pub differing: usize,
    pub behind: usize,
}

fn parts(before: usize, differing: usize, behind: usize) -> Layout
    ensures { layout_as result ≡ layout before differing behind }
{
    Layout {
        before,
        differing,
        behind,
    }
}

pub fn layout_in(form: Form, op: u8) -> Layout
    ensures { layout_as result ≡ layout_of (form_of form) op }
{
    let actions = form.action_bytes();
    if op == form.site_byte() {
        return parts(2, actions, 1);
    }
    let coefficients = form.levels() * 4;
    match op {
        0x10 => parts(0, coefficients, 4),
        0x11 => parts(0, 0, 1),
        0x12 => parts(0, coefficients, 4),
        0x20 => parts(0, actions, 0),
        0x21 => parts(0, actions, 1),
        0x22 => parts(0, actions, 1),
        0x30 => parts(0, actions, NAME_BYTES),
        _ => parts(0, 0, 0),
    }
}

// "Site becomes 02": a command's byte in another form.
pub fn byte_in(from: Form, to: Form, op: u8) -> u8
    ensures { result ≡ byte_of (form_of from) (form_of to) op }
{
    if op == from.site_byte() {
        to.site_byte()
    } else {
        op
    }
}

// How many bytes the command of a byte has in another form.
pub fn command_len(from: Form, to: Form, op: u8) -> usize
    ensures { result ≡ converted_length (form_of from) (form_of to) op }
{
    let x = layout_in(from, op);
    let y = layout_in(to, byte_in(from, to, op));
    1 + (x.before + (y.differing + x.behind))
}
