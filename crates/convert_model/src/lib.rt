// Old models into new, and back: the model's own refusals, what does not fit, a short buffer, and only then the bytes.
#![tactic(auto)]

ghost use Rattle.std.specs.Prelude.{◌≡◌, ◌≤◌};
ghost use Rattle.theory.specs.Form.{bytes_in};
ghost use Rattle.theory.specs.Load.{site_in};
ghost use Rattle.model_form.specs.Forms.{form_of};
ghost use Rattle.model.specs.Answers.{shown};
ghost use Rattle.convert_model.specs.Conversion.{own_refusal, conversion, to_new, to_old};
ghost use Rattle.convert_model.specs.Conversion.{too_large as larger};
ghost use Rattle.convert_model.specs.Conversion.{unfit as unfit-in};
ghost use Rattle.convert_model.specs.Written.{outcome_as};

use model::{BYTES_MOST, Verdict};
use model_command::{action_in, byte_at};
use model_form::Form;
use model_progress::refusals::SIZES;

mod forbidding; // forbidding.rt: whether a model has a command that the old form has not

// "17: buffer too short"
const SHORT_BUFFER: u32 = 17;

// "refuses a model that does not fit the old one .. with 20"
const NO_FIT: u32 = 20;

// Number and place of a refusal, 0 and 0 where there is none; how many bytes were written, 0 where there is one.
#[derive(Clone, Copy)]
pub struct Converted {
    pub number: u32,
    pub place: usize,
    pub size: usize,
}

// "Old models keep their limit of 65,535 bytes."
const OLD_BYTES_MOST: usize = 65535;

// How long a model may be.
fn bytes_most(form: Form) -> usize
    ensures { (result ≡ bytes_in (form_of form)) × (result ≤ 262144) }
{
    match form {
        Form::Old => OLD_BYTES_MOST,
        Form::New => BYTES_MOST,
    }
}

// 10, then the model's own refusals.
fn own(form: Form, model: &[u8]) -> Verdict
    ensures { shown result ≡ own_refusal (form_of form) model.now }
{
    if bytes_most(form) < model.len() {
        return Verdict {
            number: SIZES,
            place: 0,
        };
    }
    model::validate_in(form, model)
}

// "m above 4, A above 8, or too many bytes once written", going back; going forward nothing is.
fn too_large(from: Form, to: Form, model: &[u8], size: usize) -> bool
    ensures { result ≡ larger (form_of to) (site_in (form_of from) model.now) size }
{
    if to.levels() < usize::from(byte_at(model, 1)) {
        return true;
    }
    to.actions() < usize::from(action_in(from, model, 3)) || bytes_most(to) < size
}

// What does not fit: "A model with 13 does not fit the old form".
fn unfit(from: Form, to: Form, model: &[u8], size: usize) -> bool
    ensures { result ≡ unfit-in (form_of from) (form_of to) model.now size }
{
    if too_large(from, to, model, size) {
        return true;
    }
    to.forbidden_bytes() == 0 && forbidding::forbids(from, model)
}

fn refused(number: u32, place: usize) -> Converted
    ensures { (result.number ≡ number) × (result.place ≡ place) × (result.size ≡ 0) }
{
    Converted {
        number,
        place,
        size: 0,
    }
}

// A model in another form, at the start of the buffer. Nothing is written before every refusal is out.
pub fn convert(from: Form, to: Form, model: &[u8], buffer: &mut [u8]) -> Converted
    ensures { outcome_as result buffer.new ≡ conversion (form_of from) (form_of to) model.now buffer.old }
{
    let v = own(from, model);
    if v.number != 0 {
        return refused(v.number, v.place);
    }
    let size = convert_forms::writing::model_len(from, to, model);
    if unfit(from, to, model, size) {
        return refused(NO_FIT, 0);
    }
    if buffer.len() < size {
        return refused(SHORT_BUFFER, 0);
    }
    let n = convert_forms::writing::put_model(buffer, from, to, model);
    Converted {
        number: 0,
        place: 0,
        size: n,
    }
}

// "A converter writes the 02 model".
pub fn to_new(old: &[u8], buffer: &mut [u8]) -> Converted
    ensures { outcome_as result buffer.new ≡ to_new old.now buffer.old }
{
    convert(Form::Old, Form::New, old, buffer)
}

// "and another writes the 01 model".
pub fn to_old(model: &[u8], buffer: &mut [u8]) -> Converted
    ensures { outcome_as result buffer.new ≡ to_old model.now buffer.old }
{
    convert(Form::New, Form::Old, model, buffer)
}
