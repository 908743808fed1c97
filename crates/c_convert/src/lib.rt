// Conversions with the rest of their answer as bytes, as a host in C asks for it: a call and a copy.
#![tactic(auto)]

ghost use Rattle.std.specs.Prelude.{◌≡◌};
ghost use Rattle.model_form.specs.Forms.{form_of};
ghost use Rattle.convert_model.specs.Conversion.{conversion};
ghost use Rattle.convert_model.specs.Conversion.{to_new as to-new-of};
ghost use Rattle.convert_model.specs.Conversion.{to_old as to-old-of};
ghost use Rattle.c_answers.specs.Texts.{listed, listing_answer};

use model_form::Form;

// The answer: place of a refusal, length written.
const ANSWER_BYTES: usize = 8;

// Where `out` has no room for the answer the model is judged with an empty buffer, so that nothing is written.
fn answered(from: Form, to: Form, model: &[u8], buffer: &mut [u8], out: &mut [u8]) -> u32
    ensures { listed result out.new buffer.new ≡ listing_answer (conversion (form_of from) (form_of to) model.now buffer.old) buffer.old out.old }
{
    if out.len() < ANSWER_BYTES {
        let judged = convert_model::convert(from, to, model, &mut buffer[..0]);
        return c_answers::short(judged.number);
    }
    let done = convert_model::convert(from, to, model, buffer);
    c_answers::put_pair(out, done.place, done.size);
    done.number
}

// An old model goes forward.
pub fn to_new(old: &[u8], buffer: &mut [u8], out: &mut [u8]) -> u32
    ensures { listed result out.new buffer.new ≡ listing_answer (to-new-of old.now buffer.old) buffer.old out.old }
{
    answered(Form::Old, Form::New, old, buffer, out)
}

// A model goes back.
pub fn to_old(model: &[u8], buffer: &mut [u8], out: &mut [u8]) -> u32
    ensures { listed result out.new buffer.new ≡ listing_answer (to-old-of model.now buffer.old) buffer.old out.old }
{
    answered(Form::New, Form::Old, model, buffer, out)
}
