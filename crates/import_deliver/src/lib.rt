// The last passes of an import, over the model that a text has become: its own refusals, a short buffer, and only then its bytes.
#![tactic(auto)]

ghost use Rattle.std.specs.Prelude.{◌≡◌};
ghost use Rattle.theory.specs.Form.{new_form};
ghost use Rattle.model.specs.Answers.{shown};
ghost use Rattle.convert_model.specs.Conversion.{own_refusal};
ghost use Rattle.import_deliver.specs.Delivered.{delivered, outcome_as};

use model::{STAGE_WORDS, Verdict};
use text_decimal::put_bytes;

// "then 17"
const SHORT_BUFFER: u32 = 17;

// Number and place of a refusal, 0 and 0 where there is none; how many bytes were written, 0 where there is one.
#[derive(Clone, Copy)]
pub struct Imported {
    pub number: u32,
    pub place: usize,
    pub size: usize,
}

pub fn refused(number: u32, place: usize) -> Imported
    ensures { (result.number ≡ number) × (result.place ≡ place) × (result.size ≡ 0) }
{
    Imported {
        number,
        place,
        size: 0,
    }
}

// "the model's own refusals follow (10 first), by its offsets": as of any call with one step.
fn own(model: &[u8]) -> Verdict
    ensures { shown result ≡ own_refusal new_form model.now }
{
    model::early(model, 1, STAGE_WORDS)
}

// The model at the start of the buffer. Nothing is written before every refusal is out.
pub fn deliver(model: &[u8], buffer: &mut [u8]) -> Imported
    ensures { outcome_as result buffer.new ≡ delivered model.now buffer.old }
{
    let v = own(model);
    if v.number != 0 {
        return refused(v.number, v.place);
    }
    if buffer.len() < model.len() {
        return refused(SHORT_BUFFER, 0);
    }
    let n = put_bytes(buffer, 0, model);
    Imported {
        number: 0,
        place: 0,
        size: n,
    }
}
