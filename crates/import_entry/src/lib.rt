// "Add an import of whole models in such text": the passes in the order of their refusals.
#![tactic(auto)]

ghost use Rattle.std.specs.Prelude.{◌≡◌, length};
ghost use Rattle.import_model.specs.Import.{import_text, text_most};
ghost use Rattle.import_deliver.specs.Delivered.{outcome_as};
ghost use Rattle.import_judge.specs.Sound.{SoundText};

use import_deliver::{Imported, deliver, refused};
use import_emit::emit;
use import_judge::{TEXT_MOST, judge};
use model_progress::refusals::SIZES;

// The model stands in the scratch bytes until every refusal is out; one that does not fit there is 10.
fn emitted(text: &[u8], scratch: &mut [u8], buffer: &mut [u8]) -> Imported
    requires { SoundText text.now × (length scratch.old ≡ text_most) }
    ensures { outcome_as result buffer.new ≡ import_text text.now buffer.old }
{
    let Ok(size) = emit(text, scratch) else {
        return refused(SIZES, 0);
    };
    deliver(&scratch[..size], buffer)
}

// The model that a text stands for, at the start of the buffer.
pub fn import(text: &[u8], buffer: &mut [u8]) -> Imported
    ensures { outcome_as result buffer.new ≡ import_text text.now buffer.old }
{
    let v = judge(text);
    if v.number != 0 {
        return refused(v.number, v.place);
    }
    let mut scratch = [0u8; TEXT_MOST];
    emitted(text, &mut scratch, buffer)
}
