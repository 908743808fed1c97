// Exports that write a model in the other form.
ghost use Rattle.std.specs.Prelude.{◌≡◌};
ghost use Rattle.convert_model.specs.Conversion.{to_new, to_old};
ghost use Rattle.c_answers.specs.Texts.{listed, listing_answer};

// Answer, 8 bytes: place of a refusal, length written to the start of `buffer`.
#[unsafe(no_mangle)]
pub extern "C" fn planner_to_new(old: &[u8], buffer: &mut [u8], out: &mut [u8]) -> u32
    ensures { listed result out.new buffer.new ≡ listing_answer (to_new old.now buffer.old) buffer.old out.old }
{
    c_convert::to_new(old, buffer, out)
}

// Answer, 8 bytes, as planner_to_new's.
#[unsafe(no_mangle)]
pub extern "C" fn planner_to_old(model: &[u8], buffer: &mut [u8], out: &mut [u8]) -> u32
    ensures { listed result out.new buffer.new ≡ listing_answer (to_old model.now buffer.old) buffer.old out.old }
{
    c_convert::to_old(model, buffer, out)
}
