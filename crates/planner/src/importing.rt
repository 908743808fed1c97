// The export that makes a model of a text.
ghost use Rattle.std.specs.Prelude.{◌≡◌};
ghost use Rattle.import_model.specs.Import.{import_text};
ghost use Rattle.c_answers.specs.Texts.{listed, listing_answer};

// Answer, 8 bytes: place of a refusal, length written to the start of `buffer`.
#[unsafe(no_mangle)]
pub extern "C" fn planner_import(text: &[u8], buffer: &mut [u8], out: &mut [u8]) -> u32
    ensures { listed result out.new buffer.new ≡ listing_answer (import_text text.now buffer.old) buffer.old out.old }
{
    c_import::import(text, buffer, out)
}
