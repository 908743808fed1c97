// An import with the rest of its answer as bytes, as a host in C asks for it: a call and a copy.
#![tactic(auto)]

ghost use Rattle.std.specs.Prelude.{◌≡◌};
ghost use Rattle.c_answers.specs.Texts.{listed, listing_answer};
ghost use Rattle.import_model.specs.Import.{import_text};

// The answer: place of a refusal, length written.
const ANSWER_BYTES: usize = 8;

// Where `out` has no room for the answer the text is judged with an empty buffer, so that nothing is written.
pub fn import(text: &[u8], buffer: &mut [u8], out: &mut [u8]) -> u32
    ensures { listed result out.new buffer.new ≡ listing_answer (import_text text.now buffer.old) buffer.old out.old }
{
    if out.len() < ANSWER_BYTES {
        let judged = import_entry::import(text, &mut buffer[..0]);
        return c_answers::short(judged.number);
    }
    let made = import_entry::import(text, buffer);
    c_answers::put_pair(out, made.place, made.size);
    made.number
}
