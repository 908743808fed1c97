// "Text outside the grammar with 24 and the offset of the first byte that no text of the grammar can have there (or the length,
// if it only ends early)": one pass over the text.
#![tactic(auto)]

ghost use Rattle.std.specs.Prelude.{◌≡◌};
ghost use Rattle.import_grammar.specs.Reader.{begin};
ghost use Rattle.import_grammar.specs.laws.Viable.{scan as outcome};
ghost use Rattle.import_scan.specs.Answer.{answer};

use import_state::{Place, State};
use import_step::{finished, next, over};

// Where a text outside the grammar stops.
pub fn scan(text: &[u8]) -> Result<(), usize>
    ensures { result ≡ answer (outcome begin text.now 0) }
{
    let mut s = State::At(Place::Outset);
    for i in 0..text.len() {
        s = next(s, text[i]);
        if over(s) {
            return Err(i);
        }
    }
    if finished(s) { Ok(()) } else { Err(text.len()) }
}
