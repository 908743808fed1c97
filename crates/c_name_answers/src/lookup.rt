// The answer of finding an action by its name: place, action.
ghost use Rattle.std.specs.Prelude.{◌≡◌};
ghost use Rattle.model_find.specs.Tally.{found_as};
ghost use Rattle.c_answers.specs.Answers.{answered};
ghost use Rattle.c_name_answers.specs.FindAnswer.{find_answer};

use c_answers::{put_pair, short};
use model_find::Found;

// Its number, and its bytes where they fit.
pub fn found(out: &mut [u8], v: Found) -> u32
    ensures { answered result out.new ≡ find_answer (found_as v) out.old }
{
    if out.len() < 8 {
        return short(v.number);
    }
    put_pair(out, v.place, v.action as usize);
    v.number
}
