// What a text is refused with before its model is looked at: its length, where it leaves the grammar, its numbers.
#![tactic(auto)]

ghost use Rattle.std.specs.Prelude.{◌≡◌};
ghost use Rattle.model.specs.Answers.{shown};
ghost use Rattle.import_judge.specs.Refusal.{text_refusal};

use import_beyond::beyond;
use import_scan::scan;
use model::Verdict;
use model_progress::refusals::SIZES;

// "text above 262,144 bytes"
pub const TEXT_MOST: usize = 262144;

// "text outside the grammar with 24"
const OUTSIDE: u32 = 24;

// "a number beyond signed 32 bits .. with 25"
const BEYOND: u32 = 25;

fn refusal(number: u32, place: usize) -> Verdict
    ensures { (result.number ≡ number) × (result.place ≡ place) }
{
    Verdict { number, place }
}

// Number and place of the refusal; 0 and 0 where there is none.
pub fn judge(text: &[u8]) -> Verdict
    ensures { shown result ≡ text_refusal text.now }
{
    if TEXT_MOST < text.len() {
        return refusal(SIZES, 0);
    }
    if let Err(i) = scan(text) {
        return refusal(OUTSIDE, i);
    }
    if beyond(text) {
        refusal(BEYOND, 0)
    } else {
        refusal(0, 0)
    }
}
