// Where to go on in the text once an atom is decided: one scan, the signs of the open brackets as bits.
#![tactic(auto)]

ghost use Rattle.std.specs.Prelude.{◌≡◌, false, ◌≤◌, ◌<◌, length, drop};
ghost use Rattle.import_model.specs.Import.{text_most};
ghost use Rattle.import_found.specs.Places.{find as place_after};
ghost use Rattle.import_places.specs.Walking.{step_of, token_of, popped, signs, two_to, PlaceComes};

// Brackets open inside what is passed over; whether the part so far holds; whether a whole row of "&" is passed over; and the
// brackets around it, innermost in the lowest bit: 1 where "!" turns it.
#[derive(Clone, Copy)]
pub struct Walk {
    pub depth: usize,
    pub value: bool,
    pub whole: bool,
    pub mask: u64,
    pub count: u32,
}

// No `ControlFlow`: the ways to end are told apart beside going on, in one `match`.
#[derive(Clone, Copy)]
pub enum Step {
    On(Walk),
    Go,
    Result,
    NextCase,
    Lost,
}

// What stands at an offset: a condition with the brackets around it, a result, a result to be passed over, or nothing. No `Option`:
// all four are taken apart in one `match`.
#[derive(Clone, Copy)]
pub enum Next {
    Go(usize, u64, u32),
    Result(usize),
    NextCase(usize),
    Lost,
}

// The innermost bracket is closed.
#[tactic(auto, using(crate::proofs::Steps::other_is_xor), unfolding(crate::specs::Walking::popped))]
fn pop(s: Walk) -> Step
    ensures { result ≡ popped s }
{
    if s.count == 0 {
        return Step::Lost;
    }
    Step::On(Walk {
        depth: 0,
        value: (s.mask % 2 == 1) != s.value,
        whole: false,
        mask: s.mask / 2,
        count: s.count - 1,
    })
}

// A byte outside brackets.
#[tactic(auto, unfolding(crate::specs::Walking::token_of))]
fn token(s: Walk, k: u8) -> Step
    ensures { result ≡ token_of s k }
{
    match k {
        b'&' if s.value && !s.whole => Step::Go,
        b'|' if s.value => Step::On(Walk {
            depth: 0,
            whole: true,
            ..s
        }),
        b'|' => Step::Go,
        b':' if s.value => Step::Result,
        b':' => Step::NextCase,
        _ => Step::On(s),
    }
}

#[tactic(auto, unfolding(crate::specs::Walking::step_of))]
fn advance(s: Walk, k: u8) -> Step
    requires { s.depth < 4294967296 }
    ensures { result ≡ step_of s k }
{
    match k {
        b'(' => Step::On(Walk {
            depth: s.depth + 1,
            ..s
        }),
        b')' if s.depth == 0 => pop(s),
        b')' => Step::On(Walk {
            depth: s.depth - 1,
            ..s
        }),
        _ if s.depth == 0 => token(s, k),
        _ => Step::On(s),
    }
}

pub fn find(text: &[u8], from: usize, value: bool, mask: u64, count: u32) -> Next
    requires { (from ≤ length text.now) × (length text.now ≤ text_most) × (mask < two_to count) }
    ensures { PlaceComes text.now (place_after (drop from text.now) 0 value false (signs mask count)) result }
{
    let mut s = Walk {
        depth: 0,
        value,
        whole: false,
        mask,
        count,
    };
    for i in from..text.len() {
        match advance(s, text[i]) {
            Step::On(w) => s = w,
            Step::Go => return Next::Go(i + 1, s.mask, s.count),
            Step::Result => return Next::Result(i + 1),
            Step::NextCase => return Next::NextCase(i + 1),
            Step::Lost => return Next::Lost,
        }
    }
    Next::Lost
}
