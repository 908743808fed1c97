// "These rules judge each leaf and condition as written": three facts of each diagram on the stack.
#![tactic(auto)]

ghost use Rattle.std.specs.Prelude.{◌≡◌, [], ◌∷◌, ℕ, ◌+◌, ◌*◌, ◌%◌, ◌≤◌, ◌<◌, eqb, drop, ◌&&◌};
ghost use Rattle.whole.specs.Cases.{if};
ghost use Rattle.theory.specs.Widths.{stack_most};
ghost use Rattle.theory.specs.Verdict.{or, top};
ghost use Rattle.theory.specs.Verdict.{joined as joined-facts};
ghost use Rattle.theory.specs.Verdict.{may_be as may-be-given};
ghost use Rattle.model_facts.specs.Seen.{seen};

use model_stack::STACK_MOST;

// The three facts of each diagram on the stack, a word of bits for each fact, the top's lowest.
#[derive(Clone, Copy)]
pub struct Seen {
    pub len: usize,
    pub later: u32,
    pub weights: u32,
    pub forbids: u32,
}

impl Seen {
    pub fn none() -> Seen
        ensures { seen result ≡ [] }
    {
        Seen {
            len: 0,
            later: 0,
            weights: 0,
            forbids: 0,
        }
    }

    // A full stack stays as it is.
    pub fn pushed(self, next_step: bool, weights: bool, forbids: bool) -> Seen
        ensures { self.len < stack_most → seen result ≡ record { next_step = next_step; weights = weights; forbids = forbids } ∷ seen self }
    {
        if self.len < STACK_MOST {
            Seen {
                len: self.len + 1,
                later: below(self.later, next_step),
                weights: below(self.weights, weights),
                forbids: below(self.forbids, forbids),
            }
        } else {
            self
        }
    }

    pub fn popped(self) -> Seen
        ensures { (result.len ≤ self.len) × ((0 < self.len → result.len < self.len) × (seen result ≡ drop 1 (seen self))) }
    {
        if 0 < self.len {
            Seen {
                len: self.len - 1,
                later: self.later / 2,
                weights: self.weights / 2,
                forbids: self.forbids / 2,
            }
        } else {
            self
        }
    }

    // What is given: "Next-step conditions stand only in next levels"; "The leaves of a chance are constants 0 to W"; a forbidden leaf is "allowed in rewards only".
    pub fn may_be(self, command: u8) -> bool
        ensures { 0 < self.len → (a i : ℕ) → result ≡ may-be-given (record { command = command; action = a; index = i }) (top (seen self)) }
    {
        let later = (command == 0x22) | !low(self.later);
        let weights = (command != 0x21) | low(self.weights);
        let forbids = (command == 0x20) | !low(self.forbids);
        later & weights & forbids
    }

    // "takes low, then high, off the stack and pushes the choice"
    pub fn joined(self, later: bool) -> Seen
        ensures { 2 ≤ self.len → self.len ≤ stack_most → seen result ≡ joined-facts later (seen self) }
    {
        let high = self.popped();
        let next = later | low(high.later) | low(self.later);
        let weights = low(high.weights) & low(self.weights);
        let forbids = low(high.forbids) | low(self.forbids);
        high.popped().pushed(next, weights, forbids)
    }
}

// The lowest bit.
fn low(word: u32) -> bool
    ensures { result ≡ eqb (word % 2) 1 }
{
    word % 2 == 1
}

// A bit below those of a word, which keeps 31 of them.
fn below(word: u32, b: bool) -> u32
    ensures { result ≡ word % 2147483648 * 2 + if b 1 0 }
{
    word % 2147483648 * 2 + u32::from(b)
}
