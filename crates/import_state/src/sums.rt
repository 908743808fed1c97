// Sums: "multiplication, by a constant only, binds before + and −".
ghost use Rattle.std.specs.Prelude.{◌≡◌};
ghost use Rattle.import_state.specs.Sums.{begun as begun-of, roomed as roomed-of, levelled as levelled-of, bound as bound_of, next_term as next-term-of};
ghost use Rattle.import_state.specs.Sums.{shut as shut-of, closed as Closed-of, open_sum as open-sum-of, on_factor as on-factor-of};
ghost use Rattle.import_state.specs.Sums.{end_const as end-const-of};

use super::bytes::is_digit;
use super::{DEEPEST, NO_LEVEL, Place, Side, State, Sum, Token};

impl Sum {
    // A sum where nothing of it has been read.
    #[tactic(auto, unfolding(crate::specs::Sums::begun))]
    pub fn begun(side: Side, room: u8, hard: u8) -> Sum
        ensures { result ≡ begun-of side room hard }
    {
        Sum {
            side,
            room,
            hard,
            top: room,
            level: NO_LEVEL,
            vary: false,
        }
    }

    // Inside a bracket, or outside again.
    #[tactic(auto, unfolding(crate::specs::Sums::roomed))]
    pub fn roomed(self, room: u8) -> Sum
        ensures { result ≡ roomed-of self room }
    {
        Sum { room, ..self }
    }

    // Behind a level.
    #[tactic(auto, unfolding(crate::specs::Sums::levelled))]
    pub fn levelled(self) -> Sum
        ensures { result ≡ levelled-of self }
    {
        Sum {
            level: self.room,
            vary: true,
            ..self
        }
    }

    // Inside a bracket that may have no level: behind a term with one.
    #[tactic(auto, unfolding(crate::specs::Sums::bound))]
    pub fn bound(self) -> bool
        ensures { result ≡ bound_of self }
    {
        self.vary && self.room < self.level
    }

    // Behind + or −.
    #[tactic(auto, unfolding(crate::specs::Sums::next_term))]
    pub fn next_term(self) -> Sum
        ensures { result ≡ next-term-of self }
    {
        Sum {
            vary: self.bound(),
            ..self
        }
    }

    #[tactic(auto, unfolding(crate::specs::Sums::shut))]
    fn shut(self, room: u8, top: u8, level: u8, vary: bool) -> Sum
        ensures { result ≡ shut-of self room top level vary }
    {
        Sum {
            room,
            top,
            level,
            vary,
            ..self
        }
    }

    // Behind a bracket of a sum, with a level or without.
    #[tactic(auto, unfolding(crate::specs::Sums::closed))]
    pub fn closed(self, room: u8, top: u8) -> Sum
        ensures { result ≡ Closed-of self room top }
    {
        if self.room < self.level {
            self.shut(room, top, self.level, false)
        } else {
            self.shut(room, top, room, true)
        }
    }

    #[tactic(auto, unfolding(crate::specs::Sums::open_sum))]
    fn open_sum(self) -> State
        ensures { result ≡ open-sum-of self }
    {
        if 0 < self.room {
            State::At(Place::Factor(self.roomed(self.room - 1), true))
        } else {
            State::Dead
        }
    }

    // A factor is expected.
    #[tactic(auto, unfolding(crate::specs::Sums::on_factor))]
    pub fn on_factor(self, start: bool, k: u8) -> State
        ensures { result ≡ on-factor-of self start k }
    {
        match k {
            _ if is_digit(k) => State::At(Place::After(self, true)),
            b'L' if !self.vary => State::In(Token::Level(self)),
            b'(' => self.open_sum(),
            b'-' if start => State::At(Place::Factor(self, false)),
            _ => State::Dead,
        }
    }

    // After a term of a bracket that may have no level.
    #[tactic(auto, unfolding(crate::specs::Sums::end_const))]
    pub fn end_const(self, k: u8) -> State
        ensures { result ≡ end-const-of self k }
    {
        if k == b')' && self.room < self.level {
            State::At(Place::After(self.roomed(self.room + 1), false))
        } else {
            State::Dead
        }
    }
}
