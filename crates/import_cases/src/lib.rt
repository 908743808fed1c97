// Conditions, comparisons, cases and results: "the first case that holds counts", "each closed by an else".
#![tactic(auto)]

ghost use Rattle.std.specs.Prelude.{◌≡◌};
ghost use Rattle.import_cases.specs.Cases.{item as item_of, resulted as resulted-of, joined as Joined-of, end_left as end-left-of};
ghost use Rattle.import_cases.specs.Cases.{end_side as end-side-of, ending as Ending-of, on_after as on-after-of, open_cond as open-cond-of};
ghost use Rattle.import_cases.specs.Cases.{on_atom as on-atom-of, on_compared as on-compared-of, on_result as on-result-of};

use import_state::bytes::{CHANCE, ELSE, END, FORBIDDEN, REWARD, is_digit};
use import_state::{DEEPEST, Place, Side, State, Sum, Token};

// An item's first letter: reward, chance, next or name, end.
#[tactic(auto, unfolding(crate::specs::Cases::item))]
pub fn item(k: u8) -> State
    ensures { result ≡ item_of k }
{
    match k {
        b'r' => State::In(Token::Word(REWARD)),
        b'c' => State::In(Token::Word(CHANCE)),
        b'n' => State::In(Token::NextOrName),
        b'e' => State::In(Token::Word(END)),
        _ => State::Dead,
    }
}

// After a result: another case or the else, or another item.
#[tactic(auto, unfolding(crate::specs::Cases::resulted))]
pub fn resulted(side: Side, k: u8) -> State
    ensures { result ≡ resulted-of side k }
{
    match side {
        Side::Case if k == b';' => State::At(Place::Atom(DEEPEST, DEEPEST, true)),
        Side::Last => item(k),
        _ => State::Dead,
    }
}

// After an atom.
#[tactic(auto, unfolding(crate::specs::Cases::joined))]
pub fn joined(room: u8, k: u8) -> State
    ensures { result ≡ Joined-of room k }
{
    match k {
        b'&' | b'|' => State::At(Place::Atom(room, room, false)),
        b')' if room < DEEPEST => State::At(Place::Held(room + 1)),
        b':' if room == DEEPEST => State::At(Place::Result(Side::Case)),
        _ => State::Dead,
    }
}

// After the left side of a comparison, or a sum in a bracket that might have been a condition's.
#[tactic(auto, unfolding(crate::specs::Cases::end_left))]
fn end_left(s: Sum, k: u8) -> State
    ensures { result ≡ end-left-of s k }
{
    match k {
        b'<' | b'>' => State::At(Place::Compared(s.room, true)),
        b')' if s.room < s.hard => {
            let out = s.room + 1;
            State::At(Place::After(s.closed(out, out), false))
        }
        _ => State::Dead,
    }
}

#[tactic(auto, unfolding(crate::specs::Cases::end_side))]
fn end_side(side: Side, s: Sum, k: u8) -> State
    ensures { result ≡ end-side-of side s k }
{
    match side {
        Side::Left => end_left(s, k),
        Side::Right => joined(s.room, k),
        Side::Case | Side::Last => resulted(side, k),
    }
}

// After a sum.
#[tactic(auto, unfolding(crate::specs::Cases::ending))]
fn ending(s: Sum, k: u8) -> State
    ensures { result ≡ Ending-of s k }
{
    if s.room >= s.top {
        end_side(s.side, s, k)
    } else if k == b')' {
        State::At(Place::After(s.closed(s.room + 1, s.top), false))
    } else {
        State::Dead
    }
}

// After a term.
#[tactic(auto, unfolding(crate::specs::Cases::on_after))]
pub fn on_after(s: Sum, more: bool, k: u8) -> State
    ensures { result ≡ on-after-of s more k }
{
    match k {
        _ if is_digit(k) && more => State::At(Place::After(s, true)),
        _ if is_digit(k) => State::Dead,
        b'*' => State::At(Place::Factor(s, false)),
        b'+' | b'-' => State::At(Place::Factor(s.next_term(), false)),
        _ if s.bound() => s.end_const(k),
        _ => ending(s, k),
    }
}

#[tactic(auto, unfolding(crate::specs::Cases::open_cond))]
fn open_cond(room: u8, hard: u8) -> State
    ensures { result ≡ open-cond-of room hard }
{
    if 0 < room {
        State::At(Place::Atom(room - 1, hard, false))
    } else {
        State::Dead
    }
}

// An atom is expected, or, where it may stand, the else.
#[tactic(auto, unfolding(crate::specs::Cases::on_atom))]
pub fn on_atom(room: u8, hard: u8, first: bool, k: u8) -> State
    ensures { result ≡ on-atom-of room hard first k }
{
    match k {
        _ if is_digit(k) => State::At(Place::After(Sum::begun(Side::Left, room, hard), true)),
        b'L' => State::In(Token::Level(Sum::begun(Side::Left, room, hard))),
        b'C' | b'N' => State::In(Token::Condition(room)),
        b'(' => open_cond(room, hard),
        b'-' => State::At(Place::Factor(Sum::begun(Side::Left, room, hard), false)),
        b'!' => State::At(Place::Atom(room, room, false)),
        b'e' if first => State::In(Token::Word(ELSE)),
        _ => State::Dead,
    }
}

// Behind < or >: "<=" and ">=" are one token.
#[tactic(auto, unfolding(crate::specs::Cases::on_compared))]
pub fn on_compared(room: u8, more: bool, k: u8) -> State
    ensures { result ≡ on-compared-of room more k }
{
    let right = Sum::begun(Side::Right, room, 0);
    if k != b'=' {
        right.on_factor(true, k)
    } else if more {
        State::At(Place::Factor(right, true))
    } else {
        State::Dead
    }
}

// A result is expected.
#[tactic(auto, unfolding(crate::specs::Cases::on_result))]
pub fn on_result(side: Side, k: u8) -> State
    ensures { result ≡ on-result-of side k }
{
    if k == b'f' {
        State::In(Token::Forbidden(side, FORBIDDEN))
    } else {
        Sum::begun(side, DEEPEST, 0).on_factor(true, k)
    }
}
