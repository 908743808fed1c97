// A step, from any state, on any byte.
#![tactic(auto)]

ghost use Rattle.std.specs.Prelude.{◌≡◌};
ghost use Rattle.import_step.specs.Steps.{only as Only-of, spaced as spaced-of, on_place as on-place-of, on_token as on-token-of, next as next_of};
ghost use Rattle.import_step.specs.Steps.{is_over, last_side as last-side-of, last_setting as last-setting-of, after_ends as after-ends-of};
ghost use Rattle.import_step.specs.Steps.{place_ends as place-ends-of, is_finished};

use import_cases::{joined, on_after, on_atom, on_compared, on_result, resulted};
use import_items::{
    on_forbidden, on_given, on_name, on_next_or_name, on_quoted, on_set, on_site, on_word,
};
use import_state::bytes::{SITE, is_blank, is_digit, is_eight, is_four};
use import_state::{DEEPEST, Place, Setting, Side, State, Sum, Token};

// White space: a token that might go on is over.
#[tactic(auto, unfolding(crate::specs::Steps::spaced))]
fn spaced(p: Place) -> Place
    ensures { result ≡ spaced-of p }
{
    match p {
        Place::Set(of, _) => Place::Set(of, false),
        Place::Given(kind, _) => Place::Given(kind, false),
        Place::Quoted(room, _) => Place::Quoted(room, false),
        Place::After(s, _) => Place::After(s, false),
        Place::Compared(room, _) => Place::Compared(room, false),
        other => other,
    }
}

// A place where one byte alone may stand.
#[tactic(auto, unfolding(crate::specs::Steps::only))]
fn only(k: u8, byte: u8, then: State) -> State
    ensures { result ≡ Only-of k byte then }
{
    if k == byte { then } else { State::Dead }
}

// A byte that is not white space.
#[tactic(auto, unfolding(crate::specs::Steps::on_place))]
fn on_place(p: Place, k: u8) -> State
    ensures { result ≡ on-place-of p k }
{
    match p {
        Place::Outset => only(k, b's', State::In(Token::Word(SITE))),
        Place::Site(of) => on_site(of, k),
        Place::Equals(of) => only(k, b'=', State::At(Place::Value(of))),
        Place::Value(of) if is_digit(k) => State::At(Place::Set(of, true)),
        Place::Value(_) => State::Dead,
        Place::Set(of, more) => on_set(of, more, k),
        Place::Action(kind) if is_digit(k) => State::At(Place::Given(kind, true)),
        Place::Action(_) => State::Dead,
        Place::Given(kind, more) => on_given(kind, more, k),
        Place::Opener => only(k, b'=', State::At(Place::Atom(DEEPEST, DEEPEST, true))),
        Place::Quoted(room, more) => on_quoted(room, more, k),
        Place::Atom(room, hard, first) => on_atom(room, hard, first, k),
        Place::Factor(s, start) => s.on_factor(start, k),
        Place::After(s, more) => on_after(s, more, k),
        Place::Compared(room, more) => on_compared(room, more, k),
        Place::Held(room) => joined(room, k),
        Place::Otherwise => only(k, b':', State::At(Place::Result(Side::Last))),
        Place::Result(side) => on_result(side, k),
        Place::Forbade(side) => resulted(side, k),
    }
}

// Inside a token white space is a byte like any other.
#[tactic(auto, unfolding(crate::specs::Steps::on_token))]
fn on_token(t: Token, k: u8) -> State
    ensures { result ≡ on-token-of t k }
{
    match t {
        Token::Word(n) => on_word(n, k),
        Token::NextOrName => on_next_or_name(k),
        Token::Forbidden(side, n) => on_forbidden(side, n, k),
        Token::Name(room) => on_name(room, k),
        Token::Chance if is_four(k) => State::At(Place::Opener),
        Token::Next if is_eight(k) => State::At(Place::Opener),
        Token::Condition(room) if is_four(k) => State::At(Place::Held(room)),
        Token::Level(s) if is_eight(k) => State::At(Place::After(s.levelled(), false)),
        _ => State::Dead,
    }
}

#[tactic(auto, unfolding(crate::specs::Steps::next))]
pub fn next(s: State, k: u8) -> State
    ensures { result ≡ next_of s k }
{
    match s {
        State::Dead => State::Dead,
        State::At(p) if is_blank(k) => State::At(spaced(p)),
        State::At(p) => on_place(p, k),
        State::In(t) => on_token(t, k),
    }
}

// No text of the grammar begins so.
#[tactic(auto, unfolding(crate::specs::Steps::is_over))]
pub fn over(s: State) -> bool
    ensures { result ≡ is_over s }
{
    matches!(s, State::Dead)
}

#[tactic(auto, unfolding(crate::specs::Steps::last_side))]
fn last_side(side: Side) -> bool
    ensures { result ≡ last-side-of side }
{
    matches!(side, Side::Last)
}

#[tactic(auto, unfolding(crate::specs::Steps::last_setting))]
fn last_setting(of: Setting) -> bool
    ensures { result ≡ last-setting-of of }
{
    matches!(of, Setting::Weights)
}

// The else's result, with no bracket open.
#[tactic(auto, unfolding(crate::specs::Steps::after_ends))]
fn after_ends(s: Sum) -> bool
    ensures { result ≡ after-ends-of s }
{
    last_side(s.side) && s.room == DEEPEST
}

// Whether a text may end here: behind the site or an item.
#[tactic(auto, unfolding(crate::specs::Steps::place_ends))]
fn place_ends(p: Place) -> bool
    ensures { result ≡ place-ends-of p }
{
    match p {
        Place::Set(of, _) => last_setting(of),
        Place::Quoted(_, _) => true,
        Place::After(s, _) => after_ends(s),
        Place::Forbade(side) => last_side(side),
        _ => false,
    }
}

#[tactic(auto, unfolding(crate::specs::Steps::is_finished))]
pub fn finished(s: State) -> bool
    ensures { result ≡ is_finished s }
{
    match s {
        State::At(p) => place_ends(p),
        State::Dead | State::In(_) => false,
    }
}
