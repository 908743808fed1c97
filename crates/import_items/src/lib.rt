// "Whole models in such text (site, names and forbidden too)": the site, items up to their cases, names, and words.
#![tactic(auto)]

ghost use Rattle.std.specs.Prelude.{◌≡◌};
ghost use Rattle.import_items.specs.Items.{setting_letter as setting-letter-of, on_site as on-site-of, settled as settled-of, on_set as on-set-of};
ghost use Rattle.import_items.specs.Items.{opened as opened_of, on_given as on-given-of, on_quoted as on-quoted-of, on_name as on-name-of};
ghost use Rattle.import_items.specs.Items.{worded as worded-of, on_word as on-word-of, on_forbidden as on-forbidden-of};
ghost use Rattle.import_items.specs.Items.{on_next_or_name as on-next-or-name-of};

use import_cases::item;
use import_state::bytes::{NAME, NEXT, forbidden_letter, is_digit, is_plain, letter};
use import_state::{DEEPEST, Kind, NAME_CHARS, Place, Setting, Side, State, Token};

// "site": m, n, A and W.
#[tactic(auto, unfolding(crate::specs::Items::setting_letter))]
fn setting_letter(of: Setting) -> u8
    ensures { result ≡ setting-letter-of of }
{
    match of {
        Setting::Levels => b'm',
        Setting::Conditions => b'n',
        Setting::Actions => b'A',
        Setting::Weights => b'W',
    }
}

// A setting's letter is expected.
#[tactic(auto, unfolding(crate::specs::Items::on_site))]
pub fn on_site(of: Setting, k: u8) -> State
    ensures { result ≡ on-site-of of k }
{
    if k == setting_letter(of) {
        State::At(Place::Equals(of))
    } else {
        State::Dead
    }
}

// After a setting: the next one, or an item.
#[tactic(auto, unfolding(crate::specs::Items::settled))]
fn settled(of: Setting, k: u8) -> State
    ensures { result ≡ settled-of of k }
{
    match of {
        Setting::Levels => on_site(Setting::Conditions, k),
        Setting::Conditions => on_site(Setting::Actions, k),
        Setting::Actions => on_site(Setting::Weights, k),
        Setting::Weights => item(k),
    }
}

#[tactic(auto, unfolding(crate::specs::Items::on_set))]
pub fn on_set(of: Setting, more: bool, k: u8) -> State
    ensures { result ≡ on-set-of of more k }
{
    if !is_digit(k) {
        settled(of, k)
    } else if more {
        State::At(Place::Set(of, true))
    } else {
        State::Dead
    }
}

// After an item's number.
#[tactic(auto, unfolding(crate::specs::Items::opened))]
fn opened(kind: Kind, k: u8) -> State
    ensures { result ≡ opened_of kind k }
{
    match kind {
        Kind::Reward if k == b'=' => State::At(Place::Atom(DEEPEST, DEEPEST, true)),
        Kind::Chance if k == b'N' => State::In(Token::Chance),
        Kind::Next if k == b'L' => State::In(Token::Next),
        Kind::Name if k == b'"' => State::In(Token::Name(NAME_CHARS)),
        _ => State::Dead,
    }
}

#[tactic(auto, unfolding(crate::specs::Items::on_given))]
pub fn on_given(kind: Kind, more: bool, k: u8) -> State
    ensures { result ≡ on-given-of kind more k }
{
    if !is_digit(k) {
        opened(kind, k)
    } else if more {
        State::At(Place::Given(kind, true))
    } else {
        State::Dead
    }
}

// Behind a name: a second quotation mark right behind the first is a character.
#[tactic(auto, unfolding(crate::specs::Items::on_quoted))]
pub fn on_quoted(room: u8, more: bool, k: u8) -> State
    ensures { result ≡ on-quoted-of room more k }
{
    if k != b'"' {
        item(k)
    } else if 0 < room && more {
        State::In(Token::Name(room - 1))
    } else {
        State::Dead
    }
}

// In a name that may have `room` more characters.
#[tactic(auto, unfolding(crate::specs::Items::on_name))]
pub fn on_name(room: u8, k: u8) -> State
    ensures { result ≡ on-name-of room k }
{
    if k == b'"' {
        State::At(Place::Quoted(room, true))
    } else if 0 < room && is_plain(k) {
        State::In(Token::Name(room - 1))
    } else {
        State::Dead
    }
}

// After a letter of a word: what the word begins, or the next letter.
#[tactic(auto, unfolding(crate::specs::Items::worded))]
fn worded(n: u8) -> State
    ensures { result ≡ worded-of n }
{
    match n {
        0 => State::Dead,
        1 => State::At(Place::Site(Setting::Levels)),
        4 => State::At(Place::Action(Kind::Reward)),
        9 => State::At(Place::Action(Kind::Chance)),
        14 => State::At(Place::Opener),
        16 => State::At(Place::Action(Kind::Next)),
        18 => State::At(Place::Action(Kind::Name)),
        20 => State::At(Place::Otherwise),
        _ => State::In(Token::Word(n - 1)),
    }
}

#[tactic(auto, unfolding(crate::specs::Items::on_word))]
pub fn on_word(n: u8, k: u8) -> State
    ensures { result ≡ on-word-of n k }
{
    if k == letter(n) {
        worded(n)
    } else {
        State::Dead
    }
}

#[tactic(auto, unfolding(crate::specs::Items::on_forbidden))]
pub fn on_forbidden(side: Side, n: u8, k: u8) -> State
    ensures { result ≡ on-forbidden-of side n k }
{
    if k != forbidden_letter(n) {
        State::Dead
    } else if 1 < n {
        State::In(Token::Forbidden(side, n - 1))
    } else {
        State::At(Place::Forbade(side))
    }
}

// "next" and "name" begin alike.
#[tactic(auto, unfolding(crate::specs::Items::on_next_or_name))]
pub fn on_next_or_name(k: u8) -> State
    ensures { result ≡ on-next-or-name-of k }
{
    match k {
        b'e' => State::In(Token::Word(NEXT)),
        b'a' => State::In(Token::Word(NAME)),
        _ => State::Dead,
    }
}
