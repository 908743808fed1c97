// Where the reading of a text stands, byte by byte: what the reader of `import_grammar` holds, without its pieces. No number
// grows, so that none is too large: rooms fall by one at a bracket.
#![tactic(auto)]

pub mod bytes;
pub mod sums;

// Brackets of both kinds together nest at most so deep.
pub const DEEPEST: u8 = 32;

// A level's room where there is none: above every room.
pub const NO_LEVEL: u8 = 33;

// Characters of a name.
pub const NAME_CHARS: u8 = 16;

// Where a sum stands: left or right in a comparison, as a case's result, as the else's.
#[derive(Clone, Copy)]
pub enum Side {
    Left,
    Right,
    Case,
    Last,
}

// "site": m, n, A and W, in this order.
#[derive(Clone, Copy)]
pub enum Setting {
    Levels,
    Conditions,
    Actions,
    Weights,
}

// Items that give an action's number.
#[derive(Clone, Copy)]
pub enum Kind {
    Reward,
    Chance,
    Next,
    Name,
}

// A sum that is being read, and what is known of those around it. Each of them stands for a place by its room, how many more
// brackets might be opened there.
// - room: here.
// - hard: where !, & or | stands before the innermost such atom. Brackets around that are conditions'.
// - top: outside all brackets of this sum.
// - level: in the innermost sum that has a level, NO_LEVEL if none has one.
// - vary: that level is in the term that is being read. "Multiplication, by a constant only": constants alone may follow, and
//   brackets opened since have less room.
#[derive(Clone, Copy)]
pub struct Sum {
    pub side: Side,
    pub room: u8,
    pub hard: u8,
    pub top: u8,
    pub level: u8,
    pub vary: bool,
}

// Between tokens. A flag says whether an else may stand here (Atom), a minus may lead (Factor), or the token may go on (Set,
// Given, Quoted, After, Compared).
#[derive(Clone, Copy)]
pub enum Place {
    Outset,
    Site(Setting),
    Equals(Setting),
    Value(Setting),
    Set(Setting, bool),
    Action(Kind),
    Given(Kind, bool),
    Opener,
    Quoted(u8, bool),
    Atom(u8, u8, bool),
    Factor(Sum, bool),
    After(Sum, bool),
    Compared(u8, bool),
    Held(u8),
    Otherwise,
    Result(Side),
    Forbade(Side),
}

// Inside a token: a word from its second letter on, by the places of `bytes::letter`; a name, with how many characters may
// still come; C or N, and L, whose index is next.
#[derive(Clone, Copy)]
pub enum Token {
    Word(u8),
    NextOrName,
    Forbidden(Side, u8),
    Name(u8),
    Chance,
    Next,
    Condition(u8),
    Level(Sum),
}

// Dead: no text of the grammar begins so.
#[derive(Clone, Copy)]
pub enum State {
    Dead,
    At(Place),
    In(Token),
}
