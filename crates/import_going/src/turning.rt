// One byte on the way to an atom.
ghost use Rattle.std.specs.Prelude.{◌≡◌, not, ◌<◌};
ghost use Rattle.import_found.specs.Places.{is_space};
ghost use Rattle.import_places.specs.Walking.{two_to};
ghost use Rattle.import_going.specs.Turns.{bit_of, opened_of, turn_of};

// Whether "!" turns what comes, and each bracket that is open, innermost in the lowest bit.
#[derive(Clone, Copy)]
pub struct Going {
    pub sign: bool,
    pub mask: u64,
    pub count: u32,
}

// No `ControlFlow`: the ways to end are told apart beside going on, in one `match`.
#[derive(Clone, Copy)]
pub enum Turn {
    On(Going),
    Atom,
    Else,
    Deep,
    Lost,
}

pub const DEEPEST: u32 = 32;

#[tactic(auto, unfolding(import_found::specs::Places::is_space))]
fn space(k: u8) -> bool
    ensures { result ≡ is_space k }
{
    matches!(k, b' ' | b'\t' | b'\n' | b'\r')
}

// A bracket of a condition is opened.
fn opened(s: Going) -> Turn
    requires { s.mask < two_to s.count }
    ensures { result ≡ opened_of s }
{
    if s.count >= DEEPEST {
        return Turn::Deep;
    }
    Turn::On(Going {
        sign: false,
        mask: s.mask * 2 + u64::from(s.sign),
        count: s.count + 1,
    })
}

#[tactic(auto, unfolding(crate::specs::Turns::turn_of))]
pub fn after_byte(s: Going, k: u8, cond: bool) -> Turn
    requires { s.mask < two_to s.count }
    ensures { result ≡ turn_of s k cond }
{
    match k {
        b'!' => Turn::On(Going { sign: !s.sign, ..s }),
        b'(' if cond => opened(s),
        b'(' => Turn::Atom,
        b'e' if s.count == 0 => Turn::Else,
        b'e' => Turn::Lost,
        _ if space(k) => Turn::On(s),
        _ => Turn::Atom,
    }
}
