// Bytes and words.
ghost use Rattle.std.specs.Prelude.{◌≡◌};
ghost use Rattle.import_state.specs.Bytes.{digit, blank, four, eight, plain, letter as letter-of, forbidden_letter as forbidden-letter-of};

#[tactic(auto, unfolding(crate::specs::Bytes::digit))]
pub fn is_digit(k: u8) -> bool
    ensures { result ≡ digit k }
{
    k.is_ascii_digit()
}

// "White space (20, 09, 0A, 0D)".
#[tactic(auto, unfolding(crate::specs::Bytes::blank))]
pub fn is_blank(k: u8) -> bool
    ensures { result ≡ blank k }
{
    matches!(k, b' ' | b'\t' | b'\n' | b'\r')
}

// The index of a condition.
#[tactic(auto, unfolding(crate::specs::Bytes::four))]
pub fn is_four(k: u8) -> bool
    ensures { result ≡ four k }
{
    matches!(k, b'1'..=b'4')
}

// The index of a level.
#[tactic(auto, unfolding(crate::specs::Bytes::eight))]
pub fn is_eight(k: u8) -> bool
    ensures { result ≡ eight k }
{
    matches!(k, b'1'..=b'8')
}

// A character of a name but the quotation mark.
#[tactic(auto, unfolding(crate::specs::Bytes::plain))]
pub fn is_plain(k: u8) -> bool
    ensures { result ≡ plain k }
{
    k != b'"' && matches!(k, b' '..=b'~')
}

// Where a word stands after its first letter.
pub const SITE: u8 = 3;

pub const REWARD: u8 = 8;

pub const CHANCE: u8 = 13;

pub const END: u8 = 15;

pub const NEXT: u8 = 17;

pub const NAME: u8 = 19;

pub const ELSE: u8 = 22;

pub const FORBIDDEN: u8 = 8;

// The letters of words, each word backwards and without its first (next and name: without two).
#[tactic(auto, unfolding(crate::specs::Bytes::letter))]
pub fn letter(n: u8) -> u8
    ensures { result ≡ letter-of n }
{
    match n {
        1 => b'e',
        2 => b't',
        3 => b'i',
        4 => b'd',
        5 => b'r',
        6 => b'a',
        7 => b'w',
        8 => b'e',
        9 => b'e',
        10 => b'c',
        11 => b'n',
        12 => b'a',
        13 => b'h',
        14 => b'd',
        15 => b'n',
        16 => b't',
        17 => b'x',
        18 => b'e',
        19 => b'm',
        20 => b'e',
        21 => b's',
        _ => b'l',
    }
}

// The letters of forbidden, backwards and without its first.
#[tactic(auto, unfolding(crate::specs::Bytes::forbidden_letter))]
pub fn forbidden_letter(n: u8) -> u8
    ensures { result ≡ forbidden-letter-of n }
{
    match n {
        1 => b'n',
        2 => b'e',
        3 => b'd',
        4 => b'd',
        5 => b'i',
        6 => b'b',
        7 => b'r',
        _ => b'o',
    }
}
