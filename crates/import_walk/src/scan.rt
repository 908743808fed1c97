// One loop for two scans: to the next item or else, and to the end of a string.
ghost use Rattle.std.specs.Prelude.{◌≡◌, false, ◌≤◌, length, drop};
ghost use Rattle.import_parts.specs.Walk.{is_letter, begins as begins-of, inside_after as inside-after-of, behind_string as behind-string-of, quoted_after as quoted-after-of};
ghost use Rattle.import_walk.specs.Onward.{Onward};
ghost use Rattle.import_walk.specs.Scans.{stops as stops-of, turned as turned-of, scan_rest};

pub const QUOTES: u8 = b'"';

#[tactic(auto, unfolding(import_parts::specs::Walk::is_letter))]
fn letter(k: u8) -> bool
    ensures { result ≡ is_letter k }
{
    matches!(k, b'r' | b'c' | b'n' | b'e')
}

// "forbidden" has letters that begin items.
#[tactic(auto, unfolding(import_parts::specs::Walk::begins))]
fn begins(inside: bool, k: u8) -> bool
    ensures { result ≡ begins-of inside k }
{
    !inside && letter(k)
}

#[tactic(auto, unfolding(import_parts::specs::Walk::inside_after))]
fn inside_after(inside: bool, k: u8) -> bool
    ensures { result ≡ inside-after-of inside k }
{
    if inside { k != b'n' } else { k == b'f' }
}

#[tactic(auto, unfolding(import_parts::specs::Walk::behind_string))]
fn behind_string(quoted: bool, k: u8) -> bool
    ensures { result ≡ behind-string-of quoted k }
{
    quoted && k != QUOTES
}

#[tactic(auto, unfolding(import_parts::specs::Walk::quoted_after))]
fn quoted_after(quoted: bool, k: u8) -> bool
    ensures { result ≡ quoted-after-of quoted k }
{
    k == QUOTES && !quoted
}

// Whether a byte ends the scan.
fn stops(string: bool, inside: bool, k: u8) -> bool
    ensures { result ≡ stops-of string inside k }
{
    if string {
        behind_string(inside, k)
    } else {
        begins(inside, k)
    }
}

fn turned(string: bool, inside: bool, k: u8) -> bool
    ensures { result ≡ turned-of string inside k }
{
    if string {
        quoted_after(inside, k)
    } else {
        inside_after(inside, k)
    }
}

// The byte that ends the scan, or the end.
pub fn scan(text: &[u8], from: usize, string: bool) -> usize
    requires { from ≤ length text.now }
    ensures { Onward text.now from result (scan_rest string false (drop from text.now)) }
{
    let mut inside = false;
    for i in from..text.len() {
        if stops(string, inside, text[i]) {
            return i;
        }
        inside = turned(string, inside, text[i]);
    }
    text.len()
}
