// Sums and comparisons of a text worked where they stand: one pass over the bytes, a call for each bracket.
#![tactic(auto)]

ghost use Rattle.std.specs.Prelude.{◌≡◌, true, ◌≤◌, length, drop};
ghost use Rattle.import_frames.specs.Frames as f;
ghost use Rattle.import_frames.specs.Frames.{SoundFrame};
ghost use Rattle.import_sums.specs.Walks.{resting, Walks, Closes};

use import_frames::{Frame, NAME, START, idle, is_blank, is_digit, over, popped, step};

// The brackets that may be open at once.
pub const DEEPEST: usize = 32;

// A frame, and the place up to which it is worked.
#[derive(Clone, Copy)]
pub struct Walked {
    pub frame: Frame,
    pub next: usize,
}

// The bytes of sums, but ")".
fn of_sum(k: u8) -> bool
    ensures { result ≡ f.of_sum k }
{
    is_blank(k) || is_digit(k) || matches!(k, b'*' | b'+' | b'-' | b'L' | b'(')
}

// A ")", or where only a sum is asked for what is no byte of one.
fn stops(only: bool, s: Frame, k: u8) -> bool
    ensures { result ≡ f.stops only s k }
{
    s.mode != NAME && (k == b')' || only && !of_sum(k))
}

fn opens(s: Frame, k: u8) -> bool
    ensures { result ≡ f.opens s k }
{
    s.mode != NAME && k == b'('
}

// ")" behind a bracket in o.
fn closing(text: &[u8], o: Frame, only: bool, inner: Walked) -> Walked
    requires { SoundFrame o × (SoundFrame inner.frame × ((inner.next ≤ length text.now) × (resting only inner.frame (drop inner.next text.now) ≡ true))) }
    ensures { Closes text.now o only inner result }
{
    let n = inner.next;
    if inner.frame.beyond {
        return inner;
    }
    if n < text.len() && text[n] == b')' {
        return Walked {
            frame: popped(o, inner.frame),
            next: n + 1,
        };
    }
    Walked {
        frame: over(),
        next: n,
    }
}

// From a fresh frame to what does not belong to it. Brackets nest at most as deep as depth.
pub fn walk(text: &[u8], at: usize, depth: usize, only: bool) -> Walked
    requires { at ≤ length text.now }
    ensures { Walks text.now at depth only result }
{
    let mut s = idle(START);
    let mut i = at;
    // No `for`: a bracket is passed over as one, so the place leaps to where the call ends.
    while i < text.len() {
        let k = text[i];
        if s.beyond {
            return Walked { frame: s, next: i };
        }
        if stops(only, s, k) {
            return Walked { frame: s, next: i };
        }
        if opens(s, k) {
            if depth == 0 {
                return Walked {
                    frame: over(),
                    next: i,
                };
            }
            let r = closing(text, s, only, walk(text, i + 1, depth - 1, only));
            s = r.frame;
            i = r.next;
        } else {
            s = step(s, k);
            i += 1;
        }
    }
    Walked { frame: s, next: i }
}
