// Whether a bracket is a condition's: "<", ">", "C" or "N" comes before it closes.
ghost use Rattle.std.specs.Prelude.{◌≡◌, ◌≤◌, ◌<◌, length, drop};
ghost use Rattle.import_model.specs.Import.{text_most};
ghost use Rattle.import_found.specs.Places.{is_cond};
ghost use Rattle.import_going.specs.Going.{seen_of, is_mark};

use std::ops::ControlFlow;

#[tactic(auto, unfolding(crate::specs::Going::is_mark))]
fn mark(k: u8) -> bool
    ensures { result ≡ is_mark k }
{
    matches!(k, b'<' | b'>' | b'C' | b'N')
}

// On with so many brackets open inside, or the answer.
#[tactic(auto, unfolding(crate::specs::Going::seen_of))]
fn see(depth: usize, k: u8) -> ControlFlow<bool, usize>
    requires { depth < 4294967296 }
    ensures { result ≡ seen_of depth k }
{
    match k {
        b'(' => ControlFlow::Continue(depth + 1),
        b')' if depth == 0 => ControlFlow::Break(false),
        b')' => ControlFlow::Continue(depth - 1),
        _ if mark(k) => ControlFlow::Break(true),
        _ => ControlFlow::Continue(depth),
    }
}

pub fn is_cond(text: &[u8], from: usize) -> bool
    requires { (from ≤ length text.now) × (length text.now ≤ text_most) }
    ensures { result ≡ is_cond (drop from text.now) 0 }
{
    let mut depth: usize = 0;
    for i in from..text.len() {
        match see(depth, text[i]) {
            ControlFlow::Continue(d) => depth = d,
            ControlFlow::Break(cond) => return cond,
        }
    }
    false
}
