// A sum of a text that is in the grammar, worked out where it stands.
#![tactic(auto)]

ghost use Rattle.std.specs.Prelude.{◌≤◌, length};
ghost use Rattle.import_sum_at.specs.SumAt.{SumWorks};

use import_frames::{closed, total};
use import_linears::all_fit;
use import_sums::{DEEPEST, walk};
use whole::NUMBERS;

// A sum's linear and the place behind it, or that a number of it lies beyond 32 bits. No `Result`: where a number is beyond, the
// place is told too.
#[derive(Clone, Copy)]
pub struct Worked {
    pub linear: [i64; NUMBERS],
    pub next: usize,
    pub beyond: bool,
}

// The sum that begins at a place.
pub fn sum_at(text: &[u8], at: usize) -> Worked
    requires { at ≤ length text.now }
    ensures { SumWorks text.now at result }
{
    let r = walk(text, at, DEEPEST, true);
    let next = r.next;
    let s = r.frame;
    if s.beyond {
        return Worked {
            linear: [0; NUMBERS],
            next,
            beyond: true,
        };
    }
    let c = closed(s);
    if c.beyond {
        return Worked {
            linear: [0; NUMBERS],
            next,
            beyond: true,
        };
    }
    let t = total(c);
    if all_fit(t) {
        return Worked {
            linear: t,
            next,
            beyond: false,
        };
    }
    Worked {
        linear: t,
        next,
        beyond: true,
    }
}
