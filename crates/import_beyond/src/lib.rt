// 25: whether a number of a text lies beyond 32 bits, in one pass.
#![tactic(auto)]

ghost use Rattle.import_beyond.specs.Beyond.{JudgesText};

use import_frames::{closed, finished};
use import_sums::{DEEPEST, walk};

// Of a text of the grammar, whether a number written, worked out or a comparison's difference is beyond.
pub fn beyond(text: &[u8]) -> bool
    ensures { JudgesText text.now result }
{
    let v = walk(text, 0, DEEPEST, false);
    let s = v.frame;
    if s.beyond {
        return true;
    }
    let c = closed(s);
    if c.beyond {
        return true;
    }
    let g = finished(c);
    g.beyond
}
