// Parts of the work words filled with zeros.
#![tactic(auto)]

pub mod zeros; // zeros.rt: words filled with zeros to their end

ghost use Rattle.std.specs.Prelude.{◌≡◌, ◌≤◌, length};
ghost use Rattle.table_clear.specs.Wipe.{wiped};

// The work words from `from` up to `to` become zero.
pub fn work(words: &mut [u32], from: usize, to: usize)
    requires { (from ≤ to) × (to ≤ length words.old) }
    ensures { words.new ≡ wiped 0 from to words.old }
{
    words[from..to].fill(0);
}
