// Words filled with zeros.
ghost use Rattle.std.specs.Prelude.{◌≡◌, ◌++◌, ◌-◌, ◌≤◌, pos, length, take, replicate};

// The words of nodes from `from` on.
pub fn nodes_from(nodes: &mut [i64], from: usize)
    requires { from ≤ length nodes.old }
    ensures { nodes.new ≡ take from nodes.old ++ replicate (length nodes.old - from) (pos 0) }
{
    nodes[from..].fill(0);
}

// Work or stage words from `from` on.
pub fn words_from(words: &mut [u32], from: usize)
    requires { from ≤ length words.old }
    ensures { words.new ≡ take from words.old ++ replicate (length words.old - from) 0 }
{
    words[from..].fill(0);
}
