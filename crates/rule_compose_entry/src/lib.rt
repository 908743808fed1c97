// What a substitution goes by: its entry in the computed cache, and the number of a node's condition.
#![tactic(auto)]

ghost use Rattle.std.specs.Prelude.{◌≡◌, true, ◌+◌, ◌-◌, ◌<◌, T, pos, get_or, IfSome};
ghost use Rattle.std.specs.Int.Signed.{non_neg};
ghost use Rattle.table.specs.Table.{node_at, eq_ℤ};
ghost use Rattle.theory.specs.Widths.{levels_most};
ghost use Rattle.rule_node.specs.Nodes.{first_of, At};
ghost use Rattle.table_cache.specs.Cache.{WorkRoom};
ghost use Rattle.rule_combine.specs.Levels.{Levels};
ghost use Rattle.rule_compose_entry.specs.Entry.{pair, entry_words, HeldEntry, with_result, condition_in};

use rule_node::codes::SUBSTITUTE;
use rule_node::index;
use table::Node;
use table_cache::{keep, look};

// The words of an entry in the cache: five, as the cache's room is fixed, and laid out as `indexes` reads them.
#[derive(Clone, Copy)]
pub struct Words {
    pub op: usize,
    pub f: usize,
    pub g: usize,
    pub p: usize,
    pub q: usize,
}

// Two indexes as one word of the cache.
fn pair_of(a: usize, b: usize) -> usize
    requires { (a < 65536) × (b < 65536) }
    ensures { result ≡ pair a b }
{
    b * 65536 + a
}

// The index of level k, from 0 on; 0 beyond them.
fn level(levels: &[u32], k: usize) -> usize
    ensures { result ≡ get_or levels.now k 0 }
{
    if k < levels.len() {
        return levels[k] as usize;
    }
    0
}

// The word with x in its low half and the index of level k in its high half.
fn with_level(x: usize, levels: &[u32], k: usize) -> usize
    requires { (x < 65536) × Levels 65536 levels.now }
    ensures { result ≡ pair x (get_or levels.now k 0) }
{
    pair_of(x, level(levels, k))
}

// The word with the indexes of levels k and k + 1.
fn two_levels(levels: &[u32], k: usize) -> usize
    requires { (k < levels_most) × Levels 65536 levels.now }
    ensures { result ≡ pair (get_or levels.now k 0) (get_or levels.now (k + 1) 0) }
{
    with_level(level(levels, k), levels, k + 1)
}

// The words of the entry for the diagram at f with these levels.
fn key(f: usize, levels: &[u32]) -> Words
    requires { (f < 65536) × Levels 65536 levels.now }
    ensures { result ≡ entry_words f levels.now }
{
    let op = with_level(SUBSTITUTE + levels.len() * 16, levels, 0);
    let at = with_level(f, levels, 1);
    let g = two_levels(levels, 2);
    let p = two_levels(levels, 4);
    let q = two_levels(levels, 6);
    Words { op, f: at, g, p, q }
}

// What the cache has of the diagram at f with these levels.
pub fn recall(work: &[u32], cap: usize, f: usize, levels: &[u32]) -> Option<usize>
    requires { WorkRoom cap work.now × (f < 65536) × Levels 65536 levels.now }
    ensures { IfSome result (HeldEntry cap work.now (entry_words f levels.now)) }
{
    let k = key(f, levels);
    look(work, cap, k.op, k.f, k.g, k.p, k.q)
}

// Keeps the result r.
pub fn retain(work: &mut [u32], cap: usize, f: usize, levels: &[u32], r: usize)
    requires { WorkRoom cap work.old × (f < 65536) × Levels 65536 levels.now × (r < 65536) }
    ensures { work.new ≡ with_result cap work.old (entry_words f levels.now) r }
{
    let k = key(f, levels);
    keep(work, cap, k.op, k.f, k.g, k.p, k.q, r);
}

// The number of a node's condition, now or next; 0 for a linear test.
fn condition_of(x: Node) -> usize
    requires { eq_ℤ x.kind (pos 1) ≡ true → T (non_neg (first_of x)) }
    ensures { result ≡ condition_in x }
{
    if x.kind == 1 {
        let n = x.n;
        let z = n[0];
        let k = index(z);
        if k > 4 {
            return k - 4;
        }
        return k;
    }
    0
}

// That of the node at f.
pub fn condition_at(nodes: &[i64], f: usize) -> usize
    requires { At nodes.now f × (eq_ℤ (node_at nodes.now f).kind (pos 1) ≡ true → T (non_neg (first_of (node_at nodes.now f)))) }
    ensures { result ≡ condition_in (node_at nodes.now f) }
{
    condition_of(table::get(nodes, f))
}
