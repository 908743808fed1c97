// The computed cache: results kept by rule and operands, each in one place, the last one only.
#![tactic(auto)]

ghost use Rattle.std.specs.Prelude.{◌≡◌, false, ◌+◌, ◌-◌, ◌*◌, ◌≤◌, ◌<◌, length, get_or, IfSome};
ghost use Rattle.table_cache.specs.Cache.{slot_of, Key, WorkRoom, CacheEntry, store_of};

// The place of the entry for a rule's five words. Neighbours of f are neighbours there: a walk over a diagram stays near.
fn slot(cap: usize, op: usize, f: usize, g: usize, p: usize, q: usize) -> usize
    requires { (0 < cap) × (cap ≤ 65535) × Key op f g p q }
    ensures { (result ≡ slot_of cap op f g p q) × (result + 6 ≤ cap * 8) }
{
    cap * 2 + ((op * 7919 + f + g * 1009 + p * 263 + q) % cap) * 6
}

// Whether the two words at a place are others than a and b.
fn differ(work: &[u32], at: usize, a: usize, b: usize) -> bool
    requires { at + 2 ≤ length work.now }
    ensures { result ≡ false → (get_or work.now at 0 ≡ a) × (get_or work.now (at + 1) 0 ≡ b) }
{
    work[at] as usize != a || work[at + 1] as usize != b
}

// The result kept for a rule's five words.
pub fn look(
    work: &[u32],
    cap: usize,
    op: usize,
    f: usize,
    g: usize,
    p: usize,
    q: usize,
) -> Option<usize>
    requires { WorkRoom cap work.now × Key op f g p q }
    ensures { IfSome result (CacheEntry work.now (slot_of cap op f g p q) op f g p q) }
{
    let at = slot(cap, op, f, g, p, q);
    if differ(work, at, op, f) || differ(work, at + 2, g, p) || work[at + 4] as usize != q {
        return None;
    }
    (work[at + 5] as usize).checked_sub(1)
}

// Keeps a result, in the place of whatever was there.
pub fn keep(
    work: &mut [u32],
    cap: usize,
    op: usize,
    f: usize,
    g: usize,
    p: usize,
    q: usize,
    r: usize,
)
    requires { WorkRoom cap work.old × Key op f g p q × (r < 65536) }
    ensures { work.new ≡ store_of work.old (slot_of cap op f g p q) op f g p q r }
{
    let at = slot(cap, op, f, g, p, q);
    work[at] = op as u32;
    work[at + 1] = f as u32;
    work[at + 2] = g as u32;
    work[at + 3] = p as u32;
    work[at + 4] = q as u32;
    work[at + 5] = (r + 1) as u32;
}
