// The hash chains of a table made anew, and its computed cache emptied: for indexes that have moved.
#![tactic(auto)]

ghost use Rattle.table_unique.specs.Unique.{Space};
ghost use Rattle.collect_rehash.specs.Rehash.{Rehashed};

// Heads at 0 to cap, links at cap to 2 cap, the cache at 2 cap to 8 cap.
pub fn rehash(nodes: &[i64], work: &mut [u32], cap: usize, count: usize)
    requires { Space cap nodes.now work.old count }
    ensures { Rehashed cap nodes.now work.old work.new count }
{
    table_clear::work(work, 0, cap);
    table_clear::work(work, cap * 2, cap * table_unique::WORK_WORDS);
    for i in 0..count {
        let b = table_unique::hash(table::get(nodes, i), cap);
        work[cap + i] = work[b];
        work[b] = (i + 1) as u32;
    }
}
