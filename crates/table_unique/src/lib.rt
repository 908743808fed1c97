// The unique table: equal nodes are one node, found by hash chains. The work words hold the heads at 0 to cap
// and the links at cap to 2 cap, each one more than an index, or 0.
#![tactic(auto)]

ghost use Rattle.std.specs.Prelude.{◌≡◌, ◌*◌, ◌%◌, ◌^◌, ◌<◌, ◌≤◌};
ghost use Rattle.table.specs.Table.{first_node, nodes_most};
ghost use Rattle.table_unique.specs.Unique.{factors_end, added_of, next_of, bucket_of, hash_of, Chained, NodeEntered};

use std::num::wrapping_add_u64;
use table::{Made, Node, Stop, Stopped};
use whole::limits::bits;

// A node's work words: two for the chains, and six for the cache.
pub const WORK_WORDS: usize = 8;

// 2³², of which a word has two digits.
const HALF: u64 = 4294967296;

// Each word of a node counts by a factor of its own, below 2³¹: the kind, the first number, high and low.
const KIND_FACTOR: u64 = 1640531527;

const FIRST_FACTOR: u64 = 1367130551;

const HIGH_FACTOR: u64 = 2024237689;

const LOW_FACTOR: u64 = 1812433253;

const FACTORS_END: u64 = 2147483648;

// The last 64 bits of a product, by halves, since no product may be longer. The compiler makes one multiplication of it.
fn times(x: u64, k: u64) -> u64
    requires { k < factors_end }
    ensures { result ≡ x * k % 2 ^ 64 }
{
    let high = x / HALF;
    let low = x % HALF;
    let k_high = k / HALF;
    let k_low = k % HALF;
    let cross = low * k_high + high * k_low;
    wrapping_add_u64(low * k_low, cross % HALF * HALF)
}

// A sum of shares with one word more.
fn added(h: u64, z: i64, k: u64) -> u64
    requires { k < factors_end }
    ensures { result ≡ added_of h z k }
{
    wrapping_add_u64(h, times(bits(z), k))
}

// The factor after k.
fn next(k: u64) -> u64
    requires { k < factors_end }
    ensures { (result ≡ next_of k) × (result < factors_end) }
{
    k * 69069 % FACTORS_END
}

// The bucket of a sum of shares, by both its halves as a fraction: no division by the room.
fn bucket(sum: u64, cap: usize) -> usize
    requires { (0 < cap) × (cap ≤ nodes_most) }
    ensures { (result ≡ bucket_of sum cap) × (result < cap) }
{
    let fraction = ((sum % HALF + sum / HALF) % HALF) as usize;
    fraction * cap / 4294967296
}

// A node's bucket.
pub fn hash(x: Node, cap: usize) -> usize
    requires { (0 < cap) × (cap ≤ nodes_most) }
    ensures { (result ≡ hash_of cap x) × (result < cap) }
{
    let mut h = added(0, x.kind, KIND_FACTOR);
    let mut k = FIRST_FACTOR;
    for z in &x.n {
        h = added(h, *z, k);
        k = next(k);
    }
    bucket(added(added(h, x.high, HIGH_FACTOR), x.low, LOW_FACTOR), cap)
}

// The node that equals x, or count where there is none: along its bucket's chain.
fn find(nodes: &[i64], work: &[u32], cap: usize, count: usize, x: Node) -> usize
    requires { Chained cap nodes.now work.now count }
    ensures { result ≡ first_node nodes.now x count }
{
    let b = hash(x, cap);
    let mut at = work[b] as usize;
    while at != 0 {
        let i = at - 1;
        if table::is_at(nodes, i, x) {
            return i;
        }
        at = work[cap + i] as usize;
    }
    count
}

// Looks a node up, or appends it, or says that the table is full.
pub fn find_or_make(
    nodes: &mut [i64],
    work: &mut [u32],
    cap: usize,
    count: usize,
    x: Node,
) -> Result<Made, Stopped>
    requires { Chained cap nodes.old work.old count }
    ensures { NodeEntered cap nodes.old work.old count x nodes.new work.new result }
{
    let at = find(nodes, work, cap, count, x);
    if at < count {
        return Ok(Made { at, count });
    }
    if count >= cap {
        return Err(Stopped {
            why: Stop::Full,
            count,
        });
    }
    table::put(nodes, count, x);
    let b = hash(x, cap);
    work[cap + count] = work[b];
    work[b] = (count + 1) as u32;
    Ok(Made {
        at: count,
        count: count + 1,
    })
}
