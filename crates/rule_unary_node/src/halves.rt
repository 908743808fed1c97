// An i64 as two words of 32 bits, as an entry of the cache has them.
ghost use Rattle.std.specs.Prelude.{◌≡◌, ◌<◌};
ghost use Rattle.rule_node.specs.EntryMeaning.{from_halves};
ghost use Rattle.rule_unary_node.specs.Acts.{low_of, high_of};

// 2³²: the numbers that a word of the cache has.
const HALF: u64 = 4294967296;

// The i64 with the low half p and the high half q.
pub(crate) fn number_of(p: usize, q: usize) -> i64
    requires { (p < 4294967296) × (q < 4294967296) }
    ensures { result ≡ from_halves p q }
{
    (q as u64 * HALF + p as u64).cast_signed()
}

// The low half of c.
pub fn low_half(c: i64) -> usize
    ensures { result ≡ low_of c }
{
    (c.cast_unsigned() % HALF) as usize
}

// The high half of c.
pub fn high_half(c: i64) -> usize
    ensures { result ≡ high_of c }
{
    (c.cast_unsigned() / HALF) as usize
}
