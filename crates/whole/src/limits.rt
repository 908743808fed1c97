// Whole numbers judged: a result is given where it lies within ±(2⁶² − 1).
ghost use Rattle.std.specs.Prelude.{◌≡◌, ◌^◌, pos, ◌+ℤ◌, ◌*ℤ◌, unsigned_abs};
ghost use Rattle.std.specs.Int.{w64};
ghost use Rattle.std.proofs.Common.{of_z};
ghost use Rattle.whole.specs.Within.{limited, Small};

// 2⁶² − 1
pub const LIMIT: u64 = 4611686018427387903;

// The magnitude of any i64. -(a + 1) fits also for the least.
pub fn mag(a: i64) -> u64
    ensures { result ≡ unsigned_abs a }
{
    a.unsigned_abs()
}

// The bits of any i64 as a number: 2⁶⁴ − |z| where it is negative.
pub fn bits(z: i64) -> u64
    ensures { result ≡ of_z w64 z }
{
    z.cast_unsigned()
}

// z where it lies within the limits.
pub fn keep(z: i64) -> Option<i64>
    ensures { result ≡ limited z }
{
    if mag(z) <= LIMIT { Some(z) } else { None }
}

// a + b. Two numbers within the limits have a sum that fits.
pub fn add_within(a: i64, b: i64) -> Option<i64>
    requires { Small a × Small b }
    ensures { result ≡ limited (a +ℤ b) }
{
    keep(a + b)
}

// a × b, of any two numbers. The magnitudes decide before anything is multiplied.
pub fn mul_within(a: i64, b: i64) -> Option<i64>
    ensures { result ≡ limited (a *ℤ b) }
{
    let p = mag(a);
    let q = mag(b);
    if p == 0 {
        return Some(0);
    }
    if q <= LIMIT / p { Some(a * b) } else { None }
}

// w to the power e. A power over the limits has only larger ones after it.
pub fn power_within(w: u32, e: u32) -> Option<i64>
    ensures { result ≡ limited (pos (w ^ e)) }
{
    let mut p: i64 = 1;
    for _ in 0..e {
        p = mul_within(p, i64::from(w))?;
    }
    Some(p)
}
