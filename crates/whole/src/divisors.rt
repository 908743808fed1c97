// The greatest common divisor, and division by it.
ghost use Rattle.std.specs.Prelude.{◌≡◌, ◌<◌, ◌≤◌, pos, int_div};
ghost use Rattle.whole.specs.Within.{limit};
ghost use Rattle.whole.specs.Divisor.{gcd_of, at_least_one};

// By Euclid's rule; most coefficients are 0, and no division is needed for them.
pub fn gcd(a: u64, b: u64) -> u64
    ensures { result ≡ gcd_of a b }
{
    if a == 0 {
        return b;
    }
    let mut x = a;
    let mut y = b;
    while y != 0 {
        let r = x % y;
        x = y;
        y = r;
    }
    x
}

// What a test is divided by: 1 where all its numbers are 0.
pub fn at_least_one(g: u64) -> u64
    ensures { result ≡ at_least_one g }
{
    g.max(1)
}

// a divided by g, toward zero.
pub fn quot(a: i64, g: u64) -> i64
    requires { (0 < g) × (g ≤ limit) }
    ensures { result ≡ int_div a (pos g) }
{
    a / (g as i64)
}
