// Lists of numbers, as a linear's are; what is worked with them stands in the crate `linears`.
ghost use Rattle.std.specs.Prelude.{◌≡◌};
ghost use Rattle.whole.specs.Linears.{eq_list};

use super::NUMBERS;

// Whether two lists are equal.
pub fn equal(a: [i64; NUMBERS], b: [i64; NUMBERS]) -> bool
    ensures { result ≡ eq_list a b }
{
    a == b
}
