// Whole numbers within ±(2⁶² − 1), divisors, powers, and numerators in two words.
#![tactic(auto)]

pub mod limits; // limits.rt: sums, differences, products and powers, judged
pub mod divisors; // divisors.rt: the greatest common divisor, and division by it
pub mod linears; // linears.rt: whether two lists of numbers are equal
pub mod two_words; // two_words.rt: numerators in two words
pub mod dot_product; // dot_product.rt: a linear's numerator at a point

// The coefficients of a linear, and its numbers: the constant is the last.
pub const COEFFICIENTS: usize = 8;

pub const NUMBERS: usize = COEFFICIENTS + 1;

#[derive(Clone, Copy)]
pub struct Numerator {
    pub low: u64,
    pub high: i64,
}
