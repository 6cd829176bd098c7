//! Greatest common divisors.
ghost use Rattle.std.specs.Int.{IsGcd};

// The greatest common divisor of two numbers, by Euclid's algorithm. That of 0 and a number is the number.
pub(crate) fn greatest_common_divisor(a: u64, b: u64) -> u64
    ensures { IsGcd a b result }
{
    let mut x = a;
    let mut y = b;
    while y != 0 {
        let rest = x % y;
        x = y;
        y = rest;
    }
    x
}
