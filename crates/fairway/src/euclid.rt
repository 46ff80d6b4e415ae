ghost use Rattle.fairway.specs.Fractions.{CommonDivisor};

/// The greatest common divisor of two numbers, by Euclid: each step takes the rest of a division, which is
/// below the divisor, until nothing is left over.
pub fn greatest_common_divisor(a: u16, b: u16) -> u16
    ensures { CommonDivisor a b result }
{
    let mut divisor = a;
    let mut rest = b;
    while rest != 0 {
        let next = divisor % rest;
        divisor = rest;
        rest = next;
    }
    divisor
}
