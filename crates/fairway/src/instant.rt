ghost use Rattle.std.specs.Prelude.{◌≡◌, ◌<◌, ◌≤◌};
ghost use Rattle.fairway.specs.Fractions.{Coprime};

mod clock;
mod comparisons;
mod numbers;

// The clock's last second, which is whole.
const LAST_SECOND: u64 = 16_777_216;

// The greatest denominator that an instant may have.
const FINEST: u16 = 1000;

/// An instant of the clock: whole seconds and a fraction of a second in lowest terms, 0/1 where it is whole.
/// The clock runs from 0 to 16,777,216 seconds, and its last second is whole.
#[derive(Clone, Copy, PartialEq, Eq, Debug)]
pub struct Instant {
    seconds: u64,
    numerator: u16,
    denominator: u16,
    ghost below: { numerator < denominator },
    ghost lowest: { Coprime numerator denominator },
    ghost fine: { denominator ≤ 1000 },
    ghost bounded: { seconds ≤ 16777216 },
    ghost last: { (seconds ≡ 16777216 → numerator ≡ 0) },
}
