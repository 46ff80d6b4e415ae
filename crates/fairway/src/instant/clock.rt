ghost use Rattle.std.specs.Prelude.{◌≡◌};
ghost use Rattle.fairway.specs.Times.{◌<ᵗ◌, ratio};
ghost use Rattle.std.specs.Bool.{Decides};
ghost use Rattle.fairway.specs.Instants.{value, stamp_of, Made, SameInstant};

use crate::euclid::greatest_common_divisor;
use crate::instant::{FINEST, Instant, LAST_SECOND};
use crate::refusal::Refusal;
use crate::stamp::Stamp;

impl Instant {
    /// The clock's first instant.
    pub fn start() -> Instant
        ensures { value result ≡ ratio 0 1 }
    {
        Instant {
            seconds: 0,
            numerator: 0,
            denominator: 1,
        }
    }

    /// The instant of so many seconds and a fraction, in lowest terms or not. Refused with 7 where the denominator
    /// is 0 or above 1,000, the numerator is not below it, or it is later than the clock's last second.
    #[tactic(auto, using(crate::proofs::Instants::divisor_pos))]
    pub fn new(seconds: u64, numerator: u16, denominator: u16) -> Result<Instant, Refusal>
        ensures { Made seconds numerator denominator result }
    {
        if !(1..=FINEST).contains(&denominator) || numerator >= denominator {
            return Err(Refusal::NoSuchInstant);
        }
        if (seconds, numerator) > (LAST_SECOND, 0) {
            return Err(Refusal::NoSuchInstant);
        }
        let common = greatest_common_divisor(numerator, denominator);
        Ok(Instant {
            seconds,
            numerator: numerator / common,
            denominator: denominator / common,
        })
    }

    /// The instant as a plain triple.
    pub fn stamp(&self) -> Stamp
        ensures { result ≡ stamp_of self.now }
    {
        Stamp::from(*self)
    }

    /// Whether this instant is earlier.
    #[tactic(auto, using(crate::proofs::Instants::told_before))]
    pub fn is_before(&self, other: &Instant) -> bool
        ensures { Decides result (value self.now <ᵗ value other.now) }
    {
        self < other
    }

    /// Whether this instant is later.
    #[tactic(auto, using(crate::proofs::Instants::told_before))]
    pub fn is_after(&self, other: &Instant) -> bool
        ensures { Decides result (value other.now <ᵗ value self.now) }
    {
        other < self
    }

    /// Whether the two are the same instant.
    #[tactic(auto, using(crate::proofs::Instants::told_same))]
    pub fn is_same(&self, other: &Instant) -> bool
        ensures { SameInstant self.now other.now result }
    {
        self == other
    }
}

// The instant as a plain triple.
impl From<Instant> for Stamp {
    ghost from_gives = { λ instant stamp. stamp ≡ stamp_of instant };

    fn from(instant: Instant) -> Stamp {
        Stamp {
            seconds: instant.seconds,
            numerator: instant.numerator,
            denominator_less_one: instant.denominator - 1,
        }
    }
}
