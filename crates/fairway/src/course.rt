ghost use Rattle.std.specs.Prelude.{◌≡◌, ◌+◌, ◌*◌, ◌^◌, ◌<◌, ◌≤◌};
ghost use Rattle.std.specs.Bool.{Decides};
ghost use Rattle.fairway.specs.Stamps.{time_of, den};
ghost use Rattle.fairway.specs.Courses.{InRange, place, Level, faster};
ghost use Rattle.fairway.specs.Behind.{behind};
ghost use Rattle.fairway.specs.Instants.{value};

use crate::instant::Instant;
use crate::stamp::Stamp;

// The greatest speed of a course in range, either way, in centimetres a second.
const MOST_SPEED: i16 = 1000;

// The greatest base of a course in range, either way, in centimetres.
const MOST_BASE: i64 = 33_654_432_000;

/// A vessel's course on the waterway: its number, its speed, and its base, the position reckoned back to second 0. Any
/// three numbers make a course, in range or not.
#[derive(Clone, Copy, PartialEq, Eq, Debug)]
pub struct Course {
    /// The vessel's number.
    pub number: u16,
    /// Centimetres a second, towards the front where it is above 0.
    pub speed: i16,
    /// Centimetres, the position at second 0.
    pub base: i64,
}

// The time of a stamp in parts of a second, as many to one as the denominator.
pub(crate) fn parts_of(at: Stamp) -> u128
    ensures value { result ≡ at.seconds * den at + at.numerator }
    ensures small { result < 2 ^ 81 }
{
    at.seconds as u128 * (at.denominator_less_one as u128 + 1) + at.numerator as u128
}

// The time of a stamp in parts of a second, in 64 bits, which hold it before second 2^31.
pub(crate) fn narrow_parts_of(at: Stamp) -> u64
    requires { at.seconds < 2 ^ 31 }
    ensures value { result ≡ at.seconds * den at + at.numerator }
    ensures small { result ≤ 140737488420864 }
{
    at.seconds * (at.denominator_less_one as u64 + 1) + at.numerator as u64
}

impl Course {
    /// Whether the number is not 0, the speed at most 1,000 and the base at most 33,654,432,000 in size.
    pub fn is_in_range(self) -> bool
        ensures { Decides result (InRange self) }
    {
        self.number > 0
            && (-MOST_SPEED..=MOST_SPEED).contains(&self.speed)
            && (-MOST_BASE..=MOST_BASE).contains(&self.base)
    }

    /// The position at a stamp, in parts of a centimetre, as many to one as the stamp's denominator. It is
    /// exact for every course and every stamp.
    pub fn position_at(self, at: Stamp) -> i128
        ensures { result ≡ place (time_of at) self }
    {
        let parts = parts_of(at);
        self.base as i128 * (at.denominator_less_one as i128 + 1)
            + self.speed as i128 * parts as i128
    }

    /// The position at an instant, in parts of a centimetre, as many to one as the instant's denominator.
    pub fn position(self, at: Instant) -> i128
        ensures { result ≡ place (value at) self }
    {
        self.position_at(at.stamp())
    }

    /// Whether this vessel is the faster.
    pub fn is_faster(self, other: Course) -> bool
        ensures { result ≡ faster self other }
    {
        self.speed > other.speed
    }

    /// Whether the two are at the same position.
    pub fn is_level(self, other: Course, at: Stamp) -> bool
        ensures { Decides result (Level (time_of at) self other) }
    {
        self.position_at(at) == other.position_at(at)
    }

    /// Whether this vessel is behind the other: less position; or level and slower; or level, equally fast
    /// and the smaller number.
    pub fn is_behind(self, other: Course, at: Stamp) -> bool
        ensures { result ≡ behind (time_of at) self other }
    {
        let own = self.position_at(at);
        let others = other.position_at(at);
        // most differ in their positions: the rest is compared only where they do not
        if own < others {
            return true;
        }
        if others < own {
            return false;
        }
        (self.speed, self.number) < (other.speed, other.number)
    }
}
