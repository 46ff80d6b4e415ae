ghost use Rattle.std.specs.Prelude.{◌≡◌, ◌*◌, ◌<◌};
ghost use Rattle.std.specs.Bool.{Decides};
ghost use Rattle.fairway.specs.Stamps.{time_of};
ghost use Rattle.fairway.specs.Courses.{Due};
ghost use Rattle.fairway.specs.Meetings.{lowest_stamp, LevelAnswer};
ghost use Rattle.fairway.specs.Orders.{turns, pair};
ghost use Rattle.fairway.specs.Pairs.{InOrderAnswer, PastLevelAnswer};

use crate::course::{Course, narrow_parts_of, parts_of};
use crate::euclid::greatest_common_divisor;
use crate::stamp::Stamp;

/// Two vessels, one as the rear and one as the front.
#[derive(Clone, Copy, PartialEq, Eq, Debug)]
pub struct Pair {
    /// The one that is asked to be behind.
    pub rear: Course,
    /// The one that is asked to be in front.
    pub front: Course,
}

impl Pair {
    /// The pair of a rear and a front.
    pub fn new(rear: Course, front: Course) -> Pair
        ensures { result ≡ pair rear front }
    {
        Pair { rear, front }
    }

    /// Whether the pair is in order: the rear is behind the front.
    pub fn is_in_order(self, at: Stamp) -> bool
        ensures { InOrderAnswer (time_of at) self.rear self.front result }
    {
        self.rear.is_behind(self.front, at)
    }

    /// Whether the pair is due: level, and the rear is faster.
    pub fn is_due(self, at: Stamp) -> bool
        ensures { Decides result (Due (time_of at) self.rear self.front) }
    {
        if !self.rear.is_faster(self.front) {
            return false;
        }
        // a faster rear that was ahead at second 0 is never level again
        if self.front.base < self.rear.base {
            return false;
        }
        is_made_up(
            self.front.base.abs_diff(self.rear.base),
            self.rear.speed.abs_diff(self.front.speed),
            at,
        )
    }

    /// Whether an advance turns the pair: in order at its beginning, and the other way round at its end.
    pub fn is_turned(self, from: Stamp, to: Stamp) -> bool
        ensures { result ≡ turns (time_of from) (time_of to) self }
    {
        self.rear.is_behind(self.front, from) && self.front.is_behind(self.rear, to)
    }

    /// Whether the pair has drawn level before a stamp: the rear is faster, and past the front.
    pub fn is_past(self, at: Stamp) -> bool
        ensures { PastLevelAnswer (time_of at) self.rear self.front result }
    {
        self.rear.is_faster(self.front) && self.front.position_at(at) < self.rear.position_at(at)
    }

    /// The instant at which the rear draws level with the front, in lowest terms; or none where the rear
    /// is not faster, or has passed before second 0. It is exact for every pair of courses.
    pub fn level_instant(self) -> Option<Stamp>
        ensures { LevelAnswer self.rear self.front result }
    {
        let (rear, front) = (self.rear, self.front);
        // two tests, each with an answer of its own in the contract
        if !rear.is_faster(front) {
            return None;
        }
        if front.base < rear.base {
            return None;
        }
        // the difference as a number without a sign: it may pass the greatest `i64`
        let distance = front.base.abs_diff(rear.base);
        let speed = rear.speed.abs_diff(front.speed);
        Some(quotient(distance, speed))
    }
}

// A distance up to this one, times any denominator, fits 64 bits.
const NARROW_DISTANCE: u64 = 1 << 47;

// A time before this second, in parts of a second, times the difference of any two speeds fits 64 bits.
const NARROW_SECONDS: u64 = 1 << 31;

// Whether a speed makes up a distance just at a stamp. It is reckoned in 64 bits where both products fit them.
fn is_made_up(distance: u64, speed: u16, at: Stamp) -> bool
    ensures { Decides result ((time_of at).num * speed ≡ distance * (time_of at).den) }
{
    if distance > NARROW_DISTANCE || at.seconds >= NARROW_SECONDS {
        return is_made_up_wide(distance, speed, at);
    }
    narrow_parts_of(at) * speed as u64 == distance * (at.denominator_less_one as u64 + 1)
}

// Whether a speed makes up a distance just at a stamp, in 128 bits, which hold the products of any such numbers.
#[cold]
fn is_made_up_wide(distance: u64, speed: u16, at: Stamp) -> bool
    ensures { Decides result ((time_of at).num * speed ≡ distance * (time_of at).den) }
{
    parts_of(at) * speed as u128 == distance as u128 * (at.denominator_less_one as u128 + 1)
}

// A quotient as whole seconds and a fraction in lowest terms.
#[tactic(auto, using(crate::proofs::Instants::first_divisor_pos))]
fn quotient(distance: u64, speed: u16) -> Stamp
    requires { 0 < speed }
    ensures { result ≡ lowest_stamp distance speed }
{
    let divisor = u64::from(speed);
    let rest = (distance % divisor) as u16;
    // the greater first: the other way round, Euclid's first step would only exchange the two
    let common = greatest_common_divisor(speed, rest);
    Stamp {
        seconds: distance / divisor,
        numerator: rest / common,
        denominator_less_one: speed / common - 1,
    }
}
