ghost use Rattle.std.specs.Prelude.{◌≡◌};
ghost use Rattle.meetings.specs.Table as spec;

use crate::told::Told;
use board::call::{Call, Outcome};
use board::refusal::Refusal;

// The most rows that an advance can need: the pairs of 64 vessels.
const MOST_ROWS: usize = 2016;

// What comes of a call that is accepted, other than an advance.
pub(crate) fn taken() -> Outcome
    ensures { result ≡ spec.taken }
{
    passings(0)
}

// What an accepted advance answers.
pub(crate) fn passings(mends: usize) -> Outcome
    ensures { result ≡ spec.passings mends }
{
    Outcome::Accepted { mends }
}

pub(crate) fn refused(refusal: Refusal) -> Outcome
    ensures { result ≡ spec.refused refusal }
{
    Outcome::Refused { refusal }
}

pub(crate) fn open() -> Told
    ensures { result ≡ spec.line spec.open_board spec.taken }
{
    Told {
        call: Call::Open,
        lent: 0,
        outcome: taken(),
    }
}

pub(crate) fn enter(number: u16, position: i32, speed: i16, outcome: Outcome) -> Told
    ensures { result ≡ spec.line (spec.enter number position speed) outcome }
{
    Told {
        call: Call::Enter {
            number,
            position,
            speed,
        },
        lent: 0,
        outcome,
    }
}

pub(crate) fn steer(number: u16, speed: i16, outcome: Outcome) -> Told
    ensures { result ≡ spec.line (spec.steer number speed) outcome }
{
    Told {
        call: Call::Steer { number, speed },
        lent: 0,
        outcome,
    }
}

// An advance that is lent so many rows.
pub(crate) fn advance_lent(
    lent: usize,
    seconds: u64,
    numerator: u16,
    denominator: u16,
    outcome: Outcome,
) -> Told
    ensures { result ≡ spec.line (spec.advance_lent lent seconds numerator denominator) outcome }
{
    Told {
        call: Call::Advance {
            seconds,
            numerator,
            denominator,
        },
        lent,
        outcome,
    }
}

// An advance that is lent as many rows as there can be passings.
pub(crate) fn advance(seconds: u64, numerator: u16, denominator: u16, outcome: Outcome) -> Told
    ensures { result ≡ spec.line (spec.advance seconds numerator denominator) outcome }
{
    advance_lent(MOST_ROWS, seconds, numerator, denominator, outcome)
}
