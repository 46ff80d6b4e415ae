ghost use Rattle.std.specs.Prelude.{◌≡◌, map};
ghost use Rattle.meetings.specs.Meetings.{AllHold, calls_of};
ghost use Rattle.meetings.specs.Calls.{calls_in};
ghost use Rattle.meetings.specs.Table as spec;

use crate::lines::{advance, advance_lent, enter, open, passings, refused, steer, taken};
use crate::told::{Meetings, Told};
use board::refusal::Refusal;

fn level_at_five() -> [Told; 5]
    ensures { result ≡ calls_of spec.level_at_five }
{
    [
        open(),
        enter(7, 0, 3, taken()),
        enter(3, 10, 1, taken()),
        advance(4, 1, 2, passings(0)),
        advance(5, 0, 1, passings(1)),
    ]
}

fn equally_fast() -> [Told; 3]
    ensures { result ≡ calls_of spec.equally_fast }
{
    [open(), enter(4, 100, 2, taken()), enter(9, 100, 2, taken())]
}

fn three_at_six() -> [Told; 5]
    ensures { result ≡ calls_of spec.three_at_six }
{
    [
        open(),
        enter(1, 0, 3, taken()),
        enter(2, 6, 2, taken()),
        enter(5, 12, 1, taken()),
        advance(6, 0, 1, passings(3)),
    ]
}

fn level_at_a_half() -> [Told; 5]
    ensures { result ≡ calls_of spec.level_at_a_half }
{
    [
        open(),
        enter(1, 0, 5, taken()),
        enter(2, 7, 3, taken()),
        advance(3, 499, 1000, passings(0)),
        advance(3, 2, 4, passings(1)),
    ]
}

fn same_instant() -> [Told; 6]
    ensures { result ≡ calls_of spec.same_instant }
{
    [
        open(),
        enter(7, 0, 3, taken()),
        enter(3, 10, 1, taken()),
        advance(4, 2, 4, passings(0)),
        advance(4, 1, 2, passings(0)),
        steer(7, 0, refused(Refusal::ClockHasFraction)),
    ]
}

fn steered_when_level() -> [Told; 5]
    ensures { result ≡ calls_of spec.steered_when_level }
{
    [
        open(),
        enter(7, 0, 3, taken()),
        enter(3, 10, 1, taken()),
        advance(5, 0, 1, passings(1)),
        steer(7, 0, taken()),
    ]
}

fn in_halves() -> [Told; 4]
    ensures { result ≡ calls_of spec.in_halves }
{
    [
        open(),
        enter(1, -10, 1, taken()),
        enter(2, -7, 0, taken()),
        advance(2, 1, 2, passings(0)),
    ]
}

fn least_speed() -> [Told; 3]
    ensures { result ≡ calls_of spec.least_speed }
{
    [
        open(),
        enter(1, 0, -1000, taken()),
        enter(2, 0, -1001, refused(Refusal::OutOfRange)),
    ]
}

fn last_instant() -> [Told; 5]
    ensures { result ≡ calls_of spec.last_instant }
{
    [
        open(),
        advance(16_777_216, 0, 1, passings(0)),
        advance(16_777_216, 1, 2, refused(Refusal::NoSuchInstant)),
        advance(3, 2, 2, refused(Refusal::NoSuchInstant)),
        advance(3, 0, 1001, refused(Refusal::NoSuchInstant)),
    ]
}

fn too_few_rows() -> [Told; 6]
    ensures { result ≡ calls_of spec.too_few_rows }
{
    [
        open(),
        enter(7, 0, 3, taken()),
        enter(3, 10, 1, taken()),
        advance_lent(0, 1, 0, 1, refused(Refusal::FewRows)),
        advance_lent(1, 1, 0, 1, passings(0)),
        advance_lent(1, 5, 0, 1, passings(1)),
    ]
}

// The calls of the table of worked meetings, each with what comes of it. It has been proved of the plain book that
// just this comes of them.
#[tactic(auto, using(crate::proofs::Meetings::meetings_hold))]
pub fn meetings() -> Meetings
    ensures calls { calls_in result ≡ map calls_of spec.meetings }
    ensures by_book { AllHold spec.meetings }
{
    Meetings {
        level_at_five: level_at_five(),
        equally_fast: equally_fast(),
        three_at_six: three_at_six(),
        level_at_a_half: level_at_a_half(),
        same_instant: same_instant(),
        steered_when_level: steered_when_level(),
        in_halves: in_halves(),
        least_speed: least_speed(),
        last_instant: last_instant(),
        too_few_rows: too_few_rows(),
    }
}
