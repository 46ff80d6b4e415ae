ghost use Rattle.std.specs.Prelude.{◌≡◌};
ghost use Rattle.board.specs.Refusals.{refusal_number, of_instant};

use fairway::refusal::Refusal as InstantRefusal;

/// Why a board refused a call, in the order of the numbers, from 1 to 10.
#[derive(Clone, Copy, PartialEq, Eq, Debug)]
pub enum Refusal {
    /// the vessel's number is 0
    NumberZero,
    /// the position, the base or the speed is out of range
    OutOfRange,
    /// the clock has a fraction
    ClockHasFraction,
    /// a vessel of that number is aboard already
    AlreadyAboard,
    /// 64 vessels are aboard
    Full,
    /// no vessel of that number is aboard
    UnknownVessel,
    /// the numbers are no instant of the clock
    NoSuchInstant,
    /// the instant is earlier than the clock
    Early,
    /// there are fewer rows than the load
    FewRows,
    /// the queue's capacity was below 64 when the board was opened
    SmallQueue,
}

/// The refusal's number.
impl From<Refusal> for u8 {
    ghost from_gives = { λ refusal number. number ≡ refusal_number refusal };

    fn from(refusal: Refusal) -> u8 {
        match refusal {
            Refusal::NumberZero => 1,
            Refusal::OutOfRange => 2,
            Refusal::ClockHasFraction => 3,
            Refusal::AlreadyAboard => 4,
            Refusal::Full => 5,
            Refusal::UnknownVessel => 6,
            Refusal::NoSuchInstant => 7,
            Refusal::Early => 8,
            Refusal::FewRows => 9,
            Refusal::SmallQueue => 10,
        }
    }
}

/// The refusal of numbers that are no instant, as the board's.
impl From<InstantRefusal> for Refusal {
    ghost from_gives = { λ refusal own. own ≡ of_instant refusal };

    fn from(refusal: InstantRefusal) -> Refusal {
        match refusal {
            InstantRefusal::NoSuchInstant => Refusal::NoSuchInstant,
        }
    }
}
