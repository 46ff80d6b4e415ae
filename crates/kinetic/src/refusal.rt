ghost use Rattle.std.specs.Prelude.{◌≡◌};
ghost use Rattle.kinetic.specs.Refusals.{refusal_number};

/// Why a kinetic structure refused a call.
#[derive(Clone, Copy, PartialEq, Eq, Debug)]
pub enum Refusal {
    /// The vessel's number is 0: 1.
    NumberZero,
    /// The speed or the base is out of range: 2.
    OutOfRange,
    /// A vessel of that number is aboard already: 4.
    AlreadyAboard,
    /// 64 vessels are aboard: 5.
    Full,
    /// No vessel of that number is aboard: 6.
    UnknownVessel,
    /// There is no certificate of that number, or it is not due: 6.
    NotDue,
}

// The refusal's number in the table of refusals.
impl From<Refusal> for u8 {
    ghost from_gives = { λ e r. r ≡ refusal_number e };

    fn from(refusal: Refusal) -> u8 {
        match refusal {
            Refusal::NumberZero => 1,
            Refusal::OutOfRange => 2,
            Refusal::AlreadyAboard => 4,
            Refusal::Full => 5,
            Refusal::UnknownVessel => 6,
            Refusal::NotDue => 6,
        }
    }
}
