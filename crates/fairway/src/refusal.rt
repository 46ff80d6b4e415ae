ghost use Rattle.std.specs.Prelude.{◌≡◌};
ghost use Rattle.fairway.specs.Refusals.{refusal_number};

/// Why numbers were refused.
#[derive(Clone, Copy, PartialEq, Eq, Debug)]
pub enum Refusal {
    /// The numbers are no instant of the clock: 7.
    NoSuchInstant,
}

// The refusal's number in the table of refusals.
impl From<Refusal> for u8 {
    ghost from_gives = { λ refusal number. number ≡ refusal_number refusal };

    fn from(refusal: Refusal) -> u8 {
        match refusal {
            Refusal::NoSuchInstant => 7,
        }
    }
}
