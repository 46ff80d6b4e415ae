ghost use Rattle.std.specs.Prelude.{◌≡◌};
ghost use Rattle.call_sheet.specs.Lines.{refusal_number};

/// Why a call sheet refused a call.
#[derive(Clone, Copy, PartialEq, Eq, Debug)]
pub enum Refusal {
    /// the line is not below the capacity
    NoSuchLine,
}

/// The refusal's number in the table of refusals.
impl From<Refusal> for u8 {
    ghost from_gives = { λ e r. r ≡ refusal_number e };

    fn from(refusal: Refusal) -> u8 {
        match refusal {
            Refusal::NoSuchLine => 11,
        }
    }
}
