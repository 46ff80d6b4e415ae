ghost use Rattle.std.specs.Prelude.{◌≡◌};
ghost use Rattle.lines.specs.Lines.{refusal_number};

/// A page on which a line was to be written has fewer bytes than the line: refused with 19.
#[derive(Clone, Copy, PartialEq, Eq, Debug)]
pub struct NoRoom;

// The refusal's number in the table of refusals.
impl From<NoRoom> for u8 {
    ghost from_gives = { λ refusal number. number ≡ refusal_number refusal };

    fn from(_refusal: NoRoom) -> u8 {
        19
    }
}
