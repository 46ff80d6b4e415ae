ghost use Rattle.std.specs.Prelude.{◌≡◌};
ghost use Rattle.trace_replay.specs.Faults.{cause_number};
ghost use Rattle.trace_replay.specs.declared.fault.Cause.TheVariants.{NoRoom};

use lines::refusal::NoRoom;
use trace::fault::Fault as TraceFault;

/// Why a replay stopped.
#[derive(Clone, Copy, PartialEq, Eq, Debug)]
pub enum Cause {
    /// what is wrong with the trace: 13 to 17
    Trace(TraceFault),
    /// the board refused the record: 18
    Refused,
    /// the line does not fit the page: 19
    NoRoom,
}

/// A replay that stopped: the cause, how many bytes of the page are written, and the place in the trace, 0 for the
/// header, where the record's kind byte stands or should stand.
#[derive(Clone, Copy, PartialEq, Eq, Debug)]
pub struct Fault {
    pub cause: Cause,
    pub written: usize,
    pub place: usize,
}

/// The cause's number in the table of refusals.
impl From<Cause> for u8 {
    ghost from_gives = { λ cause number. number ≡ cause_number cause };

    fn from(cause: Cause) -> u8 {
        match cause {
            Cause::Trace(fault) => u8::from(fault),
            Cause::Refused => 18,
            Cause::NoRoom => 19,
        }
    }
}

/// A line that does not fit stops the replay.
impl From<NoRoom> for Cause {
    ghost from_gives = { λ refusal cause. cause ≡ NoRoom };

    fn from(_refusal: NoRoom) -> Cause {
        Cause::NoRoom
    }
}
