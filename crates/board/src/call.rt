use crate::refusal::Refusal;
use fairway::stamp::Stamp;

/// A call that changes a board: positions in centimetres, speeds in centimetres a second.
#[derive(Clone, Copy, PartialEq, Eq, Debug)]
pub enum Call {
    /// Takes all vessels out.
    Open,
    /// A vessel enters at a position, at a speed.
    Enter {
        number: u16,
        position: i32,
        speed: i16,
    },
    /// A vessel leaves.
    Leave {
        number: u16,
    },
    /// A vessel takes another speed.
    Steer {
        number: u16,
        speed: i16,
    },
    /// The clock goes to an instant: whole seconds and a fraction.
    Advance {
        seconds: u64,
        numerator: u16,
        denominator: u16,
    },
}

/// What came of a call: it was accepted, an advance with so many mends and any other with 0; or it was refused.
#[derive(Clone, Copy, PartialEq, Eq, Debug)]
pub enum Outcome {
    /// It was done.
    Accepted { mends: usize },
    /// It changed nothing.
    Refused { refusal: Refusal },
}

/// A mend: the instant at which it was due, the number of the rear vessel, which is the one that passes, and that of the
/// front vessel.
#[derive(Clone, Copy, PartialEq, Eq, Debug)]
pub struct Row {
    pub at: Stamp,
    pub rear: u16,
    pub front: u16,
}

/// A line of a list of calls: the call, and the place for what comes of it.
#[derive(Clone, Copy, PartialEq, Eq, Debug)]
pub struct Line {
    pub call: Call,
    pub outcome: Outcome,
}
