use crate::texts::mixed::Mixed;
use board::call::{Call, Line, Outcome, Row};
use board::refusal::Refusal;
use std::fmt;

pub mod mixed;

// A call, as a report has it.
#[derive(Clone, Copy)]
pub struct CallText(pub Call);

impl fmt::Display for CallText {
    fn fmt<W: fmt::Write>(&self, f: &mut fmt::Formatter<W>) -> fmt::Result {
        match self.0 {
            Call::Open => write!(f, "opened"),
            Call::Enter {
                number,
                position,
                speed,
            } => write!(f, "vessel {number} enters at {position} with speed {speed}"),
            Call::Leave { number } => write!(f, "vessel {number} leaves"),
            Call::Steer { number, speed } => write!(f, "vessel {number} takes speed {speed}"),
            Call::Advance {
                seconds,
                numerator,
                denominator,
            } => {
                let instant = Mixed::of_numbers(seconds, numerator, denominator);
                write!(f, "advance to {instant}")
            }
        }
    }
}

// Why a call or a question was refused.
#[derive(Clone, Copy)]
pub struct RefusalText(pub Refusal);

impl fmt::Display for RefusalText {
    fn fmt<W: fmt::Write>(&self, f: &mut fmt::Formatter<W>) -> fmt::Result {
        let reason = match self.0 {
            Refusal::NumberZero => "no vessel has the number 0",
            Refusal::OutOfRange => "the position or the speed is out of range",
            Refusal::ClockHasFraction => "the clock is not at a whole second",
            Refusal::AlreadyAboard => "it is aboard already",
            Refusal::Full => "64 vessels are aboard",
            Refusal::UnknownVessel => "it is not aboard",
            Refusal::NoSuchInstant => "there is no such instant",
            Refusal::Early => "it is earlier than the clock",
            Refusal::FewRows => "there are fewer rows left than the load",
            Refusal::SmallQueue => "the queue is too small",
        };
        write!(f, "{reason}")
    }
}

// A number of passings.
#[derive(Clone, Copy)]
pub struct PassingsText(pub u64);

impl fmt::Display for PassingsText {
    fn fmt<W: fmt::Write>(&self, f: &mut fmt::Formatter<W>) -> fmt::Result {
        match self.0 {
            1 => write!(f, "1 passing"),
            count => write!(f, "{count} passings"),
        }
    }
}

// A call with what came of it.
#[derive(Clone, Copy)]
pub struct LineText(pub Line);

impl fmt::Display for LineText {
    fn fmt<W: fmt::Write>(&self, f: &mut fmt::Formatter<W>) -> fmt::Result {
        let call = CallText(self.0.call);
        match (self.0.outcome, self.0.call) {
            (Outcome::Refused { refusal }, _) => {
                let number = u8::from(refusal);
                let reason = RefusalText(refusal);
                write!(f, "refused {number}: {call} ({reason})")
            }
            (Outcome::Accepted { mends }, Call::Advance { .. }) => {
                let passings = PassingsText(mends as u64);
                write!(f, "{call}: {passings}")
            }
            _ => write!(f, "{call}"),
        }
    }
}

// A passing.
#[derive(Clone, Copy)]
pub struct PassingText(pub Row);

impl fmt::Display for PassingText {
    fn fmt<W: fmt::Write>(&self, f: &mut fmt::Formatter<W>) -> fmt::Result {
        let Row { at, rear, front } = self.0;
        let instant = Mixed::from(at);
        write!(f, "{rear} passes {front} at {instant}")
    }
}
