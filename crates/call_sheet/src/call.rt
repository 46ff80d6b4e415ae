ghost use Rattle.std.specs.Prelude.{Some};
ghost use Rattle.std.specs.Fmt.{WritesOnOk};
ghost use Rattle.call_sheet.specs.Texts.{refused_text, event_text};

use crate::refusal::Refusal;
use std::fmt;

/// A line that has to be hailed, and the second at which it was awaited.
#[derive(Clone, Copy, PartialEq, Eq, Debug)]
pub struct Hail {
    pub line: usize,
    pub second: u32,
}

/// A call on a sheet.
#[derive(Clone, Copy, PartialEq, Eq, Debug)]
pub enum Call {
    Await { line: usize, second: u32 },
    Heard { line: usize },
    Overdue { second: u32 },
}

/// A call that was made on a sheet, with what the sheet answered.
#[derive(Clone, Copy, PartialEq, Eq, Debug)]
pub enum Event {
    OnAwait {
        line: usize,
        second: u32,
        answer: Result<(), Refusal>,
    },
    OnHeard {
        line: usize,
        answer: Result<bool, Refusal>,
    },
    OnOverdue {
        second: u32,
        answer: Option<Hail>,
    },
}

// Writes why a call on a line was refused. It is no `Display` of the refusal, which does not know the line.
fn write_refused<W: fmt::Write>(
    line: usize,
    refusal: Refusal,
    f: &mut fmt::Formatter<W>,
) -> fmt::Result
    ensures { WritesOnOk W.write_str_gives f.old result (refused_text line refusal) f.new }
{
    let number = u8::from(refusal);
    match refusal {
        Refusal::NoSuchLine => write!(f, "refused {number}: line {line} is not below the capacity"),
    }
}

/// What the sheet answered to the call, as a report has it.
impl fmt::Display for Event {
    ghost output = { λ e. Some (event_text e) };

    fn fmt<W: fmt::Write>(&self, f: &mut fmt::Formatter<W>) -> fmt::Result {
        match *self {
            Event::OnAwait {
                line,
                second,
                answer: Ok(()),
            } => write!(f, "line {line} awaited at {second}"),
            Event::OnAwait {
                line,
                answer: Err(refusal),
                ..
            } => write_refused(line, refusal, f),
            Event::OnHeard {
                line,
                answer: Ok(true),
            } => write!(f, "line {line} heard"),
            Event::OnHeard {
                line,
                answer: Ok(false),
            } => write!(f, "line {line} was not awaited"),
            Event::OnHeard {
                line,
                answer: Err(refusal),
            } => write_refused(line, refusal, f),
            Event::OnOverdue {
                answer: Some(Hail { line, second }),
                ..
            } => write!(f, "hail line {line}, awaited at {second}"),
            Event::OnOverdue { answer: None, .. } => write!(f, "none"),
        }
    }
}

#[cfg(test)]
mod tests {
    use super::*;
    use std::test::Fail;

    fn awaited(answer: Result<(), Refusal>) -> Event {
        let (line, second) = (5, 600);
        Event::OnAwait {
            line,
            second,
            answer,
        }
    }

    fn heard(answer: Result<bool, Refusal>) -> Event {
        Event::OnHeard { line: 5, answer }
    }

    fn overdue(answer: Option<Hail>) -> Event {
        Event::OnOverdue { second: 7, answer }
    }

    #[test]
    fn writes_events(rt: HostRuntime) -> Result<(), Fail> {
        let refused = "refused 11: line 5 is not below the capacity";
        let hail = Hail { line: 5, second: 6 };
        let examples = [
            (awaited(Ok(())), "line 5 awaited at 600"),
            (awaited(Err(Refusal::NoSuchLine)), refused),
            (heard(Ok(true)), "line 5 heard"),
            (heard(Ok(false)), "line 5 was not awaited"),
            (heard(Err(Refusal::NoSuchLine)), refused),
            (overdue(Some(hail)), "hail line 5, awaited at 6"),
            (overdue(None), "none"),
        ];
        for (event, expected) in examples {
            let text = event.to_string(rt.alloc())?;
            assert_eq!(rt; text.as_str(), expected);
        }
        Ok(())
    }
}
