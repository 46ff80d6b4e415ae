ghost use Rattle.std.specs.Prelude.{Some};
ghost use Rattle.radio_watch.specs.Report.{unreadable_text};

use call_sheet::call::{Call, Event};
use std::fmt;

/// A line of a script that cannot be read, by its number from 1.
#[derive(Clone, Copy, PartialEq, Eq, Debug)]
pub struct Unreadable {
    pub number: usize,
}

impl fmt::Display for Unreadable {
    ghost output = { λ e. Some (unreadable_text e) };

    fn fmt<W: fmt::Write>(&self, f: &mut fmt::Formatter<W>) -> fmt::Result {
        write!(f, "script line {} cannot be read", self.number)
    }
}

/// What a script asks for, line by line: a call, or a line that cannot be read.
pub type Item = Result<Call, Unreadable>;

/// What came of an item of a script.
pub type Entry = Result<Event, Unreadable>;
