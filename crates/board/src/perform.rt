ghost use Rattle.std.specs.Prelude.{◌≡◌};
ghost use Rattle.board.specs.Books.{mends_of};
ghost use Rattle.board.specs.Everywhere.{BookedAlways, ListedAlways};
ghost use Rattle.board.specs.History.{Adds};
ghost use Rattle.board.specs.Lines.{Performed};
ghost use Rattle.board.specs.Outcomes.{done, rows_event};
ghost use Rattle.board.specs.Passings.{Written};

use crate::board::Board;
use crate::call::{Call, Line, Outcome, Row};
use crate::refusal::Refusal;
use crate::tickets::Ticket;
use event_queue::queue::Queue;
use kinetic::structure::Structure;

// The outcome of a call that does not mend.
fn outcome_of(answer: Result<(), Refusal>) -> Outcome
    ensures { result ≡ done answer }
{
    match answer {
        Ok(()) => Outcome::Accepted { mends: 0 },
        Err(refusal) => Outcome::Refused { refusal },
    }
}

impl<S: Structure + Drop, Q: Queue<Key = Ticket> + Drop> Board<S, Q> {
    /// Does a call, an advance with the rows given, and answers what came of it.
    pub fn perform(&mut self, call: Call, rows: &mut [Row]) -> Outcome
        ensures adds { Adds S.means Q.means self.old (rows_event call result rows.new) self.new }
        ensures written { Written (mends_of result) rows.old rows.new }
        ensures listed { ListedAlways Q.means }
    {
        match call {
            Call::Open => {
                self.open();
                Outcome::Accepted { mends: 0 }
            }
            Call::Enter {
                number,
                position,
                speed,
            } => outcome_of(self.enter(number, position, speed)),
            Call::Leave { number } => outcome_of(self.leave(number)),
            Call::Steer { number, speed } => outcome_of(self.steer(number, speed)),
            Call::Advance {
                seconds,
                numerator,
                denominator,
            } => match self.advance(seconds, numerator, denominator, rows) {
                Ok(mends) => Outcome::Accepted { mends },
                Err(refusal) => Outcome::Refused { refusal },
            },
        }
    }

    /// Opens the board, does the calls of the lines in turn and writes in each line what came of it. The rows of the
    /// advances stand one after the other; the answer is how many there are.
    ///
    /// Its contract bears the whole claim: what holds of every board over this structure and this queue that has a past, and
    /// of every board over the sorted list and this queue.
    pub fn perform_all(&mut self, lines: &mut [Line], rows: &mut [Row]) -> usize
        ensures performed { Performed S.means Q.means self.old self.new
            lines.old lines.new rows.old rows.new result }
        ensures booked_always { BookedAlways S.means Q.means }
        ensures listed_always { ListedAlways Q.means }
    {
        self.open();
        let mut used = 0;
        for line in lines {
            let outcome = self.perform(line.call, &mut rows[used..]);
            line.outcome = outcome;
            if let Outcome::Accepted { mends } = outcome {
                used += mends;
            }
        }
        used
    }
}
