ghost use Rattle.std.specs.Prelude.{◌≡◌, List, [], ◌∷◌};
ghost use Rattle.call_sheet.specs.Sheets.{call_of, Awaits, Hears, Hails, Does};
ghost use Rattle.call_sheet.specs.History.{LedTo};

use crate::call::{Call, Event, Hail};
use crate::refusal::Refusal;
use event_queue::clear::clear;
use event_queue::queue::Queue;

/// A call sheet: for some lines the second at which each is awaited, kept in an event queue.
// That the queue is sound is a premise of contracts: as an invariant of the sheet, `new` would ask it.
// `keeps` and `history` stand at each call, since they relate the queue before and after it.
#[derive(Drop)]
pub struct CallSheet<Q> {
    queue: Q,
}

impl<Q: Queue<Key = u32>> CallSheet<Q> {
    /// A sheet over the queue that awaits no line: it drops all the queue's tickets first. It never refuses.
    pub fn new(mut queue: Q) -> CallSheet<Q>
        ensures empty { Q.means.sound queue → LedTo Q.means [] result.queue }
        ensures capacity { Q.means.sound queue
            → Q.means.capacity result.queue ≡ Q.means.capacity queue }
        ensures keeps { Q.means.keeps queue result.queue }
    {
        clear(&mut queue);
        CallSheet { queue }
    }

    /// How many lines there are: they are the numbers below it. It never refuses.
    pub fn capacity(&mut self) -> usize
        ensures value { result ≡ Q.means.capacity self.old.queue }
        ensures same { self.new ≡ self.old }
    {
        self.queue.capacity()
    }

    /// Awaits the line at the second, whether or not it was awaited before. It refuses a line that is not below
    /// the capacity: 11.
    pub fn await_at(&mut self, line: usize, second: u32) -> Result<(), Refusal>
        ensures after { Awaits Q.means self.old.queue self.new.queue line second result }
        ensures keeps { Q.means.keeps self.old.queue self.new.queue }
        ensures history { (log : List Event) → LedTo Q.means log self.old.queue
            → LedTo Q.means (Event.OnAwait line second result ∷ log) self.new.queue }
    {
        if line >= self.capacity() {
            return Err(Refusal::NoSuchLine);
        }
        // not refused by a sound queue: the ticket is there
        let _ = self.queue.rekey(line, second);
        Ok(())
    }

    /// Awaits the line no more, and answers whether it was awaited. It refuses a line that is not below the
    /// capacity: 11.
    pub fn heard(&mut self, line: usize) -> Result<bool, Refusal>
        ensures after { Hears Q.means self.old.queue self.new.queue line result }
        ensures keeps { Q.means.keeps self.old.queue self.new.queue }
        ensures history { (log : List Event) → LedTo Q.means log self.old.queue
            → LedTo Q.means (Event.OnHeard line result ∷ log) self.new.queue }
    {
        if line >= self.capacity() {
            return Err(Refusal::NoSuchLine);
        }
        // not refused by a sound queue: the ticket is there
        Ok(matches!(self.queue.drop(line), Ok(Some(_))))
    }

    /// Hands out the line that is awaited earliest, if its second is not after the given one, or answers
    /// none. It never refuses.
    pub fn overdue(&mut self, second: u32) -> Option<Hail>
        ensures after { Hails Q.means self.old.queue self.new.queue second result }
        ensures keeps { Q.means.keeps self.old.queue self.new.queue }
        ensures history { (log : List Event) → LedTo Q.means log self.old.queue
            → LedTo Q.means (Event.OnOverdue second result ∷ log) self.new.queue }
    {
        let (line, second) = self.queue.take(second)?;
        Some(Hail { line, second })
    }

    /// Does the call, and answers it with what the sheet answered. It refuses what the call refuses.
    // Calls are data that scripts hold and reports show, so it goes by their kind.
    pub fn perform(&mut self, call: Call) -> Event
        ensures call { call_of result ≡ call }
        ensures after { Does Q.means self.old.queue self.new.queue result }
        ensures keeps { Q.means.keeps self.old.queue self.new.queue }
        ensures history { (log : List Event)
            → LedTo Q.means log self.old.queue → LedTo Q.means (result ∷ log) self.new.queue }
    {
        match call {
            Call::Await { line, second } => Event::OnAwait {
                line,
                second,
                answer: self.await_at(line, second),
            },
            Call::Heard { line } => Event::OnHeard {
                line,
                answer: self.heard(line),
            },
            Call::Overdue { second } => Event::OnOverdue {
                second,
                answer: self.overdue(second),
            },
        }
    }
}
