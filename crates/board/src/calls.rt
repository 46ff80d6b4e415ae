ghost use Rattle.std.specs.Prelude.{[]};
ghost use Rattle.board.specs.Books.{mends_of};
ghost use Rattle.board.specs.Everywhere.{ListedAlways};
ghost use Rattle.board.specs.History.{Past, AsBooked, Adds};
ghost use Rattle.board.specs.Outcomes.{Opened, done, advanced, plain_event, rows_event};
ghost use Rattle.board.specs.Passings.{Written};
ghost use Rattle.board.specs.declared.call.Call.TheVariants.{Open, Enter, Leave, Steer, Advance};
ghost use Rattle.board.specs.declared.call.Outcome.TheVariants.{Accepted};

use crate::board::Board;
use crate::call::Row;
use crate::passing::mend_until;
use crate::refusal::Refusal;
use crate::tickets::{Ticket, limit_of, renew_all};
use event_queue::clear::clear;
use event_queue::queue::Queue;
use fairway::instant::Instant;
use kinetic::structure::Structure;

// Each call goes by its check, in refusals.rt, and acts on what that hands on. No structure refuses a call that its check
// accepts: each `unreachable!` is proved.
impl<S: Structure + Drop, Q: Queue<Key = Ticket> + Drop> Board<S, Q> {
    /// A board over a structure and a queue, opened.
    pub fn new(structure: S, queue: Q) -> Board<S, Q>
        ensures opened { Opened S.means Q.means queue result }
        ensures past { Q.means.sound queue → Past S.means Q.means result [] }
        ensures booked { Q.means.sound queue → AsBooked S.means Q.means result [] }
        ensures listed { ListedAlways Q.means }
    {
        let mut board = Board {
            structure,
            queue,
            clock: Instant::start(),
            total: 0,
            capacity: 0,
        };
        board.open();
        board
    }

    /// Takes all vessels out, drops every ticket, sets the clock and the total to 0, and asks the queue how many
    /// ticket numbers it has. It never refuses.
    pub fn open(&mut self)
        ensures adds { Adds S.means Q.means self.old (plain_event Open (Accepted 0)) self.new }
        ensures past { Q.means.sound self.old.queue → Past S.means Q.means self.new [] }
        ensures booked { Q.means.sound self.old.queue → AsBooked S.means Q.means self.new [] }
        ensures listed { ListedAlways Q.means }
    {
        self.structure.clear();
        clear(&mut self.queue);
        self.clock = Instant::start();
        self.total = 0;
        self.capacity = self.queue.capacity();
    }

    /// A vessel enters at a position in centimetres, at a speed in centimetres a second.
    ///
    /// Refused where the number is 0 (1), the position is above 100,000,000 or the speed above 1,000 in size (2),
    /// the clock has a fraction (3), the vessel is aboard already (4), 64 vessels are (5), or the queue's capacity
    /// was below 64 when the board was opened (10).
    pub fn enter(&mut self, number: u16, position: i32, speed: i16) -> Result<(), Refusal>
        ensures adds { Adds S.means Q.means self.old
            (plain_event (Enter number position speed) (done result)) self.new }
        ensures listed { ListedAlways Q.means }
    {
        let course = self.entering(number, position, speed)?;
        let Ok(named) = self.structure.enter(course, self.clock.stamp()) else {
            unreachable!()
        };
        renew_all(&self.structure, &mut self.queue, named.as_slice());
        Ok(())
    }

    /// A vessel leaves.
    ///
    /// Refused where the number is 0 (1), the clock has a fraction (3), or the vessel is not aboard (6).
    pub fn leave(&mut self, number: u16) -> Result<(), Refusal>
        ensures adds { Adds S.means Q.means self.old
            (plain_event (Leave number) (done result)) self.new }
        ensures listed { ListedAlways Q.means }
    {
        self.leaving(number)?;
        let Ok(named) = self.structure.leave(number, self.clock.stamp()) else {
            unreachable!()
        };
        renew_all(&self.structure, &mut self.queue, named.as_slice());
        Ok(())
    }

    /// A vessel takes another speed, in centimetres a second, from the position that it has.
    ///
    /// Refused where the number is 0 (1), the speed is above 1,000 or the base that the vessel would have above
    /// 33,654,432,000 in size (2), the clock has a fraction (3), or the vessel is not aboard (6).
    pub fn steer(&mut self, number: u16, speed: i16) -> Result<(), Refusal>
        ensures adds { Adds S.means Q.means self.old
            (plain_event (Steer number speed) (done result)) self.new }
        ensures listed { ListedAlways Q.means }
    {
        let course = self.steering(number, speed)?;
        let Ok(named) = self.structure.steer(course, self.clock.stamp()) else {
            unreachable!()
        };
        renew_all(&self.structure, &mut self.queue, named.as_slice());
        Ok(())
    }

    /// Advances the clock to an instant, given as seconds and a fraction of a second, in lowest terms or not: mends in
    /// order of instants what is due up to it, writes a row for each mend, and answers how many there were.
    ///
    /// Refused where the numbers are no instant of the clock (7), the instant is earlier than the clock (8), or
    /// there are fewer rows than the load (9).
    pub fn advance(
        &mut self,
        seconds: u64,
        numerator: u16,
        denominator: u16,
        rows: &mut [Row],
    ) -> Result<usize, Refusal>
        ensures adds { Adds S.means Q.means self.old
            (rows_event (Advance seconds numerator denominator) (advanced result) rows.new) self.new }
        ensures written { Written (mends_of (advanced result)) rows.old rows.new }
        ensures listed { ListedAlways Q.means }
    {
        let to = self.advancing(seconds, numerator, denominator, rows.len())?;
        let limit = limit_of(to);
        let count = mend_until(&mut self.structure, &mut self.queue, limit, rows);
        self.clock = to;
        self.total = self.total.saturating_add(count as u64);
        Ok(count)
    }
}
