ghost use Rattle.std.specs.Prelude.{◌≡◌};
ghost use Rattle.board.specs.Boards.{refusal};
ghost use Rattle.board.specs.Checks.{EnterChecked, LeaveChecked, SteerChecked, AdvanceChecked};

use crate::board::Board;
use crate::call::Call;
use crate::courses::{at_speed, course_at, is_position_out, is_speed_out};
use crate::refusal::Refusal;
use crate::tickets::Ticket;
use event_queue::queue::Queue;
use fairway::course::Course;
use fairway::instant::Instant;
use kinetic::limits::is_out_of_range;
use kinetic::structure::Structure;

// How many vessels can be aboard.
const MOST_VESSELS: usize = 64;

// How many ticket numbers a queue has that has one for each certificate of so many vessels.
const LEAST_CAPACITY: usize = 64;

impl<S: Structure + Drop, Q: Queue<Key = Ticket> + Drop> Board<S, Q> {
    // Checks an entry, and hands on the course of the vessel that enters.
    #[inline(always)]
    pub(crate) fn entering(&self, number: u16, position: i32, speed: i16) -> Result<Course, Refusal>
        ensures { EnterChecked S.means Q.means self.now number position speed result }
    {
        if number == 0 {
            return Err(Refusal::NumberZero);
        }
        if is_position_out(position) || is_speed_out(speed) {
            return Err(Refusal::OutOfRange);
        }
        if self.clock.numerator() != 0 {
            return Err(Refusal::ClockHasFraction);
        }
        if self.structure.course(number).is_some() {
            return Err(Refusal::AlreadyAboard);
        }
        if self.structure.count() >= MOST_VESSELS {
            return Err(Refusal::Full);
        }
        if self.capacity < LEAST_CAPACITY {
            return Err(Refusal::SmallQueue);
        }
        Ok(course_at(number, position, speed, self.clock.seconds()))
    }

    // Checks a departure.
    #[inline(always)]
    pub(crate) fn leaving(&self, number: u16) -> Result<(), Refusal>
        ensures { LeaveChecked S.means Q.means self.now number result }
    {
        if number == 0 {
            return Err(Refusal::NumberZero);
        }
        if self.clock.numerator() != 0 {
            return Err(Refusal::ClockHasFraction);
        }
        if self.structure.course(number).is_none() {
            return Err(Refusal::UnknownVessel);
        }
        Ok(())
    }

    // Checks a change of speed, and hands on the course that the vessel has from the clock on.
    #[inline(always)]
    pub(crate) fn steering(&self, number: u16, speed: i16) -> Result<Course, Refusal>
        ensures { SteerChecked S.means Q.means self.now number speed result }
    {
        if number == 0 {
            return Err(Refusal::NumberZero);
        }
        let steered = match self.structure.course(number) {
            Some(course) => Some(at_speed(course, speed, self.clock.seconds())),
            None => None,
        };
        let is_out = match steered {
            Some(course) => is_out_of_range(course),
            None => is_speed_out(speed),
        };
        match steered {
            _ if is_out => Err(Refusal::OutOfRange),
            _ if self.clock.numerator() != 0 => Err(Refusal::ClockHasFraction),
            Some(course) => Ok(course),
            None => Err(Refusal::UnknownVessel),
        }
    }

    // Checks an advance that is lent so many rows, and hands on the instant.
    #[inline(always)]
    pub(crate) fn advancing(
        &self,
        seconds: u64,
        numerator: u16,
        denominator: u16,
        lent: usize,
    ) -> Result<Instant, Refusal>
        ensures { AdvanceChecked S.means Q.means self.now
            seconds numerator denominator lent result }
    {
        let to = Instant::new(seconds, numerator, denominator)?;
        if to.stamp().is_earlier(&self.clock.stamp()) {
            return Err(Refusal::Early);
        }
        if lent < self.structure.load() {
            return Err(Refusal::FewRows);
        }
        Ok(to)
    }

    /// Why a call that is lent so many rows would be refused, or none where it would be accepted: the topmost line of the
    /// call's table that holds. No call but an advance looks at the rows.
    pub fn refusal(&self, call: Call, lent: usize) -> Option<Refusal>
        ensures { result ≡ refusal S.means Q.means self.now call lent }
    {
        match call {
            Call::Open => None,
            Call::Enter {
                number,
                position,
                speed,
            } => self.entering(number, position, speed).err(),
            Call::Leave { number } => self.leaving(number).err(),
            Call::Steer { number, speed } => self.steering(number, speed).err(),
            Call::Advance {
                seconds,
                numerator,
                denominator,
            } => self.advancing(seconds, numerator, denominator, lent).err(),
        }
    }
}
