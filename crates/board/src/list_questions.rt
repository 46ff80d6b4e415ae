ghost use Rattle.std.specs.Prelude.{◌≡◌};
ghost use Rattle.fairway.specs.Instants.{value};
ghost use Rattle.board.specs.ListQuestions.{VesselAnswer, OrderAnswer, RankAnswer, PositionAnswer, NeighbourAnswer, position_of, gap_of, neighbour};
ghost use Rattle.board.specs.declared.list.Side.TheVariants.{Ahead, Behind};

use crate::board::Board;
use crate::list::{Length, Neighbour, Side};
use crate::refusal::Refusal;
use crate::tickets::Ticket;
use event_queue::queue::Queue;
use fairway::course::Course;
use fairway::instant::Instant;
use kinetic::structure::Structure;
use sorted_list::list::SortedList;

// A vessel's position at an instant.
fn position_of(course: Course, at: Instant) -> Length
    ensures { result ≡ position_of (value at) course }
{
    Length {
        parts: course.position(at),
        denominator: at.denominator(),
    }
}

// The front vessel's position at an instant less the rear's.
fn gap_of(rear: Course, front: Course, at: Instant) -> Length
    ensures { result ≡ gap_of (value at) rear front }
{
    Length {
        parts: front.position(at) - rear.position(at),
        denominator: at.denominator(),
    }
}

// The vessel next on a side of a vessel, if there is one, as its neighbour.
fn neighbour(side: Side, own: Course, next: Option<Course>, at: Instant) -> Option<Neighbour>
    ensures { result ≡ neighbour side (value at) own next }
{
    let next = next?;
    let gap = match side {
        Side::Ahead => gap_of(own, next, at),
        Side::Behind => gap_of(next, own, at),
    };
    Some(Neighbour {
        number: next.number,
        gap,
    })
}

// Each question on a vessel finds it first. The list refuses no question on a vessel aboard: each `unreachable!` is proved.
impl<Q: Queue<Key = Ticket> + Drop> Board<SortedList, Q> {
    // The course of a vessel aboard.
    fn vessel(&self, number: u16) -> Result<Course, Refusal>
        ensures { VesselAnswer Q.means self.now number result }
    {
        if number == 0 {
            return Err(Refusal::NumberZero);
        }
        self.structure.course(number).ok_or(Refusal::UnknownVessel)
    }

    /// The courses from rear to front.
    pub fn order(&self) -> &[Course]
        ensures { OrderAnswer Q.means self.now result.now }
    {
        self.structure.courses()
    }

    /// The rank of a vessel: one more than the number of vessels in front of it.
    ///
    /// Refused where the number is 0 (1) or the vessel is not aboard (6).
    pub fn rank(&self, number: u16) -> Result<usize, Refusal>
        ensures { RankAnswer Q.means self.now number result }
    {
        self.vessel(number)?;
        let Ok(rank) = self.structure.rank(number, self.clock.stamp()) else {
            unreachable!()
        };
        Ok(rank)
    }

    /// The position of a vessel at the clock.
    ///
    /// Refused where the number is 0 (1) or the vessel is not aboard (6).
    pub fn position(&self, number: u16) -> Result<Length, Refusal>
        ensures { PositionAnswer Q.means self.now number result }
    {
        let own = self.vessel(number)?;
        Ok(position_of(own, self.clock))
    }

    /// The vessel next in front of a vessel, and the gap between the two; or none.
    ///
    /// Refused where the number is 0 (1) or the vessel is not aboard (6).
    pub fn ahead(&self, number: u16) -> Result<Option<Neighbour>, Refusal>
        ensures { NeighbourAnswer Q.means self.now Ahead number result }
    {
        let own = self.vessel(number)?;
        let Ok(front) = self.structure.ahead(number) else {
            unreachable!()
        };
        Ok(neighbour(Side::Ahead, own, front, self.clock))
    }

    /// The vessel next behind a vessel, and the gap between the two; or none.
    ///
    /// Refused where the number is 0 (1) or the vessel is not aboard (6).
    pub fn behind(&self, number: u16) -> Result<Option<Neighbour>, Refusal>
        ensures { NeighbourAnswer Q.means self.now Behind number result }
    {
        let own = self.vessel(number)?;
        let Ok(rear) = self.structure.astern(number) else {
            unreachable!()
        };
        Ok(neighbour(Side::Behind, own, rear, self.clock))
    }
}
