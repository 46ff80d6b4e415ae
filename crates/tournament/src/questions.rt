ghost use Rattle.std.specs.Prelude.{◌≡◌, drop, length};
ghost use Rattle.tournament.specs.Questions.{Placed};

use crate::places::place_of;
use crate::tournament::{MATCHES, Tournament};
use fairway::course::Course;
use kinetic::refusal::Refusal;

impl Tournament {
    // The places, in their order.
    pub(crate) fn places(&self) -> &[Option<Course>]
        ensures value { result.now ≡ drop 63 self.now.nodes }
        ensures many { length result.now ≡ 64 }
    {
        &self.nodes[MATCHES..]
    }

    // The place of a vessel, or why a question on it is refused.
    pub(crate) fn place(&self, number: u16) -> Result<usize, Refusal>
        ensures { Placed self.now number result }
    {
        if number == 0 {
            return Err(Refusal::NumberZero);
        }
        place_of(self.places(), number).ok_or(Refusal::UnknownVessel)
    }
}
