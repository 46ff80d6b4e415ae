ghost use Rattle.std.specs.Prelude.{◌<◌, drop, slice_set};
ghost use Rattle.fairway.specs.Stamps.{time_of};
ghost use Rattle.kinetic.specs.Structures.{Cleared};
ghost use Rattle.tournament.specs.Places.{taken, Sound};
ghost use Rattle.tournament.specs.Loads.{AllBeneath};
ghost use Rattle.tournament.specs.Rounds.{Put};
ghost use Rattle.tournament.specs.Questions.{means};

use crate::matches::play_above;
use crate::tournament::{MATCHES, NODES, Tournament};
use fairway::course::Course;
use fairway::stamp::Stamp;
use kinetic::numbers::Numbers;

impl Tournament {
    /// A tournament without vessels, at the cost of clearing its 127 nodes. Of every tournament its
    /// contract says that all vessels aboard are beneath the final (`AllBeneath`).
    pub fn new() -> Tournament
        ensures cleared { Cleared means result }
        ensures beneath { AllBeneath }
    {
        Tournament {
            nodes: [None; NODES],
        }
    }

    // Puts a course in a place, or empties it, plays the matches above it, and answers their
    // numbers.
    pub(crate) fn put(&mut self, place: usize, entrant: Option<Course>, at: Stamp) -> Numbers
        requires within { place < 64 }
        requires sound { Sound (taken (slice_set (drop 63 self.old.nodes) place entrant)) }
        ensures { Put (time_of at) place entrant self.old.nodes self.new.nodes result }
    {
        self.nodes[MATCHES + place] = entrant;
        play_above(&mut self.nodes, MATCHES + place, at)
    }
}
