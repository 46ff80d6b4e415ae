ghost use Rattle.std.specs.Prelude.{◌≡◌, length};
ghost use Rattle.tournament.specs.Places.{Sound, Sound-prop};
ghost use Rattle.tournament.specs.Matches.{aboard, AllDrawn};

use fairway::course::Course;

// How many vessels there is room for, a place for each.
pub(crate) const PLACES: usize = 64;

// How many matches there are, one fewer than places. They are the first nodes, and the places
// those behind them.
pub(crate) const MATCHES: usize = 63;

// How many nodes there are.
pub(crate) const NODES: usize = MATCHES + PLACES;

/// A kinetic tournament of at most 64 vessels: 64 places, and 63 matches in six rounds. It answers
/// who is foremost, and a change plays six matches, however many vessels are aboard. It asks for no
/// memory.
///
/// Node 0 is the final, the match i is between the nodes 2 i + 1 and 2 i + 2, and the nodes 63 to
/// 126 are the places. The node of a place holds a vessel's course or none, and that of a match the
/// course of its winner or none.
#[derive(Drop)]
pub struct Tournament {
    pub(crate) nodes: [Option<Course>; NODES],
    ghost sized: { length nodes ≡ 127 },
    ghost sound: { Sound (aboard nodes) } by { Sound-prop (aboard nodes) },
    ghost drawn: { AllDrawn nodes },
}
