ghost use Rattle.std.specs.Prelude.{◌≡◌, ◌+◌, ◌<◌, ◌≤◌, length};
ghost use Rattle.tournament.specs.Loads as loads;
ghost use Rattle.tournament.specs.Loads.{faster_beneath};

use crate::tournament::MATCHES;
use fairway::course::Course;

// How many vessels in the places beneath a node are faster than a winner.
fn count_faster(nodes: &[Option<Course>], node: usize, winner: Course) -> usize
    requires sized { length nodes.now ≡ 127 }
    requires within { node < 127 }
    ensures count { result ≡ faster_beneath nodes.now node winner }
    ensures few { result ≤ 64 }
{
    if node < MATCHES {
        return count_faster(nodes, 2 * node + 1, winner)
            + count_faster(nodes, 2 * node + 2, winner);
    }
    usize::from(nodes[node].is_some_and(|vessel| vessel.is_faster(winner)))
}

// The load of a match: how many vessels drawn beneath it are faster than its winner.
fn match_load(nodes: &[Option<Course>], number: usize) -> usize
    requires sized { length nodes.now ≡ 127 }
    requires within { number < 63 }
    ensures count { result ≡ loads.match_load nodes.now number }
    ensures few { result ≤ 64 }
{
    match nodes[number] {
        Some(winner) => count_faster(nodes, number, winner),
        None => 0,
    }
}

// The load of all matches.
pub(crate) fn load(nodes: &[Option<Course>]) -> usize
    requires { length nodes.now ≡ 127 }
    ensures { result ≡ loads.load nodes.now }
{
    (0..MATCHES).map(|number| match_load(nodes, number)).sum()
}
