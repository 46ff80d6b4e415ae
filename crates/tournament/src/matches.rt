ghost use Rattle.std.specs.Prelude.{◌≡◌, ◌+◌, ◌*◌, ◌<◌, length};
ghost use Rattle.fairway.specs.Stamps.{time_of};
ghost use Rattle.tournament.specs.Matches.{is_same, second_wins, winner, is_second};
ghost use Rattle.tournament.specs.Matches.{certificate_of, node_at};
ghost use Rattle.tournament.specs.Rounds.{DrawnBut, PlayedAbove, NamedAbove};

use fairway::course::Course;
use fairway::stamp::Stamp;
use kinetic::numbers::Numbers;

// The two of a match; one or both may be missing.
#[derive(Clone, Copy)]
pub(crate) struct Match {
    pub(crate) first: Option<Course>,
    pub(crate) second: Option<Course>,
}

// Whether the two are one course.
#[tactic(auto, unfolding(crate::specs::Matches::is_same))]
fn is_same(one: Course, other: Course) -> bool
    ensures { result ≡ is_same one other }
{
    one == other
}

impl Match {
    // The two of the match of a number.
    pub(crate) fn of(nodes: &[Option<Course>], number: usize) -> Match
        requires sized { length nodes.now ≡ 127 }
        requires within { number < 63 }
        ensures first { result.first ≡ node_at nodes.now (2 * number + 1) }
        ensures second { result.second ≡ node_at nodes.now (2 * number + 2) }
    {
        Match {
            first: nodes[2 * number + 1],
            second: nodes[2 * number + 2],
        }
    }

    // Whether the second wins: it is there, and the first is behind it.
    fn second_wins(self, at: Stamp) -> bool
        ensures { result ≡ second_wins (time_of at) self.first self.second }
    {
        match (self.first, self.second) {
            (Some(first), Some(second)) => first.is_behind(second, at),
            _ => false,
        }
    }

    // The winner, given whether the second wins; one alone wins.
    fn winner(self, second_wins: bool) -> Option<Course>
        ensures { result ≡ winner second_wins self.first self.second }
    {
        match (self.first, self.second) {
            (None, second) => second,
            (first, None) => first,
            (first, second) => if second_wins { second } else { first },
        }
    }

    // Whether the winner is the second.
    fn is_won_by_second(self, winner: Option<Course>) -> bool
        ensures { result ≡ is_second winner self.second }
    {
        match (winner, self.second) {
            (Some(winner), Some(second)) => is_same(winner, second),
            _ => false,
        }
    }

    // The certificate, given the winner: the loser as rear and the winner as front, where there are
    // two.
    pub(crate) fn certificate(self, winner: Option<Course>) -> Option<(Course, Course)>
        ensures { result ≡ certificate_of (is_second winner self.second) self.first self.second }
    {
        let (first, second) = (self.first?, self.second?);
        if self.is_won_by_second(winner) {
            Some((first, second))
        } else {
            Some((second, first))
        }
    }
}

// Plays the matches above a node, one a round up to the final, and answers their numbers.
pub(crate) fn play_above(nodes: &mut [Option<Course>], from: usize, at: Stamp) -> Numbers
    requires sized { length nodes.old ≡ 127 }
    requires within { from < 127 }
    requires drawn { DrawnBut from nodes.old }
    ensures played { PlayedAbove (time_of at) from nodes.old nodes.new result }
    ensures named { NamedAbove from result }
{
    let mut numbers = Numbers::new();
    let mut node = from;
    while node > 0 {
        node = (node - 1) / 2;
        let two = Match::of(nodes, node);
        nodes[node] = two.winner(two.second_wins(at));
        numbers.push(node as u8);
    }
    numbers
}
