ghost use Rattle.std.specs.Prelude.{Some, None};
ghost use Rattle.fairway.specs.Stamps.{time_of};
ghost use Rattle.kinetic.specs.Structures.{Entered, Left, Steered, Mended};
ghost use Rattle.tournament.specs.Means.{tournament_meaning};
ghost use Rattle.tournament.specs.Questions.{means, EntryPlays, VesselPlays};
ghost use Rattle.tournament.specs.Questions.{MendPlays, MendLowers};
ghost use Rattle.tournament.specs.Laws;
ghost use Rattle.tournament.specs.LoadsLemmas.{load_bounded};
ghost use Rattle.tournament.specs.LoadedLemmas as Loaded;

use crate::loads;
use crate::matches::{Match, play_above};
use crate::places::{count_taken, free_place, place_of};
use crate::tournament::{MATCHES, Tournament};
use fairway::course::Course;
use fairway::stamp::Stamp;
use kinetic::limits::{check, is_certificate_due};
use kinetic::numbers::Numbers;
use kinetic::refusal::Refusal;
use kinetic::structure::Structure;

/// The tournament as a kinetic structure. The certificate of a number is of the two of that match,
/// the loser as rear and the winner as front. `enter`, `leave` and `steer` write one place and play
/// the match of that place and those above it, six in all; a mend plays the match of the certificate
/// and those above it. Each answers the numbers of these matches, from below up to the final, and
/// leaves every other node as it was. A call is refused by the tables of the interface, and then
/// changes nothing. `course` and `count` look at all 64 places, `load` at all matches with all
/// beneath them.
impl Structure for Tournament {
    ghost means = { tournament_meaning (λ s. s.nodes) };

    ghost ordered = { λ t s pt standing i rear front e. standing i rear front e };

    ghost leads = { λ t s pt rests. Laws.front s.nodes s.sized s.sound s.drawn t rests.0 rests.1 };

    ghost lasting = { λ t u s pt pu l st n. Laws.lasts s.nodes t u pt pu l st n };

    ghost loaded = { λ t s pt st i r f e d.
        Loaded.loaded s.nodes s.sized s.drawn t i r f e d };

    ghost certified = { λ s i r f e. Laws.certified s.nodes s.sized s.sound s.drawn i r f e };

    ghost listed = { λ s n c e. Laws.listed s.nodes s.sound n c e };

    ghost counted = { λ s. Laws.counted s.nodes s.sound };

    ghost bounded = { λ s. (Laws.few s.nodes s.sized, load_bounded s.nodes) };

    fn clear(&mut self) {
        *self = Tournament::new();
    }

    fn enter(&mut self, course: Course, at: Stamp) -> Result<Numbers, Refusal>
        ensures entered { Entered means (time_of at) self.old self.new course result }
        ensures plays { EntryPlays (time_of at) self.old self.new course result }
    {
        check(course)?;
        if place_of(self.places(), course.number).is_some() {
            return Err(Refusal::AlreadyAboard);
        }
        let Some(free) = free_place(self.places()) else {
            return Err(Refusal::Full);
        };
        Ok(self.put(free, Some(course), at))
    }

    fn leave(&mut self, number: u16, at: Stamp) -> Result<Numbers, Refusal>
        ensures left { Left means (time_of at) self.old self.new number result }
        ensures plays { VesselPlays (time_of at) self.old self.new number None result }
    {
        let place = self.place(number)?;
        Ok(self.put(place, None, at))
    }

    fn steer(&mut self, course: Course, at: Stamp) -> Result<Numbers, Refusal>
        ensures steered { Steered means (time_of at) self.old self.new course result }
        ensures plays { VesselPlays (time_of at) self.old self.new
            course.number (Some course) result }
    {
        check(course)?;
        let place = self.place(course.number)?;
        Ok(self.put(place, Some(course), at))
    }

    fn mend(&mut self, certificate: usize, at: Stamp) -> Result<Numbers, Refusal>
        ensures mended { Mended means (time_of at) self.old self.new certificate result }
        ensures plays { MendPlays (time_of at) self.old self.new certificate result }
        ensures falls { MendLowers (time_of at) self.old self.new certificate result }
    {
        if !is_certificate_due(self.certificate(certificate), at) {
            return Err(Refusal::NotDue);
        }
        Ok(play_above(&mut self.nodes, 2 * certificate + 1, at))
    }

    fn certificate(&self, number: usize) -> Option<(Course, Course)> {
        if number >= MATCHES {
            return None;
        }
        Match::of(&self.nodes, number).certificate(self.nodes[number])
    }

    fn course(&self, number: u16) -> Option<Course> {
        let place = place_of(self.places(), number)?;
        self.nodes[MATCHES + place]
    }

    fn count(&self) -> usize {
        count_taken(self.places())
    }

    fn load(&self) -> usize {
        loads::load(&self.nodes)
    }

    fn foremost(&self) -> Option<u16> {
        self.nodes[0].map(|winner| winner.number)
    }
}
