ghost use Rattle.std.specs.Prelude.{◌≡◌, []};
ghost use Rattle.fairway.specs.Orders as fair;
ghost use Rattle.fairway.specs.Stamps.{time_of};
ghost use Rattle.kinetic.specs.Structures.{Cleared, Entered, Left, Steered, Mended};
ghost use Rattle.sorted_list.specs.Means.{list_meaning};
ghost use Rattle.sorted_list.specs.ListAfter.{EntryPuts, LeaveTakes, SteerMoves, MendSwaps};
ghost use Rattle.sorted_list.specs.Questions.{means, courses_of};
ghost use Rattle.sorted_list.specs.Laws;
ghost use Rattle.sorted_list.specs.Laws.{rests_sorted, front, lasts};
ghost use Rattle.sorted_list.specs.ListStructureLemmas.{few};
ghost use Rattle.sorted_list.specs.LoadsLemmas.{load_bounded};

use crate::list::{MOST_VESSELS, SortedList};
use crate::places::{keeps_place, numbers_from, place_of};
use fairway::course::Course;
use fairway::stamp::Stamp;
use kinetic::limits::{check, is_certificate_due};
use kinetic::numbers::Numbers;
use kinetic::refusal::Refusal;
use kinetic::structure::Structure;

/// The sorted list as a kinetic structure: the certificate of a number is of the vessel at that place and
/// the next, and a mend exchanges the two.
impl Structure for SortedList {
    ghost means = { list_meaning (λ s. s.courses.items) };

    ghost ordered = { λ t s p st i r f e. Laws.ordered s.courses.items t st i r f e };

    ghost leads = { λ t s p h.
        let xs = s.courses.items in
        front t xs s.sound (rests_sorted xs t h.0 h.1) };

    ghost lasting = { λ t u s pt pu l st n. lasts s.courses.items t u pt pu l st n };

    ghost loaded = { λ t s p st i r f e d. Laws.loaded t s.courses.items i r f e d };

    ghost certified = { λ s i r f e. Laws.certified s.courses.items (few s) s.sound i r f e };

    ghost listed = { λ s n c e. Laws.listed s.courses.items s.sound n c e };

    ghost counted = { λ s. Laws.counted s.courses.items s.sound };

    ghost bounded = { λ s. (few s, load_bounded s.courses.items (few s)) };

    fn clear(&mut self)
        ensures cleared { Cleared means self.new }
        ensures empty { courses_of self.new ≡ [] }
    {
        self.courses.clear();
        self.load = 0;
    }

    fn enter(&mut self, course: Course, at: Stamp) -> Result<Numbers, Refusal>
        ensures entered { Entered means (time_of at) self.old self.new course result }
        ensures puts { EntryPuts (time_of at) self.old self.new course result }
    {
        check(course)?;
        if place_of(self.courses.as_slice(), course.number).is_some() {
            return Err(Refusal::AlreadyAboard);
        }
        let count = self.courses.len();
        if count >= MOST_VESSELS {
            return Err(Refusal::Full);
        }
        let place = self.put_in(course, at);
        Ok(numbers_from(place, count))
    }

    fn leave(&mut self, number: u16, at: Stamp) -> Result<Numbers, Refusal>
        ensures left { Left means (time_of at) self.old self.new number result }
        ensures takes { LeaveTakes self.old self.new number result }
    {
        let place = self.place(number)?;
        self.take_out(place);
        Ok(numbers_from(place, self.courses.len()))
    }

    fn steer(&mut self, course: Course, at: Stamp) -> Result<Numbers, Refusal>
        ensures steered { Steered means (time_of at) self.old self.new course result }
        ensures moves { SteerMoves (time_of at) self.old self.new course result }
    {
        check(course)?;
        let old = self.place(course.number)?;
        if keeps_place(self.courses.as_slice(), old, course, at) {
            self.replace(old, course);
            return Ok(numbers_from(old, old + 1));
        }
        self.take_out(old);
        let new = self.put_in(course, at);
        Ok(numbers_from(old.min(new), old.max(new) + 1))
    }

    fn mend(&mut self, certificate: usize, at: Stamp) -> Result<Numbers, Refusal>
        ensures mended { Mended means (time_of at) self.old self.new certificate result }
        ensures swaps { MendSwaps self.old self.new certificate result }
    {
        if !is_certificate_due(self.certificate(certificate), at) {
            return Err(Refusal::NotDue);
        }
        self.exchange(certificate);
        Ok(numbers_from(certificate, certificate + 2))
    }

    fn certificate(&self, number: usize) -> Option<(Course, Course)> {
        let rear = self.courses.get(number)?;
        let front = self.courses.get(number + 1)?;
        Some((*rear, *front))
    }

    fn course(&self, number: u16) -> Option<Course> {
        let place = place_of(self.courses.as_slice(), number)?;
        Some(self.courses[place])
    }

    fn count(&self) -> usize {
        self.courses.len()
    }

    fn load(&self) -> usize
        ensures { result ≡ fair.load (courses_of self.now) }
    {
        self.load
    }

    fn foremost(&self) -> Option<u16> {
        self.courses.last().map(|course| course.number)
    }
}
