ghost use Rattle.std.specs.Prelude.{[], ◌≡◌, ℕ, ◌+◌, ◌<◌, ◌≤◌, true, false, IfOk, Some, None, vec_len};
ghost use Rattle.std.specs.List.{remove, insert, swap};
ghost use Rattle.fairway.specs.Stamps.{time_of};
ghost use Rattle.fairway.specs.Courses.{InRange, faster};
ghost use Rattle.fairway.specs.Orders.{put};
ghost use Rattle.fairway.specs.Rosters.{course_of};
ghost use Rattle.kinetic.specs.Structures.{Cleared};
ghost use Rattle.sorted_list.specs.Questions.{means, courses_of};
ghost use Rattle.sorted_list.specs.Places.{entry_place};
ghost use Rattle.sorted_list.specs.Rosters.{certificate_at};

use crate::list::{MOST_VESSELS, SortedList};
use crate::places::{crossings, crossings_of_each, place_for};
use fairway::course::Course;
use fairway::stamp::Stamp;
use std::alloc::{AllocError, Global};

impl SortedList {
    /// A list without vessels, with room for 64: no later call asks for memory.
    pub fn new(heap: Global) -> Result<SortedList, AllocError>
        ensures cleared { IfOk result (Cleared means) }
        ensures empty { IfOk result (λ list. courses_of list ≡ []) }
    {
        let courses = Vec::with_capacity(heap, MOST_VESSELS)?;
        Ok(SortedList { courses, load: 0 })
    }

    // Exchanges a vessel, which is faster, with the next.
    pub(crate) fn exchange(&mut self, place: usize)
        requires within { place + 1 < vec_len self.old.courses }
        requires faster { (r f : Course) →
            certificate_at self.old.courses.items place ≡ Some (r, f) →
            faster r f ≡ true }
        ensures { self.new.courses.items ≡ swap self.old.courses.items place (place + 1) }
    {
        self.courses.swap(place, place + 1);
        self.load -= 1;
    }

    // Takes out the vessel at a place.
    pub(crate) fn take_out(&mut self, place: usize)
        requires { place < vec_len self.old.courses }
        ensures { self.new.courses.items ≡ remove self.old.courses.items place }
    {
        let gone = self.courses.remove(place);
        let fewer = crossings(self.courses.as_slice(), place, gone);
        self.load -= fewer;
    }

    // Puts another course of the vessel at a place into that place.
    pub(crate) fn replace(&mut self, place: usize, course: Course)
        requires within { place < vec_len self.old.courses }
        requires fits { course.number < 65536 }
        requires range { InRange course }
        requires new { course_of (remove self.old.courses.items place) course.number ≡ None }
        ensures { self.new.courses.items ≡
            insert (remove self.old.courses.items place) place course }
    {
        let old = self.courses[place];
        let (lost, gained) = crossings_of_each(self.courses.as_slice(), place, old, course);
        self.courses[place] = course;
        self.load = self.load - lost + gained;
    }

    // Puts a new vessel in its place, and answers the place.
    pub(crate) fn put_in(&mut self, course: Course, at: Stamp) -> usize
        requires room { vec_len self.old.courses < 64 }
        requires fits { course.number < 65536 }
        requires range { InRange course }
        requires new { course_of self.old.courses.items course.number ≡ None }
        ensures first { result ≡ entry_place (time_of at) course self.old.courses.items }
        ensures within { result ≤ vec_len self.old.courses }
        ensures placed { self.new.courses.items ≡ insert self.old.courses.items result course }
        ensures sorted { self.new.courses.items ≡ put (time_of at) course self.old.courses.items }
    {
        let place = place_for(self.courses.as_slice(), course, at);
        let more = crossings(self.courses.as_slice(), place, course);
        let _ = self.courses.insert(place, course);
        self.load += more;
        place
    }
}
