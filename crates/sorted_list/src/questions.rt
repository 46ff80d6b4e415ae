ghost use Rattle.std.specs.Prelude.{◌≡◌};
ghost use Rattle.fairway.specs.Stamps.{time_of};
ghost use Rattle.sorted_list.specs.Questions.{CoursesAnswer, PlaceAnswer, Ranked, Ahead, Astern};

use crate::list::SortedList;
use crate::places::place_of;
use fairway::course::Course;
use fairway::stamp::Stamp;
use kinetic::refusal::Refusal;

impl SortedList {
    /// The courses from rear to front.
    pub fn courses(&self) -> &[Course]
        ensures { CoursesAnswer self.now result.now }
    {
        self.courses.as_slice()
    }

    // The place of a vessel, counted from 0 at the rear, or why a question on it is refused.
    pub(crate) fn place(&self, number: u16) -> Result<usize, Refusal>
        ensures { PlaceAnswer self.now number result }
    {
        if number == 0 {
            return Err(Refusal::NumberZero);
        }
        place_of(self.courses.as_slice(), number).ok_or(Refusal::UnknownVessel)
    }

    /// The rank of a vessel at an instant: one more than the number of vessels in front of it, whatever the list's
    /// state. Refused with 1 and 6.
    pub fn rank(&self, number: u16, at: Stamp) -> Result<usize, Refusal>
        ensures { Ranked (time_of at) self.now number result }
    {
        let place = self.place(number)?;
        let own = self.courses[place];
        let courses = self.courses.as_slice();
        let mut count = 0;
        for other in courses {
            if own.is_behind(*other, at) {
                count += 1;
            }
        }
        Ok(count + 1)
    }

    /// The vessel that stands next in front of a vessel, or none. Refused with 1 and 6.
    pub fn ahead(&self, number: u16) -> Result<Option<Course>, Refusal>
        ensures { Ahead self.now number result }
    {
        let place = self.place(number)?;
        Ok(self.courses.get(place + 1).copied())
    }

    /// The vessel that stands next behind a vessel, or none. Refused with 1 and 6.
    pub fn astern(&self, number: u16) -> Result<Option<Course>, Refusal>
        ensures { Astern self.now number result }
    {
        let place = self.place(number)?;
        Ok(self.courses[..place].last().copied())
    }
}
