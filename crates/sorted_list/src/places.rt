ghost use Rattle.std.specs.Prelude.{◌≡◌, ℕ, ◌+◌, ◌<◌, ◌≤◌, length};
ghost use Rattle.std.specs.Bool.{Decides};
ghost use Rattle.std.specs.List.{remove};
ghost use Rattle.fairway.specs.Stamps.{time_of};
ghost use Rattle.fairway.specs.Orders.{faster_than, slower_than};
ghost use Rattle.sorted_list.specs.Loads.{crossed};
ghost use Rattle.sorted_list.specs.Places.{place_in, NoneBefore, entry_place, Between, named_from};

use fairway::course::Course;
use fairway::stamp::Stamp;
use kinetic::numbers::Numbers;

// How many of the courses are faster than a front. At most 64 are counted, in 16 bits like the speeds, so that eight
// are compared at a time.
fn count_faster(courses: &[Course], front: Course) -> u16
    requires { length courses.now ≤ 64 }
    ensures count { result ≡ faster_than front courses.now }
    ensures few { result ≤ 64 }
{
    let mut count: u16 = 0;
    for rear in courses {
        count += u16::from(rear.is_faster(front));
    }
    count
}

// How many of the courses are slower than a rear.
fn count_slower(courses: &[Course], rear: Course) -> u16
    requires { length courses.now ≤ 64 }
    ensures count { result ≡ slower_than rear courses.now }
    ensures few { result ≤ 64 }
{
    let mut count: u16 = 0;
    for front in courses {
        count += u16::from(rear.is_faster(*front));
    }
    count
}

// How many of the courses are faster than a front with one course, and with another. Two counts in one loop look at
// each speed once.
fn count_faster_than_each(courses: &[Course], one: Course, other: Course) -> (u16, u16)
    requires { length courses.now ≤ 64 }
    ensures one { result.0 ≡ faster_than one courses.now }
    ensures other { result.1 ≡ faster_than other courses.now }
    ensures few { (result.0 ≤ 64) × (result.1 ≤ 64) }
{
    let mut of_one: u16 = 0;
    let mut of_other: u16 = 0;
    for rear in courses {
        of_one += u16::from(rear.is_faster(one));
        of_other += u16::from(rear.is_faster(other));
    }
    (of_one, of_other)
}

// How many of the courses are slower than a rear with one course, and with another.
fn count_slower_than_each(courses: &[Course], one: Course, other: Course) -> (u16, u16)
    requires { length courses.now ≤ 64 }
    ensures one { result.0 ≡ slower_than one courses.now }
    ensures other { result.1 ≡ slower_than other courses.now }
    ensures few { (result.0 ≤ 64) × (result.1 ≤ 64) }
{
    let mut of_one: u16 = 0;
    let mut of_other: u16 = 0;
    for front in courses {
        of_one += u16::from(one.is_faster(*front));
        of_other += u16::from(other.is_faster(*front));
    }
    (of_one, of_other)
}

// The pairs with a faster rear that a vessel makes with the others, from its place, with one course and with another.
pub(crate) fn crossings_of_each(
    courses: &[Course],
    place: usize,
    one: Course,
    other: Course,
) -> (usize, usize)
    requires { (place < length courses.now) × (length courses.now ≤ 64) }
    ensures one { result.0 ≡ crossed (remove courses.now place) place one }
    ensures other { result.1 ≡ crossed (remove courses.now place) place other }
    ensures few { (result.0 ≤ 128) × (result.1 ≤ 128) }
{
    let rears = count_faster_than_each(&courses[..place], one, other);
    let fronts = count_slower_than_each(&courses[place + 1..], one, other);
    (
        usize::from(rears.0 + fronts.0),
        usize::from(rears.1 + fronts.1),
    )
}

// The pairs with a faster rear that a course makes with those before and after its place.
pub(crate) fn crossings(courses: &[Course], place: usize, course: Course) -> usize
    requires { (place ≤ length courses.now) × (length courses.now ≤ 64) }
    ensures count { result ≡ crossed courses.now place course }
    ensures few { result ≤ 128 }
{
    usize::from(count_faster(&courses[..place], course) + count_slower(&courses[place..], course))
}

// The place of the vessel with a number, or none, where those before the start have other numbers.
fn place_from(courses: &[Course], start: usize, number: u16) -> Option<usize>
    requires within { start ≤ length courses.now }
    requires others { NoneBefore courses.now start number }
    ensures { result ≡ place_in number courses.now }
{
    let mut place = start;
    for course in &courses[start..] {
        if course.number == number {
            return Some(place);
        }
        place += 1;
    }
    None
}

/// The place, counted from 0 at the rear, of the vessel with a number, or none.
// Each turn looks at four: a loop over one takes more instructions to count and to end than to compare.
#[inline(never)]
pub fn place_of(courses: &[Course], number: u16) -> Option<usize>
    ensures { result ≡ place_in number courses.now }
{
    let mut place = 0;
    while place + 4 <= courses.len() {
        if courses[place].number == number {
            return Some(place);
        }
        if courses[place + 1].number == number {
            return Some(place + 1);
        }
        if courses[place + 2].number == number {
            return Some(place + 2);
        }
        if courses[place + 3].number == number {
            return Some(place + 3);
        }
        place += 4;
    }
    place_from(courses, place, number)
}

/// The place for a course: that of the first vessel, from the rear, that it is behind, or in front of all.
// It looks from one end, since while something is due the list need not be in order, and then a search by halves
// finds any place.
pub fn place_for(courses: &[Course], course: Course, at: Stamp) -> usize
    ensures within { result ≤ length courses.now }
    ensures first { result ≡ entry_place (time_of at) course courses.now }
{
    courses
        .iter()
        .position(|other| course.is_behind(*other, at))
        .unwrap_or(courses.len())
}

// Whether a course stands right at a place in the stead of the one there: in front of the vessel before it, and behind
// the one after it.
pub(crate) fn keeps_place(courses: &[Course], place: usize, course: Course, at: Stamp) -> bool
    requires { place < length courses.now }
    ensures { Decides result (Between (time_of at) courses.now place course) }
{
    if place > 0 && !courses[place - 1].is_behind(course, at) {
        return false;
    }
    place + 1 == courses.len() || course.is_behind(courses[place + 1], at)
}

// The certificate numbers from the one before a place on, below an end. They are pushed one by one: an
// `Extend` of `Numbers` would be this loop, for this one caller.
pub(crate) fn numbers_from(place: usize, end: usize) -> Numbers
    requires { end ≤ 64 }
    ensures { result ≡ named_from place end }
{
    let mut numbers = Numbers::new();
    let first = place.saturating_sub(1);
    for number in first..end {
        numbers.push(number as u8);
    }
    numbers
}
