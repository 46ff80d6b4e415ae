ghost use Rattle.std.specs.Prelude.{◌≡◌, ◌≤◌, length};
ghost use Rattle.fairway.specs.Stamps.{time_of};
ghost use Rattle.fairway.specs.Orders.{slower_than, turned_by};
ghost use Rattle.fairway.specs.Lists.{LoadCount, SortedAnswer, TurnedCount, FirstDuePlace, StandsUntil, MendAnswer};

use crate::course::Course;
use crate::pair::Pair;
use crate::stamp::Stamp;

/// How many of the courses are slower than the rear.
pub fn count_slower(courses: &[Course], rear: Course) -> usize
    ensures count { result ≡ slower_than rear courses.now }
    ensures few { result ≤ length courses.now }
{
    courses
        .iter()
        .map(|front| usize::from(rear.is_faster(*front)))
        .sum()
}

/// The load of a list from rear to front: how many pairs, the one that comes first as rear, have a faster rear.
pub fn load(courses: &[Course]) -> u128
    ensures { LoadCount courses.now result }
{
    let mut total: u128 = 0;
    let mut rest = courses;
    while let [rear, fronts @ ..] = rest {
        total += count_slower(fronts, *rear) as u128;
        rest = fronts;
    }
    total
}

// How many of the courses an advance turns as the front of the rear.
fn count_turned(courses: &[Course], rear: Course, from: Stamp, to: Stamp) -> usize
    ensures count { result ≡ turned_by (time_of from) (time_of to) rear courses.now }
    ensures few { result ≤ length courses.now }
{
    courses
        .iter()
        .map(|front| usize::from(Pair::new(rear, *front).is_turned(from, to)))
        .sum()
}

/// How many pairs of a roster an advance turns: the one that is behind at its beginning is in front at its end.
pub fn turned_pairs(courses: &[Course], from: Stamp, to: Stamp) -> u128
    ensures { TurnedCount (time_of from) (time_of to) courses.now result }
{
    courses
        .iter()
        .map(|rear| count_turned(courses, *rear, from, to) as u128)
        .sum()
}

/// Whether a list is in order from rear to front.
pub fn is_sorted(courses: &[Course], at: Stamp) -> bool
    ensures { SortedAnswer (time_of at) courses.now result }
{
    courses.is_sorted_by(|rear, front| rear.is_behind(*front, at))
}

/// The place of the first course that is due to pass the next one, or none.
pub fn first_due(courses: &[Course], at: Stamp) -> Option<usize>
    ensures { FirstDuePlace (time_of at) courses.now result }
{
    courses
        .windows(2)
        .position(|two| Pair::new(two[0], two[1]).is_due(at))
}

/// Whether no neighbours draw level before a stamp.
pub fn stands_until(courses: &[Course], at: Stamp) -> bool
    ensures { StandsUntil (time_of at) courses.now result }
{
    !courses
        .windows(2)
        .any(|two| Pair::new(two[0], two[1]).is_past(at))
}

/// Exchanges the course at a place and the next one if they are due, and answers whether they were. A place with no
/// next one answers false, and nothing changes.
pub fn mend(courses: &mut [Course], place: usize, at: Stamp) -> bool
    ensures { MendAnswer (time_of at) courses.old courses.new place result }
{
    let [rear, front, ..] = courses.get(place..).unwrap_or(&[]) else {
        return false;
    };
    if !Pair::new(*rear, *front).is_due(at) {
        return false;
    }
    courses.swap(place, place + 1);
    true
}
