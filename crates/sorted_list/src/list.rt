ghost use Rattle.std.specs.Prelude.{◌≡◌, ℕ, ◌≤◌, true, vec_len, vec_capacity};
ghost use Rattle.fairway.specs.Orders as fair;
ghost use Rattle.sorted_list.specs.Rosters.{well};

use fairway::course::Course;

// How many vessels a list has room for.
pub(crate) const MOST_VESSELS: usize = 64;

/// A kinetic sorted list: the courses from rear to front, and how many pairs, neighbours or not, have a
/// faster rear.
#[derive(Drop)]
pub struct SortedList {
    pub(crate) courses: Vec<Course>,
    pub(crate) load: usize,
    ghost few: { vec_len courses ≤ 64 },
    ghost room: { 64 ≤ vec_capacity courses },
    ghost sound: { well courses.items ≡ true },
    ghost counted: { load ≡ fair.load courses.items },
}
