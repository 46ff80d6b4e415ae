ghost use Rattle.std.specs.Prelude.{◌≡◌, length};
ghost use Rattle.tournament.specs.Places.{taken, PlaceOf, FreePlace};

use fairway::course::Course;

// The place of the vessel with a number, or none.
pub(crate) fn place_of(places: &[Option<Course>], number: u16) -> Option<usize>
    ensures { PlaceOf places.now number result }
{
    places.iter().position(|place| place.is_some_and(|vessel| vessel.number == number))
}

// A free place, or none where all are taken.
pub(crate) fn free_place(places: &[Option<Course>]) -> Option<usize>
    ensures { FreePlace places.now result }
{
    places.iter().position(|place| place.is_none())
}

// How many places are taken.
pub(crate) fn count_taken(places: &[Option<Course>]) -> usize
    ensures { result ≡ length (taken places.now) }
{
    places.iter().filter(|place| place.is_some()).count()
}
