ghost use Rattle.std.specs.Prelude.{◌≡◌, ◌*◌, ◌≤◌, length};
ghost use Rattle.lines.specs.Lines.{vessel_texts, from_front};
ghost use Rattle.lines.specs.Puts.{RoomBefore, Put};

use crate::digits::digit_count;
use crate::put::{put_number, put_text};
use fairway::course::Course;

/// How many bytes the vessels' numbers have, each with its blank.
pub fn vessels_length(courses: &[Course]) -> usize
    ensures value { result ≡ length (vessel_texts (from_front courses.now)) }
    ensures short { result ≤ 21 * length courses.now }
{
    let mut length = 0;
    for course in courses {
        length += 1 + digit_count(u64::from(course.number));
    }
    length
}

/// Puts the vessels' numbers before `end`, each with its blank, the foremost first, and answers where they start.
pub fn put_vessels(courses: &[Course], page: &mut [u8], end: usize) -> usize
    requires { RoomBefore (vessel_texts (from_front courses.now)) page.old end }
    ensures { Put (vessel_texts (from_front courses.now)) page.old page.new end result }
{
    let mut start = end;
    for course in courses {
        let number = put_number(u64::from(course.number), page, start);
        start = put_text(b" ", page, number);
    }
    start
}
