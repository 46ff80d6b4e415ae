ghost use Rattle.std.specs.Prelude.{◌≡◌, ◌≤◌, length};
ghost use Rattle.fairway.specs.Instants.{stamp_of};
ghost use Rattle.lines.specs.Lines.{from_front, order_line, Lined};
ghost use Rattle.lines.specs.Puts.{RoomBefore, Put};

use crate::instants::{instant_length, put_instant};
use crate::put::put_text;
use crate::refusal::NoRoom;
use crate::vessels::{put_vessels, vessels_length};
use fairway::course::Course;
use fairway::instant::Instant;

// How many bytes an order line has.
fn order_length(at: Instant, courses: &[Course]) -> usize
    ensures { result ≡ length (order_line (stamp_of at) (from_front courses.now)) }
{
    instant_length(at) + 1 + vessels_length(courses) + 1
}

// Puts an order line before `end`, and answers where it starts.
fn put_order_line(at: Instant, courses: &[Course], page: &mut [u8], end: usize) -> usize
    requires { RoomBefore (order_line (stamp_of at) (from_front courses.now)) page.old end }
    ensures { Put (order_line (stamp_of at) (from_front courses.now)) page.old page.new end result }
{
    let end = put_text(b"\n", page, end);
    let end = put_vessels(courses, page, end);
    let end = put_text(b":", page, end);
    put_instant(at, page, end)
}

/// Writes the line of an order onto the front of the page: an instant, and the vessels from the front. The courses
/// stand from rear to front. It answers how many bytes the line has.
pub fn write_order_line(at: Instant, courses: &[Course], page: &mut [u8]) -> Result<usize, NoRoom>
    ensures { Lined (order_line (stamp_of at) (from_front courses.now)) page.old page.new result }
{
    let length = order_length(at, courses);
    if page.len() < length {
        return Err(NoRoom);
    }
    put_order_line(at, courses, page, length);
    Ok(length)
}
