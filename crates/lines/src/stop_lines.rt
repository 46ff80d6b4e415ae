ghost use Rattle.std.specs.Prelude.{◌≡◌, ◌≤◌, length};
ghost use Rattle.lines.specs.Lines.{stop_line, Lined};
ghost use Rattle.lines.specs.Puts.{RoomBefore, Put};

use crate::digits::digit_count;
use crate::put::{put_number, put_text};
use crate::refusal::NoRoom;

// How many bytes a stop line has.
fn stop_length(number: u8, place: usize) -> usize
    ensures { result ≡ length (stop_line number place) }
{
    b"stop ".len() + digit_count(u64::from(number)) + b" at ".len() + digit_count(place as u64) + 1
}

// Puts a stop line before `end`, and answers where it starts.
fn put_stop_line(number: u8, place: usize, page: &mut [u8], end: usize) -> usize
    requires { RoomBefore (stop_line number place) page.old end }
    ensures { Put (stop_line number place) page.old page.new end result }
{
    let end = put_text(b"\n", page, end);
    let end = put_number(place as u64, page, end);
    let end = put_text(b" at ", page, end);
    let end = put_number(u64::from(number), page, end);
    put_text(b"stop ", page, end)
}

/// Writes the line of a stop onto the front of the page: a fault's number and the place of it. It answers how many
/// bytes the line has.
pub fn write_stop_line(number: u8, place: usize, page: &mut [u8]) -> Result<usize, NoRoom>
    ensures { Lined (stop_line number place) page.old page.new result }
{
    let length = stop_length(number, place);
    if page.len() < length {
        return Err(NoRoom);
    }
    put_stop_line(number, place, page, length);
    Ok(length)
}
