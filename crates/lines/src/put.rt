// Parts of a line, each put onto the page so that it ends where the part behind it begins: a line is written from
// its end, since the digits of a number come out that way, and the vessels stand so too.
ghost use Rattle.std.specs.Prelude.{◌≤◌, length, decimal};
ghost use Rattle.lines.specs.Puts.{RoomBefore, Put};

use itoa::write_digits;

/// Puts bytes before `end`, and answers where they start.
pub fn put_text(text: &[u8], page: &mut [u8], end: usize) -> usize
    requires { RoomBefore text.now page.old end }
    ensures { Put text.now page.old page.new end result }
{
    let start = end - text.len();
    page[start..end].copy_from_slice(text);
    start
}

/// Puts a number in decimal before `end`, and answers where it starts.
pub fn put_number(number: u64, page: &mut [u8], end: usize) -> usize
    requires { RoomBefore (decimal number) page.old end }
    ensures { Put (decimal number) page.old page.new end result }
{
    write_digits(number, page, end)
}
