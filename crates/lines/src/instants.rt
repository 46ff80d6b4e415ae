ghost use Rattle.std.specs.Prelude.{◌≡◌, ◌≤◌, length};
ghost use Rattle.fairway.specs.Instants.{stamp_of};
ghost use Rattle.lines.specs.Lines.{fraction_text, instant_text};
ghost use Rattle.lines.specs.Puts.{RoomBefore, Put};

use crate::digits::digit_count;
use crate::put::{put_number, put_text};
use fairway::instant::Instant;

/// How many bytes the text of an instant has.
pub fn instant_length(at: Instant) -> usize
    ensures value { result ≡ length (instant_text (stamp_of at)) }
    ensures short { result ≤ 62 }
{
    let seconds = digit_count(at.seconds());
    if at.numerator() == 0 {
        return seconds;
    }
    let numerator = digit_count(u64::from(at.numerator()));
    let denominator = digit_count(u64::from(at.denominator()));
    seconds + 1 + numerator + 1 + denominator
}

/// Puts the text of an instant before `end`, and answers where it starts.
pub fn put_instant(at: Instant, page: &mut [u8], end: usize) -> usize
    requires { RoomBefore (instant_text (stamp_of at)) page.old end }
    ensures { Put (instant_text (stamp_of at)) page.old page.new end result }
{
    let end = put_fraction(at, page, end);
    put_number(at.seconds(), page, end)
}

// Puts the fraction of an instant with its blank before `end`, or nothing where the instant is whole, and answers
// where it starts.
fn put_fraction(at: Instant, page: &mut [u8], end: usize) -> usize
    requires { RoomBefore (fraction_text (stamp_of at)) page.old end }
    ensures { Put (fraction_text (stamp_of at)) page.old page.new end result }
{
    if at.numerator() == 0 {
        return end;
    }
    let end = put_number(u64::from(at.denominator()), page, end);
    let end = put_text(b"/", page, end);
    let end = put_number(u64::from(at.numerator()), page, end);
    put_text(b" ", page, end)
}
