ghost use Rattle.std.specs.Prelude.{◌≡◌, ◌++◌, Some, None, MatchOption, OnOk, string_bytes};
ghost use Rattle.trace_text.specs.Text.{whole_line};
ghost use Rattle.trace_text.specs.Parsing.{enter_of, steer_of, advance_of, named, record_of, line_at};

use crate::words::{cut, i16_of, i32_of, u16_of, u32_of};
use std::alloc::AllocError;
use trace::records::Record;

// The record that these fields are of: a number, a position and a speed.
fn enter(fields: &[u8]) -> Option<Record>
    ensures { result ≡ enter_of fields.now }
{
    let (number, rest) = cut(fields, b' ')?;
    let (position, speed) = cut(rest, b' ')?;
    Some(Record::Enter {
        number: u16_of(number)?,
        position: i32_of(position)?,
        speed: i16_of(speed)?,
    })
}

// A number and a speed.
fn steer(fields: &[u8]) -> Option<Record>
    ensures { result ≡ steer_of fields.now }
{
    let (number, speed) = cut(fields, b' ')?;
    Some(Record::Steer {
        number: u16_of(number)?,
        speed: i16_of(speed)?,
    })
}

// Whole seconds and a fraction.
fn advance(fields: &[u8]) -> Option<Record>
    ensures { result ≡ advance_of fields.now }
{
    let (seconds, fraction) = cut(fields, b' ')?;
    let (numerator, denominator) = cut(fraction, b'/')?;
    Some(Record::Advance {
        seconds: u32_of(seconds)?,
        numerator: u16_of(numerator)?,
        denominator: u16_of(denominator)?,
    })
}

// The record of a line without its line feed.
fn record_of(line: &[u8]) -> Option<Record>
    ensures { result ≡ record_of line.now }
{
    if line == b"order".as_slice() {
        return Some(Record::Order);
    }
    if line == b"end".as_slice() {
        return Some(Record::End);
    }
    let (name, fields) = cut(line, b' ')?;
    if name == b"enter".as_slice() {
        enter(fields)
    } else if name == b"leave".as_slice() {
        let number = u16_of(fields)?;
        Some(Record::Leave { number })
    } else if name == b"steer".as_slice() {
        steer(fields)
    } else if name == b"advance".as_slice() {
        advance(fields)
    } else {
        None
    }
}

// The record whose line a text begins with, and the text after that line.
pub fn read_line(text: &[u8]) -> Option<(Record, &[u8])>
    ensures { MatchOption result (line_at text.now ≡ None) (λ read. line_at text.now ≡ Some (read.0, read.1.now)) }
{
    let (line, rest) = cut(text, b'\n')?;
    Some((record_of(line)?, rest))
}

// Writes the line of a record behind a text.
pub fn write_line(record: Record, text: &mut String) -> Result<(), AllocError>
    ensures { OnOk result (string_bytes text.new ≡ string_bytes text.old ++ whole_line «record») }
{
    match record {
        Record::Enter {
            number,
            position,
            speed,
        } => writeln!(text, "enter {number} {position} {speed}"),
        Record::Leave { number } => writeln!(text, "leave {number}"),
        Record::Steer { number, speed } => writeln!(text, "steer {number} {speed}"),
        Record::Advance {
            seconds,
            numerator,
            denominator,
        } => writeln!(text, "advance {seconds} {numerator}/{denominator}"),
        Record::Order => writeln!(text, "order"),
        Record::End => writeln!(text, "end"),
    }
}
