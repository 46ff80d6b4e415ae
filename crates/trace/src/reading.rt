ghost use Rattle.std.specs.Prelude.{◌≡◌, Ok, Err, MatchResult};
ghost use Rattle.std.specs.Int.{w16, w32, from_be_bytes, cast_signed};
ghost use Rattle.trace.specs.declared.records.Record.TheVariants.{Enter, Steer, Advance};
ghost use Rattle.trace.specs.Layout.{ReadsAsWritten, read_header, read_record};

use crate::fault::Fault;
use crate::records::Record;

// The bytes after a trace's header, or the header's topmost fault.
pub fn read_header(trace: &[u8]) -> Result<&[u8], Fault>
    ensures { MatchResult result (λ rest. read_header trace.now ≡ Ok rest.now) (λ fault. read_header trace.now ≡ Err fault) }
{
    match trace {
        [b'F', b'W', b'T', 0, 1, rest @ ..] => Ok(rest),
        [b'F', b'W', b'T', _, _, ..] => Err(Fault::BadVersion),
        [_, _, _, _, _, ..] => Err(Fault::BadMark),
        _ => Err(Fault::Short),
    }
}

// A vessel enters, by the bytes of its number, its position and its speed.
fn enter(number: [u8; 2], position: [u8; 4], speed: [u8; 2]) -> Record
    ensures { result ≡ Enter (from_be_bytes w16 number) (cast_signed w32 (from_be_bytes w32 position)) (cast_signed w16 (from_be_bytes w16 speed)) }
{
    Record::Enter {
        number: u16::from_be_bytes(number),
        position: i32::from_be_bytes(position),
        speed: i16::from_be_bytes(speed),
    }
}

// A vessel goes on with another speed, by the bytes of its number and of the speed.
fn steer(number: [u8; 2], speed: [u8; 2]) -> Record
    ensures { result ≡ Steer (from_be_bytes w16 number) (cast_signed w16 (from_be_bytes w16 speed)) }
{
    Record::Steer {
        number: u16::from_be_bytes(number),
        speed: i16::from_be_bytes(speed),
    }
}

// Time goes on, by the bytes of the whole seconds, the numerator and the denominator.
fn advance(seconds: [u8; 4], numerator: [u8; 2], denominator: [u8; 2]) -> Record
    ensures { result ≡ Advance (from_be_bytes w32 seconds) (from_be_bytes w16 numerator) (from_be_bytes w16 denominator) }
{
    Record::Advance {
        seconds: u32::from_be_bytes(seconds),
        numerator: u16::from_be_bytes(numerator),
        denominator: u16::from_be_bytes(denominator),
    }
}

// The record that some bytes begin with, and the bytes after it; or the fault that stands in its place.
#[tactic(auto, using(crate::proofs::Layouts::reads_as_written))]
pub fn read_record(bytes: &[u8]) -> Result<(Record, &[u8]), Fault>
    ensures exact { MatchResult result (λ taken. read_record bytes.now ≡ Ok (taken.0, taken.1.now)) (λ fault. read_record bytes.now ≡ Err fault) }
    ensures both_ways { ReadsAsWritten bytes.now }
{
    match bytes {
        [b'E', n1, n0, p3, p2, p1, p0, s1, s0, rest @ ..] => {
            Ok((enter([*n1, *n0], [*p3, *p2, *p1, *p0], [*s1, *s0]), rest))
        }
        [b'L', n1, n0, rest @ ..] => {
            let number = u16::from_be_bytes([*n1, *n0]);
            Ok((Record::Leave { number }, rest))
        }
        [b'S', n1, n0, s1, s0, rest @ ..] => Ok((steer([*n1, *n0], [*s1, *s0]), rest)),
        [b'A', t3, t2, t1, t0, n1, n0, d1, d0, rest @ ..] => {
            let seconds = [*t3, *t2, *t1, *t0];
            Ok((advance(seconds, [*n1, *n0], [*d1, *d0]), rest))
        }
        [b'Q', rest @ ..] => Ok((Record::Order, rest)),
        [b'Z', rest @ ..] => Ok((Record::End, rest)),
        [] | [b'E' | b'L' | b'S' | b'A', ..] => Err(Fault::Short),
        [_, ..] => Err(Fault::UnknownKind),
    }
}
