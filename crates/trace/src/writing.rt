ghost use Rattle.std.specs.Prelude.{◌≡◌, ◌++◌, OnOk, OnErr, IfOk};
ghost use Rattle.trace.specs.Layout.{bytes_of, trace_of};

use crate::records::Record;
use std::alloc::{AllocError, Global};

// Writes a record behind a trace. Where memory is wanting, the trace stays as it was.
pub fn write_record(record: Record, trace: &mut Vec<u8>) -> Result<(), AllocError>
    ensures ok { OnOk result (trace.new.items ≡ trace.old.items ++ bytes_of «record») }
    ensures err { OnErr result (trace.new.items ≡ trace.old.items) }
{
    match record {
        Record::Enter {
            number,
            position,
            speed,
        } => {
            let [n1, n0] = number.to_be_bytes();
            let [p3, p2, p1, p0] = position.to_be_bytes();
            let [s1, s0] = speed.to_be_bytes();
            trace.extend_from_slice(&[b'E', n1, n0, p3, p2, p1, p0, s1, s0])
        }
        Record::Leave { number } => {
            let [n1, n0] = number.to_be_bytes();
            trace.extend_from_slice(&[b'L', n1, n0])
        }
        Record::Steer { number, speed } => {
            let [n1, n0] = number.to_be_bytes();
            let [s1, s0] = speed.to_be_bytes();
            trace.extend_from_slice(&[b'S', n1, n0, s1, s0])
        }
        Record::Advance {
            seconds,
            numerator,
            denominator,
        } => {
            let [t3, t2, t1, t0] = seconds.to_be_bytes();
            let [n1, n0] = numerator.to_be_bytes();
            let [d1, d0] = denominator.to_be_bytes();
            trace.extend_from_slice(&[b'A', t3, t2, t1, t0, n1, n0, d1, d0])
        }
        Record::Order => trace.extend_from_slice(b"Q"),
        Record::End => trace.extend_from_slice(b"Z"),
    }
}

// The trace of some records.
pub fn write_trace(heap: Global, records: &[Record]) -> Result<Vec<u8>, AllocError>
    ensures { IfOk result (λ trace. trace.items ≡ trace_of records.now) }
{
    let mut trace = Vec::from_slice(heap, b"FWT\x00\x01")?;
    for record in records {
        write_record(*record, &mut trace)?;
    }
    Ok(trace)
}
