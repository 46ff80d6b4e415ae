ghost use Rattle.std.specs.Prelude.{◌≡◌, List, Ok, Err};
ghost use Rattle.trace.specs.declared.whole.ReadError.TheVariants.{Memory, Stopped};
ghost use Rattle.trace.specs.Layout.{trace_of};
ghost use Rattle.trace.specs.Walks.{decode, DecodesAsWritten};
ghost use Rattle.trace.specs.Whole.{Gives};

use crate::fault::Stop;
use crate::reader::Reader;
use crate::records::Record;
use std::alloc::{AllocError, AllocFailed, Global};

// Why a whole trace was not read: memory was wanting, or the trace stops.
#[derive(Clone, Copy, PartialEq, Eq, Debug)]
pub enum ReadError {
    Memory,
    Stopped(Stop),
}

impl From<Stop> for ReadError {
    ghost from_gives = { λ stop e. e ≡ Stopped stop };

    fn from(stop: Stop) -> ReadError {
        ReadError::Stopped(stop)
    }
}

impl<T: Drop> From<AllocFailed<T>> for ReadError {
    ghost from_gives = { λ _ e. e ≡ Memory };

    fn from(_e: AllocFailed<T>) -> ReadError {
        ReadError::Memory
    }
}

// The records of a whole trace.
#[tactic(auto, using(crate::proofs::Decoding::decodes_as_written))]
pub fn read_trace(heap: Global, trace: &[u8]) -> Result<Vec<Record>, ReadError>
    ensures exact { Gives result (decode trace.now) }
    ensures both_ways { DecodesAsWritten trace.now }
{
    let mut reader = Reader::new(trace)?;
    let mut records = Vec::new(heap);
    while let Some(step) = reader.next() {
        let (_, record) = step?;
        records.push(record)?;
    }
    Ok(records)
}
