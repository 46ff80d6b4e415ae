ghost use Rattle.std.specs.Prelude.{MatchResult, string_bytes};
ghost use Rattle.trace_text.specs.Converting.{Match, TextStops, TraceStops};

use crate::text::{TextError, read_text, write_text};
use std::alloc::Global;
use trace::whole::{ReadError, read_trace};
use trace::writing::write_trace;

// The trace of the records that a text is of.
pub fn trace_of_text(heap: Global, text: &[u8]) -> Result<Vec<u8>, TextError>
    ensures { MatchResult result (λ trace. Match text.now trace.items) (λ e. TextStops text.now e) }
{
    let records = read_text(heap, text)?;
    match write_trace(heap, records.as_slice()) {
        Ok(trace) => Ok(trace),
        Err(_) => Err(TextError::Memory),
    }
}

// The text of the records of a trace.
pub fn text_of_trace(heap: Global, trace: &[u8]) -> Result<String, ReadError>
    ensures { MatchResult result (λ text. Match (string_bytes text) trace.now) (λ e. TraceStops trace.now e) }
{
    let records = read_trace(heap, trace)?;
    match write_text(heap, records.as_slice()) {
        Ok(text) => Ok(text),
        Err(_) => Err(ReadError::Memory),
    }
}
