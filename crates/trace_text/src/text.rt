ghost use Rattle.std.specs.Prelude.{◌≡◌, List, IfOk, string_bytes};
ghost use Rattle.std.specs.List.{AllByRecursion};
ghost use Rattle.trace.specs.declared.records.Record.{Record};
ghost use Rattle.trace.specs.Layout.{FieldsFit};
ghost use Rattle.trace_text.specs.declared.text.TextError.TheVariants.{Memory};
ghost use Rattle.trace_text.specs.Text.{text_of, Answers, Reads};

use crate::line::{read_line, write_line};
use std::alloc::{AllocError, AllocFailed, Global};
use trace::records::Record;

// Why a text was not read: memory was wanting, or the line of this number, from 1, is none of a record.
#[derive(Clone, Copy, PartialEq, Eq, Debug)]
pub enum TextError {
    Memory,
    Unreadable(usize),
}

impl<T: Drop> From<AllocFailed<T>> for TextError {
    ghost from_gives = { λ _ e. e ≡ Memory };

    fn from(_e: AllocFailed<T>) -> TextError {
        TextError::Memory
    }
}

// The records that a text is of.
pub fn read_text(heap: Global, text: &[u8]) -> Result<Vec<Record>, TextError>
    // Only the text of the records is read as them.
    ensures answer { Answers text.now result }
    // That text is read.
    ensures again { (records : List Record) → AllByRecursion FieldsFit records → text.now ≡ text_of records → Reads result records }
{
    let mut records = Vec::new(heap);
    let mut rest = text;
    while !rest.is_empty() {
        let Some((record, after)) = read_line(rest) else {
            return Err(TextError::Unreadable(records.len() + 1));
        };
        records.push(record)?;
        rest = after;
    }
    Ok(records)
}

// The text of some records.
pub fn write_text(heap: Global, records: &[Record]) -> Result<String, AllocError>
    ensures { IfOk result (λ text. string_bytes text ≡ text_of records.now) }
{
    let mut text = String::new(heap);
    for record in records {
        write_line(*record, &mut text)?;
    }
    Ok(text)
}
