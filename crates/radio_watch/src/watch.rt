ghost use Rattle.std.specs.Prelude.{◌≡◌, List, IfOk, OnErr, string_bytes};
ghost use Rattle.call_sheet.specs.declared.call.Event.{Event};
ghost use Rattle.call_sheet.specs.History.{LedTo};
ghost use Rattle.radio_watch.specs.Watch.{Reported, NoneOrAllDone};

use crate::entry::{Entry, Unreadable};
use crate::journal::keep;
use crate::report::report;
use crate::script::read_script;
use call_sheet::sheet::CallSheet;
use event_queue::queue::Queue;
use std::alloc::{AllocError, Global};

// A line of a journal in which nothing is written yet. The lines of a script are numbered from 1.
const NOTHING_WRITTEN: Entry = Err(Unreadable { number: 0 });

/// Does what a script asks for on the sheet, line by line, and answers the report on it. Where memory is wanting, nothing
/// of what the script asks for is done, or all of it.
pub fn stand_watch<Q: Queue<Key = u32>>(
    heap: Global,
    sheet: &mut CallSheet<Q>,
    script: &[u8],
) -> Result<String, AllocError>
    ensures report { IfOk result (λ text. (log : List Event) → LedTo Q.means log sheet.old.queue
        → Reported Q.means log script.now sheet.new.queue (string_bytes text)) }
    ensures wanting { OnErr result
        (NoneOrAllDone Q.means script.now sheet.old.queue sheet.new.queue) }
    ensures sound { Q.means.sound sheet.old.queue → Q.means.sound sheet.new.queue }
    ensures capacity { Q.means.sound sheet.old.queue
        → Q.means.capacity sheet.new.queue ≡ Q.means.capacity sheet.old.queue }
    ensures keeps { Q.means.keeps sheet.old.queue sheet.new.queue }
{
    let items = read_script(heap, script)?;
    let mut journal = vec![in heap; NOTHING_WRITTEN; items.len()]?;
    keep(sheet, items.as_slice(), journal.as_mut_slice());
    report(heap, journal.as_slice())
}
