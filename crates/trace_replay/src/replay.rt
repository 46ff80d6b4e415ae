ghost use Rattle.std.specs.Prelude.{length};
ghost use Rattle.trace.specs.Layout.{read_header};
ghost use Rattle.trace_replay.specs.ByBook.{Tells, told_trace};
ghost use Rattle.trace_replay.specs.Replays.{Replays};

use crate::fault::Fault;
use crate::record::{make_step, trace_fault};
use board::board::Board;
use board::call::Row;
use board::tickets::Ticket;
use event_queue::queue::Queue;
use sorted_list::list::SortedList;
use trace::reader::Reader;

/// Replays a trace: opens the board and does the records in turn, each advance with the rows from the first on.
/// An order record's line is written on the page behind those before it. Answers how many bytes of the page
/// are written, or the fault that stands at the earliest place; what earlier records did stays.
pub fn replay<Q: Queue<Key = Ticket> + Drop>(
    trace: &[u8],
    board: &mut Board<SortedList, Q>,
    rows: &mut [Row],
    page: &mut [u8],
) -> Result<usize, Fault>
    ensures replays { Replays Q.means (length page.old) (read_header trace.now)
        board.old board.new rows.old rows.new page.old page.new result }
    ensures by_book { Q.means.sound board.old.queue →
        Tells
        (told_trace (Q.means.capacity board.old.queue) (length rows.old) (length page.old) trace.now)
        page.old page.new result }
{
    let mut reader = Reader::new(trace).map_err(|stop| trace_fault(stop, 0))?;
    board.open();
    let mut written = 0;
    while let Some(step) = reader.next() {
        written = make_step(step, board, rows, page, written)?;
    }
    Ok(written)
}
