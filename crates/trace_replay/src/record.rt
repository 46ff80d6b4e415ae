ghost use Rattle.std.specs.Prelude.{◌≡◌, ◌≤◌, length};
ghost use Rattle.trace_replay.specs.Calls.{call_of};
ghost use Rattle.trace_replay.specs.Replays.{line_of};
ghost use Rattle.trace_replay.specs.ByBook.{stopped};
ghost use Rattle.trace_replay.specs.Steps.{LineDone, RecordDone, StepDone};
ghost use Rattle.trace_replay.specs.declared.fault.Cause.TheVariants.{Trace};

use crate::fault::{Cause, Fault};
use board::board::Board;
use board::call::{Call, Outcome, Row};
use board::tickets::Ticket;
use event_queue::queue::Queue;
use lines::order_lines::write_order_line;
use sorted_list::list::SortedList;
use trace::fault::Stop;
use trace::reader::Step;
use trace::records::Record;

/// The call that a record records, or none for an order line and the end record.
pub fn call_of(record: Record) -> Option<Call>
    ensures { result ≡ call_of «record» }
{
    match record {
        Record::Enter {
            number,
            position,
            speed,
        } => Some(Call::Enter {
            number,
            position,
            speed,
        }),
        Record::Leave { number } => Some(Call::Leave { number }),
        Record::Steer { number, speed } => Some(Call::Steer { number, speed }),
        Record::Advance {
            seconds,
            numerator,
            denominator,
        } => Some(Call::Advance {
            seconds: u64::from(seconds),
            numerator,
            denominator,
        }),
        Record::Order | Record::End => None,
    }
}

// Writes the order line of a board behind what is written of a page, and answers how much is written then.
fn write_line<Q: Queue<Key = Ticket> + Drop>(
    board: &Board<SortedList, Q>,
    page: &mut [u8],
    written: usize,
) -> Result<usize, Cause>
    requires { written ≤ length page.old }
    ensures { LineDone (line_of board.now) page.old page.new written result }
{
    let count = write_order_line(board.clock(), board.order(), &mut page[written..])?;
    Ok(written + count)
}

// A fault of the trace, with so many bytes of the page written.
pub fn trace_fault(stop: Stop, written: usize) -> Fault
    ensures { result ≡ stopped (Trace stop.fault) written stop.place }
{
    Fault {
        cause: Cause::Trace(stop.fault),
        written,
        place: stop.place,
    }
}

// Does a record, an advance with the rows from the first on, and answers how much of the page is written then.
fn do_record<Q: Queue<Key = Ticket> + Drop>(
    record: Record,
    board: &mut Board<SortedList, Q>,
    rows: &mut [Row],
    page: &mut [u8],
    written: usize,
) -> Result<usize, Cause>
    requires { written ≤ length page.old }
    ensures { RecordDone Q.means board.old board.new rows.old rows.new page.old page.new written
        result «record» (call_of «record») }
{
    if let Some(call) = call_of(record) {
        return match board.perform(call, rows) {
            Outcome::Accepted { .. } => Ok(written),
            Outcome::Refused { .. } => Err(Cause::Refused),
        };
    }
    match record {
        Record::Order => write_line(board, page, written),
        _ => Ok(written),
    }
}

// Makes a step of a walk through a trace, and answers how much of the page is written then, or why the replay stops.
pub fn make_step<Q: Queue<Key = Ticket> + Drop>(
    step: Step,
    board: &mut Board<SortedList, Q>,
    rows: &mut [Row],
    page: &mut [u8],
    written: usize,
) -> Result<usize, Fault>
    requires { written ≤ length page.old }
    ensures { StepDone Q.means board.old board.new rows.old rows.new page.old page.new written
        result step }
{
    match step {
        Ok((place, record)) => {
            do_record(record, board, rows, page, written).map_err(|cause| Fault {
                cause,
                written,
                place,
            })
        }
        Err(stop) => Err(trace_fault(stop, written)),
    }
}
