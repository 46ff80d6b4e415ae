//! Replays a recorded trace on standard input, and writes the page and, after a fault, a stop line.

#![tactic(auto)]

use binary_heap::cell::Cell;
use binary_heap::heap::BinaryHeap;
use board::board::Board;
use board::call::Row;
use board::tickets::Ticket;
use fairway::stamp::Stamp;
use lines::stop_lines::write_stop_line;
use sorted_list::list::SortedList;
use std::alloc::Global;
use std::io::{self, Read, Write};
use trace_replay::fault::Fault;
use trace_replay::replay::replay;

// How many bytes of a trace are read at most, and how many bytes the page has.
const MOST_BYTES: usize = 32_768;

// As many rows as the greatest load.
const ROWS: usize = 2_016;

// The most bytes of a stop line, and more.
const STOP_BYTES: usize = 64;

// A row that nothing is written in yet.
const BLANK: Row = Row {
    at: Stamp {
        seconds: 0,
        numerator: 0,
        denominator_less_one: 0,
    },
    rear: 0,
    front: 0,
};

// Replays a trace onto a page, over the sorted list and the binary heap.
fn replay_onto(
    rt: &HostRuntime,
    trace: &[u8],
    page: &mut [u8],
) -> anyhow::Result<Result<usize, Fault>> {
    let mut cells = [Cell {
        key: None,
        slot: 0,
        ticket: 0,
        slot_key: Stamp {
            seconds: 0,
            numerator: 0,
            denominator_less_one: 0,
        },
    }; 64];
    let queue: BinaryHeap<Ticket> = BinaryHeap::new(&mut cells);
    let mut board = Board::new(SortedList::new(rt.alloc())?, queue);
    let mut rows = [BLANK; ROWS];
    Ok(replay(trace, &mut board, &mut rows, page))
}

// Writes the line of a stop, from a page of its own.
fn print_stop(rt: &HostRuntime, fault: Fault) -> anyhow::Result<()> {
    let mut page = [0; STOP_BYTES];
    if let Ok(count) = write_stop_line(u8::from(fault.cause), fault.place, &mut page) {
        rt.stdout().write_all(&page[..count])?;
    }
    Ok(())
}

// The first bytes of an input, as many as a trace has at most.
fn first_bytes<R: Read + Drop>(input: R, heap: Global) -> io::Result<Vec<u8>> {
    let mut trace = Vec::new(heap);
    input.take(MOST_BYTES as u64).read_to_end(&mut trace)?;
    Ok(trace)
}

// Replays the first bytes of standard input, writes what was written on the page, and after a fault the stop line.
fn run(rt: &HostRuntime) -> anyhow::Result<()> {
    let trace = first_bytes(rt.stdin(), rt.alloc())?;
    let mut page = [0; MOST_BYTES];
    let answer = replay_onto(rt, trace.as_slice(), &mut page)?;
    let written = answer.map_or_else(|fault| fault.written, |written| written);
    rt.stdout().write_all(&page[..written.min(page.len())])?;
    match answer {
        Ok(_) => Ok(()),
        Err(fault) => print_stop(rt, fault),
    }
}

fn main(rt: HostRuntime) -> anyhow::Result<()> {
    run(&rt)
}

#[cfg(test)]
mod tests {
    use crate::{MOST_BYTES, first_bytes};
    use std::test::Fail;

    // Of an input that is longer than a trace may be, the first bytes are taken, and of a shorter one all.
    #[test]
    fn first_bytes_of_an_input(rt: HostRuntime) -> Result<(), Fail> {
        let mut input = [7; 40_000];
        input[MOST_BYTES] = 8;
        for (given, taken) in [
            (0, 0),
            (5, 5),
            (32_768, 32_768),
            (32_769, 32_768),
            (40_000, 32_768),
        ] {
            let trace = first_bytes(&input[..given], rt.alloc())?;
            assert_eq!(rt; trace.len(), taken);
            assert!(rt; trace.iter().all(|byte| *byte == 7));
        }
        Ok(())
    }
}
