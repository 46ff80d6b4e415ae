//! Performs one watch on an order board, and prints what came of each call and what each user asks.

#![tactic(auto)]

mod calls;
mod questions;
mod report;
mod texts;

use crate::calls::watch_lines;
use crate::questions::print_questions;
use crate::report::print_lines;
use binary_heap::cell::Cell;
use binary_heap::heap::BinaryHeap;
use board::board::Board;
use board::call::Row;
use board::tickets::Ticket;
use fairway::stamp::Stamp;
use sorted_list::list::SortedList;

// A row before an advance has written it.
const BLANK: Row = Row {
    at: Stamp {
        seconds: 0,
        numerator: 0,
        denominator_less_one: 0,
    },
    rear: 0,
    front: 0,
};

// Performs the watch over the sorted list and the binary heap, with room for eight rows, and prints what came of
// it and what the board answers at the end.
fn run(rt: &HostRuntime) -> anyhow::Result<()> {
    let mut cells = [Cell {
        key: None,
        slot: 0,
        ticket: 0,
        slot_key: Stamp {
            seconds: 0,
            numerator: 0,
            denominator_less_one: 0,
        },
    }; 64];
    let queue: BinaryHeap<Ticket> = BinaryHeap::new(&mut cells);
    let mut board = Board::new(SortedList::new(rt.alloc())?, queue);
    let mut lines = watch_lines();
    let mut rows = [BLANK; 8];
    board.perform_on_list(&mut lines, &mut rows);
    print_lines(rt, &lines, &rows)?;
    print_questions(rt, &board)?;
    Ok(())
}

fn main(rt: HostRuntime) -> anyhow::Result<()> {
    run(&rt)
}
