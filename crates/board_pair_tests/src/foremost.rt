use binary_heap::heap::BinaryHeap;
use board::board::Board;
use board::tickets::Ticket;
use board_fixtures::boards::{CELLS, NODES, blank_rows, list, tournament};
use board_fixtures::crowd::{Start, enter_all};
use event_queue::queue::Queue;
use kinetic::structure::Structure;
use pairing_heap::heap::PairingHeap;
use sorted_list::list::SortedList;
use std::alloc::Global;
use std::process::Abort;
use std::test::Fail;

// With 64 vessels that all pass each other, the list and another structure have the same foremost half a second after each.
fn check_foremost<Q: Queue<Key = Ticket> + Drop, P: Queue<Key = Ticket> + Drop>(
    rt: &impl Abort,
    alloc: Global,
    mut board: Board<SortedList, Q>,
    mut other: Board<impl Structure + Drop, P>,
    start: Start,
) -> Result<(), Fail> {
    let mut rows = blank_rows(alloc, 2016)?;
    enter_all(&mut board, start)?;
    enter_all(&mut other, start)?;
    for seconds in 0..130 {
        board.advance(seconds, 1, 2, rows.as_mut_slice())?;
        other.advance(seconds, 1, 2, rows.as_mut_slice())?;
        assert_eq!(rt; board.foremost(), other.foremost(), "at {seconds} 1/2");
    }
    assert_eq!(rt; other.foremost(), Some(1));
    assert_eq!(rt; other.load(), 0);
    Ok(())
}

#[test]
fn all_pass_on_the_tournament(rt: HostRuntime) -> Result<(), Fail> {
    let alloc = rt.alloc();
    for start in [Start::Squares, Start::Tens] {
        let mut cells = CELLS;
        let mut nodes = NODES;
        let one = list(alloc, BinaryHeap::new(&mut cells))?;
        let other = tournament(PairingHeap::new(&mut nodes));
        check_foremost(&rt, alloc, one, other, start)?;
    }
    Ok(())
}
