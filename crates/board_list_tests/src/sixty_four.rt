use binary_heap::heap::BinaryHeap;
use board::board::Board;
use board::call::Row;
use board::tickets::Ticket;
use board_fixtures::boards::{CELLS, NODES, blank_rows, list};
use board_fixtures::calls::ShortCall::Advance;
use board_fixtures::calls::do_by_name;
use board_fixtures::crowd::{Start, enter_all};
use board_fixtures::told::{State, same_rows, state_and_load};
use event_queue::queue::Queue;
use fairway::stamp::Stamp;
use pairing_heap::heap::PairingHeap;
use sorted_list::list::SortedList;
use std::alloc::{AllocError, Global};
use std::process::Abort;
use std::test::Fail;

// The second at which two of them are level.
fn meeting(start: Start, rear: u16, front: u16) -> u64 {
    match start {
        Start::Squares => u64::from(rear) + u64::from(front),
        Start::Tens => 10,
    }
}

// The rows of all pairs.
fn all_pairs(alloc: Global, start: Start) -> Result<Vec<Row>, AllocError> {
    let mut rows = Vec::new(alloc);
    for pair in 0..4096_u16 {
        let rear = pair / 64 + 1;
        let front = pair % 64 + 1;
        if rear < front {
            let at = Stamp {
                seconds: meeting(start, rear, front),
                numerator: 0,
                denominator_less_one: 0,
            };
            rows.push(Row { at, rear, front })?;
        }
    }
    Ok(rows)
}

// What the board tells before any two have passed, and when all have.
const BEFORE: State = State {
    clock: (0, 0, 1),
    aboard: 64,
    foremost: Some(64),
    total: 0,
};

const AFTER: State = State {
    clock: (127, 0, 1),
    aboard: 64,
    foremost: Some(1),
    total: 2016,
};

// On the list each two pass once, and just as many rows are enough. One row less is too few.
fn check_all_pass<Q: Queue<Key = Ticket> + Drop>(
    rt: &impl Abort,
    alloc: Global,
    mut board: Board<SortedList, Q>,
    start: Start,
) -> Result<(), Fail> {
    let mut few = blank_rows(alloc, 2015)?;
    let mut rows = blank_rows(alloc, 2016)?;
    enter_all(&mut board, start)?;
    assert_eq!(rt; state_and_load(&board), (BEFORE, 2016));
    let goal = Advance(127, 0, 1);
    assert_eq!(rt; do_by_name(&mut board, goal, few.as_mut_slice()), Err(9));
    assert_eq!(rt; do_by_name(&mut board, goal, rows.as_mut_slice()), Ok(2016));
    assert_eq!(rt; state_and_load(&board), (AFTER, 0));
    assert!(rt;
        board
            .order()
            .is_sorted_by(|rear, front| rear.number > front.number)
    );
    let pairs = all_pairs(alloc, start)?;
    assert_eq!(rt; pairs.len(), 2016);
    assert!(rt; same_rows(rows.as_slice(), pairs.as_slice()));
    let is_in_time = |one: &Row, next: &Row| one.at.seconds <= next.at.seconds;
    assert!(rt; rows.as_slice().is_sorted_by(is_in_time));
    Ok(())
}

#[test]
fn all_pass_on_the_list(rt: HostRuntime) -> Result<(), Fail> {
    let alloc = rt.alloc();
    for start in [Start::Squares, Start::Tens] {
        let mut cells = CELLS;
        let mut nodes = NODES;
        check_all_pass(&rt, alloc, list(alloc, BinaryHeap::new(&mut cells))?, start)?;
        check_all_pass(
            &rt,
            alloc,
            list(alloc, PairingHeap::new(&mut nodes))?,
            start,
        )?;
    }
    Ok(())
}
