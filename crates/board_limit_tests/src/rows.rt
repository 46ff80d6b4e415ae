use binary_heap::heap::BinaryHeap;
use board::board::Board;
use board::call::Row;
use board::tickets::Ticket;
use board_fixtures::boards::{BLANK_ROW, CELLS, NODES, list, tournament};
use board_fixtures::calls::ShortCall::{Advance, Enter, Leave};
use board_fixtures::calls::{Step, first_amiss};
use board_fixtures::told::{State, same_rows, state_of};
use event_queue::queue::Queue;
use fairway::stamp::Stamp;
use kinetic::structure::Structure;
use pairing_heap::heap::PairingHeap;
use sorted_list::list::SortedList;
use std::process::Abort;
use std::test::Fail;

// With two that will pass, no rows are too few even for an instant before the meeting. The lines above come first.
const WILL_PASS: [Step; 5] = [
    (Enter(7, 0, 3), Ok(0)),
    (Enter(3, 10, 1), Ok(0)),
    (Advance(1, 0, 2), Err(9)),
    (Advance(0, 0, 1), Err(9)),
    (Advance(1, 1, 1), Err(7)),
];

// With one of them no rows are enough, and the lines above come first.
const ONE_LEAVES: [Step; 4] = [
    (Leave(3), Ok(0)),
    (Advance(1, 0, 2), Ok(0)),
    (Enter(3, 10, 1), Ok(0)),
    (Advance(0, 1, 2), Err(8)),
];

// What the board tells between the two.
const BETWEEN: State = State {
    clock: (0, 0, 1),
    aboard: 2,
    foremost: Some(3),
    total: 0,
};

fn check_few_rows<S: Structure + Drop, Q: Queue<Key = Ticket> + Drop>(
    rt: &impl Abort,
    mut board: Board<S, Q>,
) {
    assert_eq!(rt; first_amiss(&mut board, &WILL_PASS, &mut []), None);
    assert_eq!(rt; state_of(&board), BETWEEN);
    assert_eq!(rt; first_amiss(&mut board, &ONE_LEAVES, &mut []), None);
}

#[test]
fn few_rows(rt: HostRuntime) -> Result<(), Fail> {
    let mut cells = CELLS;
    let mut nodes = NODES;
    check_few_rows(&rt, list(rt.alloc(), BinaryHeap::new(&mut cells))?);
    check_few_rows(&rt, list(rt.alloc(), PairingHeap::new(&mut nodes))?);
    check_few_rows(&rt, tournament(BinaryHeap::new(&mut cells)));
    check_few_rows(&rt, tournament(PairingHeap::new(&mut nodes)));
    Ok(())
}

// The row of the two, when they pass at 5.
const PASSED: [Row; 1] = [Row {
    at: Stamp {
        seconds: 5,
        numerator: 0,
        denominator_less_one: 0,
    },
    rear: 7,
    front: 3,
}];

// On the list, whose load is the number of pairs that will pass, one row is enough for one passing.
fn check_one_row<Q: Queue<Key = Ticket> + Drop>(rt: &impl Abort, mut board: Board<SortedList, Q>) {
    let mut rows = [BLANK_ROW];
    assert_eq!(rt; first_amiss(&mut board, &WILL_PASS, &mut []), None);
    assert_eq!(rt;
        first_amiss(&mut board, &[(Advance(5, 0, 1), Err(9))], &mut []),
        None
    );
    assert_eq!(rt;
        first_amiss(&mut board, &[(Advance(5, 0, 1), Ok(1))], &mut rows),
        None
    );
    assert_eq!(rt;
        first_amiss(&mut board, &[(Advance(6, 0, 1), Ok(0))], &mut []),
        None
    );
    assert!(rt; same_rows(&rows, &PASSED));
}

#[test]
fn one_row(rt: HostRuntime) -> Result<(), Fail> {
    let mut cells = CELLS;
    check_one_row(&rt, list(rt.alloc(), BinaryHeap::new(&mut cells))?);
    Ok(())
}
