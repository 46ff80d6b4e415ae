use crate::answers::{BLANK, told};
use binary_heap::heap::BinaryHeap;
use board::board::Board;
use board::call::Row;
use board::tickets::Ticket;
use board_fixtures::boards::{BLANK_ROW, CELLS, NODES, list};
use board_fixtures::calls::ShortCall::{Advance, Enter};
use board_fixtures::calls::{Step, first_amiss};
use board_fixtures::told::{State, state_of};
use event_queue::queue::Queue;
use fairway::course::Course;
use pairing_heap::heap::PairingHeap;
use sorted_list::list::SortedList;
use std::process::Abort;
use std::test::Fail;
use trace_replay::replay::replay;

// Traces with a fault of the header, and its number.
const HEADERS: [(&[u8], u8); 9] = [
    (b"", 13),
    (b"F", 13),
    (b"FWT\x00", 13),
    (b"XWT\x02", 13),
    (b"FWX\x00\x01QZ", 14),
    (b"fWT\x00\x01", 14),
    (b"FWX\x00\x02Z", 14),
    (b"FWT\x00\x02QZ", 15),
    (b"FWT\x01\x00", 15),
];

// Vessel 3 behind vessel 7, which has passed it.
const ABOARD: [Course; 2] = [
    Course {
        number: 3,
        speed: 1,
        base: 10,
    },
    Course {
        number: 7,
        speed: 3,
        base: 0,
    },
];

// The calls after which the two are so.
const PASSED: [Step; 3] = [
    (Enter(7, 0, 3), Ok(0)),
    (Enter(3, 10, 1), Ok(0)),
    (Advance(5, 1, 2), Ok(1)),
];

// No header that is read so far changes the board, the rows or the page.
fn check_header<Q: Queue<Key = Ticket> + Drop>(
    rt: &impl Abort,
    board: &mut Board<SortedList, Q>,
    rows: &mut [Row; 3],
    trace: &[u8],
    number: u8,
) {
    let state = state_of(board);
    let before = *rows;
    let mut page = [BLANK; 32];
    let answer = replay(trace, board, rows, &mut page);
    assert_eq!(rt; told(answer), Err((number, 0, 0)));
    assert!(rt; board.order() == ABOARD.as_slice());
    assert_eq!(rt; state_of(board), state);
    assert!(rt; *rows == before);
    assert!(rt; page == [BLANK; 32]);
}

// A sound header opens the board, and changes no row.
fn check_sound<Q: Queue<Key = Ticket> + Drop>(
    rt: &impl Abort,
    board: &mut Board<SortedList, Q>,
    rows: &mut [Row; 3],
) {
    let before = *rows;
    let answer = replay(b"FWT\x00\x01Z", board, rows, &mut [BLANK; 32]);
    assert_eq!(rt; told(answer), Ok(0));
    let opened = State {
        clock: (0, 0, 1),
        aboard: 0,
        foremost: None,
        total: 0,
    };
    assert_eq!(rt; state_of(board), opened);
    assert!(rt; *rows == before);
}

// Two vessels are aboard, and one has passed.
fn check_headers<Q: Queue<Key = Ticket> + Drop>(rt: &impl Abort, mut board: Board<SortedList, Q>) {
    let mut rows = [BLANK_ROW; 3];
    assert_eq!(rt; first_amiss(&mut board, &PASSED, &mut rows), None);
    for (trace, number) in &HEADERS {
        check_header(rt, &mut board, &mut rows, trace, *number);
    }
    check_sound(rt, &mut board, &mut rows);
}

#[test]
fn headers(rt: HostRuntime) -> Result<(), Fail> {
    let mut cells = CELLS;
    let mut nodes = NODES;
    check_headers(&rt, list(rt.alloc(), BinaryHeap::new(&mut cells))?);
    check_headers(&rt, list(rt.alloc(), PairingHeap::new(&mut nodes))?);
    Ok(())
}
