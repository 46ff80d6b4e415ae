use crate::answers::{BLANK, told};
use binary_heap::heap::BinaryHeap;
use board::call::Row;
use board::tickets::Ticket;
use board_fixtures::boards::{BLANK_ROW, CELLS, NODES, list};
use event_queue::queue::Queue;
use fairway::stamp::Stamp;
use pairing_heap::heap::PairingHeap;
use std::alloc::Global;
use std::process::Abort;
use std::test::Fail;
use trace_replay::replay::replay;
use trace_text::convert::trace_of_text;

// Three pass at 6 seconds, and one of them passes vessel 8 at 12.
const TEXT: &str =
    "enter 1 0 3\nenter 2 6 2\nenter 5 12 1\nenter 8 36 0\nadvance 6 0/1\nadvance 12 0/1\norder\nend\n";

// Each advance writes its rows from the first on, and leaves the others.
fn check_rows<Q: Queue<Key = Ticket> + Drop>(
    rt: &impl Abort,
    alloc: Global,
    queue: Q,
) -> Result<(), Fail> {
    let trace = trace_of_text(alloc, TEXT.as_bytes());
    let trace = trace.ok().ok_or("the text is read")?;
    let mut board = list(alloc, queue)?;
    let mut rows = [BLANK_ROW; 6];
    let mut page = [BLANK; 12];
    let answer = replay(trace.as_slice(), &mut board, &mut rows, &mut page);
    assert_eq!(rt; told(answer), Ok(12));
    assert_eq!(rt; &page, b"12: 1 8 2 5\n");
    assert_eq!(rt; board.total(), 4);
    let twelve = Stamp {
        seconds: 12,
        numerator: 0,
        denominator_less_one: 0,
    };
    let last = Row {
        at: twelve,
        rear: 1,
        front: 8,
    };
    assert_eq!(rt; rows[0], last);
    assert_eq!(rt; rows.map(|row| row.at.seconds), [12, 6, 6, 0, 0, 0]);
    assert_eq!(rt;
        rows.map(|row| row.rear == 0),
        [false, false, false, true, true, true]
    );
    Ok(())
}

#[test]
fn rows(rt: HostRuntime) -> Result<(), Fail> {
    let mut cells = CELLS;
    let mut nodes = NODES;
    check_rows(&rt, rt.alloc(), BinaryHeap::new(&mut cells))?;
    check_rows(&rt, rt.alloc(), PairingHeap::new(&mut nodes))
}
