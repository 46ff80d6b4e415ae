use binary_heap::heap::BinaryHeap;
use board::board::Board;
use board::tickets::Ticket;
use board_fixtures::boards::{CELLS, NODES, blank_rows, list, tournament};
use board_fixtures::calls::ShortCall::{Advance, Enter, Leave, Open, Steer};
use board_fixtures::calls::{Step, perform};
use event_queue::queue::Queue;
use kinetic::structure::Structure;
use pairing_heap::heap::PairingHeap;
use std::alloc::Global;
use std::process::Abort;
use std::test::Fail;

// What calls come to over a queue with fewer than 64 tickets.
const SMALL_QUEUE: [Step; 9] = [
    (Enter(1, 0, 0), Err(10)),
    (Enter(0, 0, 0), Err(1)),
    (Enter(1, 0, 1001), Err(2)),
    (Leave(1), Err(6)),
    (Steer(1, 0), Err(6)),
    (Advance(0, 1, 2), Ok(0)),
    (Enter(1, 0, 0), Err(3)),
    (Open, Ok(0)),
    (Enter(65_535, -5, 1000), Err(10)),
];

// Over a queue that is too small nobody enters, and everything else is as ever.
fn check_small<S: Structure + Drop, Q: Queue<Key = Ticket> + Drop>(
    rt: &impl Abort,
    alloc: Global,
    mut board: Board<S, Q>,
) -> Result<(), Fail> {
    let mut rows = blank_rows(alloc, 1)?;
    for step in SMALL_QUEUE {
        let answer = perform(&mut board, step.0, rows.as_mut_slice());
        assert_eq!(rt; answer, step.1);
        assert_eq!(rt; board.aboard(), 0);
    }
    Ok(())
}

#[test]
fn small_queues(rt: HostRuntime) -> Result<(), Fail> {
    let alloc = rt.alloc();
    for count in [0, 1, 8, 63] {
        let mut cells = CELLS;
        let mut nodes = NODES;
        let cells = cells.split_at_mut(count).0;
        let nodes = nodes.split_at_mut(count).0;
        check_small(&rt, alloc, list(alloc, BinaryHeap::new(cells))?)?;
        check_small(&rt, alloc, list(alloc, PairingHeap::new(nodes))?)?;
        check_small(&rt, alloc, tournament(BinaryHeap::new(cells)))?;
        check_small(&rt, alloc, tournament(PairingHeap::new(nodes)))?;
    }
    Ok(())
}
