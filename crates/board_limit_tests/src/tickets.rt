use binary_heap::cell::Cell;
use binary_heap::heap::BinaryHeap;
use board::board::Board;
use board::tickets::Ticket;
use board_fixtures::boards::{CELLS, NODES, blank_rows, list, tournament};
use board_fixtures::calls::ShortCall::{Advance, Enter, Leave, Open, Steer};
use board_fixtures::calls::{Step, perform};
use event_queue::queue::Queue;
use kinetic::structure::Structure;
use pairing_heap::heap::PairingHeap;
use pairing_heap::node::Node;
use std::alloc::Global;
use std::process::Abort;
use std::test::Fail;

// Calls at which no more than two vessels are aboard, and how many tickets hold a key after them.
type Tickets = (&'static str, &'static [Step], usize);

// One ticket where the two will pass. They are the same on both structures.
const TICKETS: [Tickets; 8] = [
    (
        "equally fast",
        &[(Enter(4, 100, 2), Ok(0)), (Enter(9, 100, 2), Ok(0))],
        0,
    ),
    (
        "the front vessel faster",
        &[(Enter(4, 0, 2), Ok(0)), (Enter(9, 1, 3), Ok(0))],
        0,
    ),
    (
        "will pass",
        &[(Enter(7, 0, 3), Ok(0)), (Enter(3, 10, 1), Ok(0))],
        1,
    ),
    (
        "has passed",
        &[
            (Enter(7, 0, 3), Ok(0)),
            (Enter(3, 10, 1), Ok(0)),
            (Advance(5, 0, 1), Ok(1)),
        ],
        0,
    ),
    (
        "one has left",
        &[
            (Enter(7, 0, 3), Ok(0)),
            (Enter(3, 10, 1), Ok(0)),
            (Leave(3), Ok(0)),
        ],
        0,
    ),
    (
        "one was steered",
        &[
            (Enter(7, 0, 3), Ok(0)),
            (Enter(3, 10, 1), Ok(0)),
            (Steer(7, 1), Ok(0)),
        ],
        0,
    ),
    (
        "steered to pass after all",
        &[
            (Enter(7, 0, 1), Ok(0)),
            (Enter(3, 10, 1), Ok(0)),
            (Steer(7, 2), Ok(0)),
            (Enter(7, 0, 1), Err(4)),
        ],
        1,
    ),
    (
        "opened",
        &[
            (Enter(7, 0, 3), Ok(0)),
            (Enter(3, 10, 1), Ok(0)),
            (Open, Ok(0)),
        ],
        0,
    ),
];

// Does the calls, and lets the board go.
fn check_steps<S: Structure + Drop, Q: Queue<Key = Ticket> + Drop>(
    rt: &impl Abort,
    alloc: Global,
    mut board: Board<S, Q>,
    steps: &[Step],
) -> Result<(), Fail> {
    let mut rows = blank_rows(alloc, 64)?;
    for step in steps {
        assert_eq!(rt; perform(&mut board, step.0, rows.as_mut_slice()), step.1);
    }
    Ok(())
}

// How many cells hold a key.
fn keyed_cells(cells: &[Cell<Ticket>]) -> usize {
    cells.iter().filter(|cell| cell.key.is_some()).count()
}

// How many nodes hold a key.
fn keyed_nodes(nodes: &[Node<Ticket>]) -> usize {
    nodes.iter().filter(|node| node.key.is_some()).count()
}

// Does the calls of a line on both structures over a binary heap.
fn check_cells(rt: &impl Abort, alloc: Global, line: &Tickets) -> Result<(), Fail> {
    let (name, steps, count) = *line;
    let mut cells = CELLS;
    check_steps(rt, alloc, list(alloc, BinaryHeap::new(&mut cells))?, steps)?;
    assert_eq!(rt; keyed_cells(&cells), count, "on the list, {name}");
    check_steps(rt, alloc, tournament(BinaryHeap::new(&mut cells)), steps)?;
    assert_eq!(rt; keyed_cells(&cells), count, "on the tournament, {name}");
    Ok(())
}

// Does the calls of a line on both structures over a pairing heap.
fn check_nodes(rt: &impl Abort, alloc: Global, line: &Tickets) -> Result<(), Fail> {
    let (name, steps, count) = *line;
    let mut nodes = NODES;
    check_steps(rt, alloc, list(alloc, PairingHeap::new(&mut nodes))?, steps)?;
    assert_eq!(rt; keyed_nodes(&nodes), count, "on the list, {name}");
    check_steps(rt, alloc, tournament(PairingHeap::new(&mut nodes)), steps)?;
    assert_eq!(rt; keyed_nodes(&nodes), count, "on the tournament, {name}");
    Ok(())
}

#[test]
fn tickets(rt: HostRuntime) -> Result<(), Fail> {
    for line in &TICKETS {
        check_cells(&rt, rt.alloc(), line)?;
        check_nodes(&rt, rt.alloc(), line)?;
    }
    Ok(())
}
