use binary_heap::heap::BinaryHeap;
use board::board::Board;
use board::tickets::Ticket;
use board_fixtures::boards::{CELLS, NODES, list, tournament};
use board_fixtures::calls::ShortCall::{Advance, Enter, Leave};
use board_fixtures::calls::{Step, first_amiss};
use board_fixtures::told::{State, state_of};
use event_queue::queue::Queue;
use kinetic::structure::Structure;
use pairing_heap::heap::PairingHeap;
use std::process::Abort;
use std::test::Fail;

// What a full board tells.
const FULL: State = State {
    clock: (0, 0, 1),
    aboard: 64,
    foremost: Some(64),
    total: 0,
};

// With 64 aboard nobody else enters; the lines above come first.
const NOBODY_ENTERS: [Step; 4] = [
    (Enter(65, 0, 0), Err(5)),
    (Enter(64, 0, 0), Err(4)),
    (Enter(65, 0, 1001), Err(2)),
    (Enter(0, 0, 0), Err(1)),
];

const ONE_LEAVES: [Step; 4] = [
    (Leave(1), Ok(0)),
    (Enter(65, 0, 0), Ok(0)),
    (Advance(0, 1, 2), Ok(0)),
    (Enter(66, 0, 0), Err(3)),
];

fn check_full<S: Structure + Drop, Q: Queue<Key = Ticket> + Drop>(
    rt: &impl Abort,
    mut board: Board<S, Q>,
) {
    for number in 1..65 {
        assert_eq!(rt;
            first_amiss(&mut board, &[(Enter(number, 0, 0), Ok(0))], &mut []),
            None
        );
    }
    assert_eq!(rt; state_of(&board), FULL);
    assert_eq!(rt; first_amiss(&mut board, &NOBODY_ENTERS, &mut []), None);
    assert_eq!(rt; state_of(&board), FULL);
    assert_eq!(rt; first_amiss(&mut board, &ONE_LEAVES, &mut []), None);
}

#[test]
fn full(rt: HostRuntime) -> Result<(), Fail> {
    let mut cells = CELLS;
    let mut nodes = NODES;
    check_full(&rt, list(rt.alloc(), BinaryHeap::new(&mut cells))?);
    check_full(&rt, list(rt.alloc(), PairingHeap::new(&mut nodes))?);
    check_full(&rt, tournament(BinaryHeap::new(&mut cells)));
    check_full(&rt, tournament(PairingHeap::new(&mut nodes)));
    Ok(())
}
