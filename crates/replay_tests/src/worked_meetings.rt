use binary_heap::heap::BinaryHeap;
use board::board::Board;
use board::tickets::Ticket;
use board_fixtures::boards::{CELLS, NODES, blank_rows, list};
use event_queue::queue::Queue;
use meetings::table::meetings;
use meetings::told::Told;
use pairing_heap::heap::PairingHeap;
use sorted_list::list::SortedList;
use std::alloc::Global;
use std::process::Abort;
use std::test::Fail;

// Performs the calls of a meeting, each with as many rows as it is lent.
fn check_meeting<Q: Queue<Key = Ticket> + Drop>(
    rt: &impl Abort,
    alloc: Global,
    board: &mut Board<SortedList, Q>,
    meeting: &[Told],
) -> Result<(), Fail> {
    for told in meeting {
        let mut rows = blank_rows(alloc, told.lent)?;
        let outcome = board.perform(told.call, rows.as_mut_slice());
        assert_eq!(rt; outcome, told.outcome, "at {:?}", told.call);
    }
    Ok(())
}

// Performs the ten meetings on one board.
fn check_meetings<Q: Queue<Key = Ticket> + Drop>(
    rt: &impl Abort,
    alloc: Global,
    mut board: Board<SortedList, Q>,
) -> Result<(), Fail> {
    let all = meetings();
    let meetings: [&[Told]; 10] = [
        &all.level_at_five,
        &all.equally_fast,
        &all.three_at_six,
        &all.level_at_a_half,
        &all.same_instant,
        &all.steered_when_level,
        &all.in_halves,
        &all.least_speed,
        &all.last_instant,
        &all.too_few_rows,
    ];
    for meeting in meetings {
        check_meeting(rt, alloc, &mut board, meeting)?;
    }
    Ok(())
}

#[test]
fn worked_meetings(rt: HostRuntime) -> Result<(), Fail> {
    let alloc = rt.alloc();
    let mut cells = CELLS;
    let mut nodes = NODES;
    check_meetings(&rt, alloc, list(alloc, BinaryHeap::new(&mut cells))?)?;
    check_meetings(&rt, alloc, list(alloc, PairingHeap::new(&mut nodes))?)
}
