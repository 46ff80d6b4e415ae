use crate::draws::Draws;
use binary_heap::heap::BinaryHeap;
use board::board::Board;
use board::call::Call;
use board::tickets::Ticket;
use board_fixtures::boards::{CELLS, NODES, blank_rows, list, tournament};
use board_fixtures::told::{same_rows, state_and_load, state_of, told, written};
use event_queue::queue::Queue;
use fairway::instant::Instant;
use fairway::order::{is_sorted, load, turned_pairs};
use kinetic::structure::Structure;
use pairing_heap::heap::PairingHeap;
use sorted_list::list::SortedList;
use std::alloc::Global;
use std::process::Abort;
use std::test::Fail;

// How many pairs an advance of the list turns, or 0 at any other call.
fn turned_by<Q: Queue<Key = Ticket> + Drop>(board: &Board<SortedList, Q>, call: Call) -> u128 {
    let Call::Advance {
        seconds,
        numerator,
        denominator,
    } = call
    else {
        return 0;
    };
    match Instant::new(seconds, numerator, denominator) {
        Ok(goal) => turned_pairs(board.order(), board.clock().stamp(), goal.stamp()),
        Err(_) => 0,
    }
}

// Whether each vessel of the list is aboard the other structure too, on the same course.
fn has_all<Q: Queue<Key = Ticket> + Drop, S: Structure>(
    board: &Board<SortedList, Q>,
    other: &S,
) -> bool {
    let mut courses = board.order().iter();
    courses.all(|course| other.course(course.number) == Some(*course))
}

// Whether the clock, how many are aboard, who, and the foremost are the same on both.
fn is_told_alike<Q: Queue<Key = Ticket> + Drop, S: Structure + Drop, P: Queue<Key = Ticket> + Drop>(
    one: &Board<SortedList, Q>,
    other: &Board<S, P>,
) -> bool {
    let own = state_of(one);
    let theirs = state_of(other);
    (own.clock, own.aboard, own.foremost) == (theirs.clock, theirs.aboard, theirs.foremost)
        && has_all(one, other.structure())
}

// Whether the order and the load of the list are those of its vessels.
fn is_reckoned_so<Q: Queue<Key = Ticket> + Drop>(board: &Board<SortedList, Q>) -> bool {
    is_sorted(board.order(), board.clock().stamp()) && load(board.order()) == board.load() as u128
}

// Does drawn calls on the list and on a board over another structure: the same are refused, and the clock, how many
// are aboard, who, and the foremost are the same after each. On the list the order and the load are those of its
// vessels, and an advance answers the pairs that it turns.
fn check_side_by_side<
    Q: Queue<Key = Ticket> + Drop,
    S: Structure + Drop,
    P: Queue<Key = Ticket> + Drop,
>(
    rt: &impl Abort,
    alloc: Global,
    mut one: Board<SortedList, Q>,
    mut other: Board<S, P>,
    mut draws: Draws,
) -> Result<(), Fail> {
    let mut rows = blank_rows(alloc, 2016)?;
    for turn in 0..500 {
        let call = draws.call(one.clock());
        let turned = turned_by(&one, call);
        let outcome = told(one.perform(call, rows.as_mut_slice()));
        let answer = told(other.perform(call, rows.as_mut_slice()));
        assert_eq!(rt; outcome.err(), answer.err(), "at {turn}: {call:?}");
        let is_as_turned = outcome.map_or(true, |mends| mends as u128 == turned);
        assert!(rt; is_as_turned, "at {turn}: {call:?}");
        assert!(rt; is_told_alike(&one, &other), "at {turn}: {call:?}");
        assert!(rt; is_reckoned_so(&one), "at {turn}: {call:?}");
    }
    Ok(())
}

#[test]
fn list_and_tournament(rt: HostRuntime) -> Result<(), Fail> {
    let alloc = rt.alloc();
    for seed in 1..3 {
        let mut cells = CELLS;
        let mut nodes = NODES;
        let one = list(alloc, BinaryHeap::new(&mut cells))?;
        let other = tournament(PairingHeap::new(&mut nodes));
        check_side_by_side(&rt, alloc, one, other, Draws::new(seed))?;
        let one = list(alloc, PairingHeap::new(&mut nodes))?;
        let other = tournament(BinaryHeap::new(&mut cells));
        check_side_by_side(&rt, alloc, one, other, Draws::new(seed))?;
    }
    Ok(())
}

// Does drawn calls on the list over two queues: the outcomes are the same, and so are the rows but for their order.
fn check_queues<Q: Queue<Key = Ticket> + Drop, P: Queue<Key = Ticket> + Drop>(
    rt: &impl Abort,
    alloc: Global,
    mut one: Board<SortedList, Q>,
    mut other: Board<SortedList, P>,
    mut draws: Draws,
) -> Result<(), Fail> {
    let mut rows = blank_rows(alloc, 2016)?;
    let mut others = blank_rows(alloc, 2016)?;
    for turn in 0..500 {
        let call = draws.call(one.clock());
        let outcome = one.perform(call, rows.as_mut_slice());
        let answer = other.perform(call, others.as_mut_slice());
        assert_eq!(rt; outcome, answer, "at {turn}: {call:?}");
        let own = written(rows.as_slice(), outcome);
        let theirs = written(others.as_slice(), answer);
        assert!(rt; same_rows(own, theirs), "at {turn}: {call:?}");
        let own = state_and_load(&one);
        assert_eq!(rt; own, state_and_load(&other), "at {turn}: {call:?}");
    }
    Ok(())
}

#[test]
fn binary_and_pairing(rt: HostRuntime) -> Result<(), Fail> {
    let alloc = rt.alloc();
    for seed in 11..13 {
        let mut cells = CELLS;
        let mut nodes = NODES;
        let one = list(alloc, BinaryHeap::new(&mut cells))?;
        let other = list(alloc, PairingHeap::new(&mut nodes))?;
        check_queues(&rt, alloc, one, other, Draws::new(seed))?;
    }
    Ok(())
}
