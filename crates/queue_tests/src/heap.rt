use crate::tidy::TidyTicket;
use binary_heap::cell::Cell;
use binary_heap::heap::BinaryHeap;
use event_queue::queue::{MOST_TICKETS, Queue};
use event_queue::refusal::Refusal;
use single_ticket::SingleTicket;
use std::process::Abort;
use std::test::Fail;

// A cell with something in it, as lent memory may have.
const WORN: Cell<u32> = Cell {
    key: Some(7),
    slot: 99,
    ticket: 3,
    slot_key: 5,
};

// How many cells are lent at most: some more than a queue uses.
const MOST_CELLS: usize = 70;

// The key that a ticket is given.
fn key_of(ticket: usize) -> u32 {
    (ticket % MOST_TICKETS) as u32 * 37 % 101
}

// Gives every ticket of an empty queue its key, and tries one ticket more.
fn fill<Q: Queue<Key = u32>>(rt: &impl Abort, queue: &mut Q, capacity: usize) {
    assert!(rt; queue.capacity() == capacity);
    assert_eq!(rt; queue.take(u32::MAX), None);
    for ticket in 0..capacity.min(MOST_TICKETS) {
        assert_eq!(rt; queue.held(ticket), Ok(None));
        assert_eq!(rt; queue.put(ticket, key_of(ticket)), Ok(()));
        assert_eq!(rt; queue.held(ticket), Ok(Some(key_of(ticket))));
        assert_eq!(rt; queue.put(ticket, 5), Err(Refusal::TicketHeld));
    }
    assert_eq!(rt; queue.put(capacity, 5), Err(Refusal::NoSuchTicket));
    assert_eq!(rt; queue.held(capacity), Err(Refusal::NoSuchTicket));
    assert_eq!(rt; queue.drop(capacity), Err(Refusal::NoSuchTicket));
    assert!(rt; queue.size() == capacity);
}

// Gives every ticket of a full queue other keys, drops it, and gives it its own again.
fn rekey_all<Q: Queue<Key = u32>>(rt: &impl Abort, queue: &mut Q, capacity: usize) {
    for ticket in 0..capacity.min(MOST_TICKETS) {
        let own = key_of(ticket);
        for key in [0, u32::MAX, own] {
            assert_eq!(rt; queue.rekey(ticket, key), Ok(()));
            assert_eq!(rt; queue.held(ticket), Ok(Some(key)));
        }
        assert_eq!(rt; queue.drop(ticket), Ok(Some(own)));
        assert_eq!(rt; queue.rekey(ticket, own), Ok(()));
        assert!(rt; queue.size() == capacity);
    }
    assert_eq!(rt; queue.rekey(capacity, 5), Err(Refusal::NoSuchTicket));
}

// Takes out all tickets of a full queue, the earlier keys first.
fn empty<Q: Queue<Key = u32>>(rt: &impl Abort, queue: &mut Q, capacity: usize) -> Result<(), Fail> {
    let mut last = 0;
    for _ in 0..capacity.min(MOST_TICKETS) {
        let first = queue
            .take(u32::MAX)
            .ok_or_else(|| Fail::new("a ticket is missing"))?;
        assert!(rt; first.1 == key_of(first.0));
        assert!(rt; last <= first.1);
        last = first.1;
    }
    assert!(rt; queue.size() == 0);
    assert_eq!(rt; queue.take(u32::MAX), None);
    Ok(())
}

#[test]
fn a_single_ticket(rt: HostRuntime) -> Result<(), Fail> {
    let mut queue: SingleTicket<u32> = SingleTicket::new();
    fill(&rt, &mut queue, 1);
    rekey_all(&rt, &mut queue, 1);
    empty(&rt, &mut queue, 1)?;
    let mut queue: TidyTicket<u32> = TidyTicket::new();
    fill(&rt, &mut queue, 1);
    rekey_all(&rt, &mut queue, 1);
    empty(&rt, &mut queue, 1)
}

// Sets a heap up in the first cells, and fills and empties it.
fn in_first_cells(rt: &impl Abort, cells: &mut [Cell<u32>], count: usize) -> Result<(), Fail> {
    if count > cells.len() {
        return Ok(());
    }
    let mut queue = BinaryHeap::new(&mut cells[0..count]);
    fill(rt, &mut queue, count.min(MOST_TICKETS));
    rekey_all(rt, &mut queue, count.min(MOST_TICKETS));
    empty(rt, &mut queue, count.min(MOST_TICKETS))
}

// Sets a heap up in each number of the cells, none and all among them.
fn in_any_cells(rt: &impl Abort, cells: &mut [Cell<u32>]) -> Result<(), Fail> {
    for count in 0..MOST_CELLS + 1 {
        in_first_cells(rt, cells, count)?;
    }
    Ok(())
}

#[test]
fn every_capacity(rt: HostRuntime) -> Result<(), Fail> {
    let mut cells = [WORN; MOST_CELLS];
    in_any_cells(&rt, &mut cells)?;
    assert!(rt; cells[MOST_TICKETS].slot == WORN.slot && cells[MOST_CELLS - 1].slot == WORN.slot);
    Ok(())
}

#[test]
fn limits_and_equal_keys(rt: HostRuntime) -> Result<(), Fail> {
    let mut cells = [WORN; 8];
    let mut queue = BinaryHeap::new(&mut cells);
    assert_eq!(rt; queue.put(6, 30), Ok(()));
    assert_eq!(rt; queue.put(2, 20), Ok(()));
    assert_eq!(rt; queue.put(5, 20), Ok(()));
    assert_eq!(rt; queue.take(19), None);
    assert_eq!(rt; queue.drop(6), Ok(Some(30)));
    assert_eq!(rt; queue.drop(6), Ok(None));
    let first = queue.take(20).ok_or_else(|| Fail::new("none is left"))?;
    let second = queue.take(20).ok_or_else(|| Fail::new("one is missing"))?;
    assert!(rt; first.1 == 20 && second.1 == 20);
    assert!(rt; (first.0 == 2 && second.0 == 5) || (first.0 == 5 && second.0 == 2));
    Ok(())
}
