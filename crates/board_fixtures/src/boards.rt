use binary_heap::cell::Cell;
use board::board::Board;
use board::call::Row;
use board::tickets::Ticket;
use event_queue::queue::Queue;
use fairway::stamp::Stamp;
use kinetic::structure::Structure;
use pairing_heap::node::Node;
use sorted_list::list::SortedList;
use std::alloc::{AllocError, Global};
use tournament::tournament::Tournament;

// Cells for a binary heap.
pub const CELLS: [Cell<Ticket>; 64] = [Cell {
    key: None,
    slot: 0,
    ticket: 0,
    slot_key: Stamp {
        seconds: 0,
        numerator: 0,
        denominator_less_one: 0,
    },
}; 64];

// Cells for a pairing heap.
pub const NODES: [Node<Ticket>; 64] = [Node {
    key: None,
    child: None,
    next: None,
    back: None,
}; 64];

// A row before an advance has written it.
pub const BLANK_ROW: Row = Row {
    at: Stamp {
        seconds: 0,
        numerator: 0,
        denominator_less_one: 0,
    },
    rear: 0,
    front: 0,
};

// So many rows.
pub fn blank_rows(alloc: Global, count: usize) -> Result<Vec<Row>, AllocError> {
    vec![in alloc; BLANK_ROW; count]
}

// A board over a sorted list.
pub fn list<Q: Queue<Key = Ticket> + Drop>(
    alloc: Global,
    queue: Q,
) -> Result<Board<SortedList, Q>, AllocError> {
    Ok(Board::new(SortedList::new(alloc)?, queue))
}

// A board over a tournament.
pub fn tournament<Q: Queue<Key = Ticket> + Drop>(queue: Q) -> Board<Tournament, Q> {
    Board::new(Tournament::new(), queue)
}
