ghost use Rattle.std.specs.Prelude.{◌≤◌, min, length, take};
ghost use Rattle.binary_heap.specs.Slots.{columns, Within};

use crate::cell::Cell;
use crate::tickets::{change_front, first, insert_front, remove_front};
use event_queue::cells::{capacity, clear_front, held};
use event_queue::key::Key;
use event_queue::queue::Queue;
use event_queue::refusal::Refusal;

/// An event queue as a binary heap with an index by ticket, in cells that the caller lends: the first 64,
/// or all if they are fewer.
// The memory is lent and fixed, so the size is counted beside it. What a heap that was set up here keeps whatever
// its calls do: there is room for its size, and the tickets in its slots have cells, so that a sift need not ask.
// That it is sound is a premise of contracts and no ghost field: as a field it would make every definition that
// names the heap take the key kind along, and the interface asks it of any queue all the same.
#[derive(Drop)]
pub struct BinaryHeap<'a, K> {
    cells: &'a mut [Cell<K>],
    size: usize,
    ghost few: { size ≤ min (length cells.now) 64 },
    ghost within: { Within (columns (take 64 cells.now)) size },
}

impl<'a, K: Key> BinaryHeap<'a, K> {
    ghost use Rattle.std.specs.Prelude.{◌≡◌, map, drop};
    ghost use Rattle.binary_heap.specs.Slots.{cell_cleared};
    ghost use Rattle.event_queue.specs.Queues.{Empty};
    ghost use Rattle.binary_heap.specs.Meanings.{heap_meaning};

    /// An empty queue in the first 64 of the cells, whatever they hold: it takes the key out of each, and leaves
    /// the others as they are. It is the one call that goes over all cells.
    pub fn new(cells: &'a mut [Cell<K>]) -> BinaryHeap<'a, K>
        ensures empty { Empty (heap_meaning K.before) result }
        ensures capacity { (heap_meaning K.before).capacity result ≡ min (length cells.old) 64 }
        ensures lender { result.cells.ghost_name ≡ cells.entry.ghost_name }
        ensures cells { take 64 result.cells.now ≡ map cell_cleared (take 64 cells.old) }
        ensures past { drop 64 result.cells.now ≡ drop 64 cells.old }
    {
        clear_front(cells);
        BinaryHeap { cells, size: 0 }
    }
}

// The cells are named before each call: a slice in a field is not lent again as it stands.
impl<'a, K: Key> Queue for BinaryHeap<'a, K> {
    ghost use Rattle.std.specs.Prelude.{◌≡◌, IfOk, IfNone};
    ghost use Rattle.event_queue.specs.Queues.{Dropped, Took};
    ghost use Rattle.binary_heap.specs.Meanings.{heap_meaning, in_no_cells};

    type Key = K;

    ghost means = { heap_meaning K.before };

    fn capacity(&mut self) -> usize {
        let cells = &mut *self.cells;
        capacity(cells)
    }

    fn size(&mut self) -> usize {
        self.size
    }

    fn held(&mut self, ticket: usize) -> Result<Option<K>, Refusal> {
        let cells = &mut *self.cells;
        held(cells, ticket)
    }

    // The calls that change something are written for each heap: they carry a size along and differ in what
    // they hand it to.
    fn put(&mut self, ticket: usize, key: K) -> Result<(), Refusal> {
        let cells = &mut *self.cells;
        if held(cells, ticket)?.is_some() {
            return Err(Refusal::TicketHeld);
        }
        self.size = insert_front(cells, self.size, ticket, key);
        Ok(())
    }

    // Beyond the trait, a `drop` or a `take` that answers none leaves the heap exactly as it was, sound or not.
    fn drop(&mut self, ticket: usize) -> Result<Option<K>, Refusal>
        ensures after { Dropped (heap_meaning K.before) self.old self.new ticket result }
        ensures keeps { (heap_meaning K.before).keeps self.old self.new }
        ensures none { IfOk result (λ key. IfNone key (self.new ≡ self.old)) }
    {
        let cells = &mut *self.cells;
        // a none inside an `Ok` is answered by hand, since `?` passes on a refusal
        let Some(key) = held(cells, ticket)? else {
            return Ok(None);
        };
        self.size = remove_front(cells, self.size, ticket);
        Ok(Some(key))
    }

    // A ticket that holds a key stays in the heap, and moves from where it stands.
    fn rekey(&mut self, ticket: usize, key: K) -> Result<(), Refusal> {
        let cells = &mut *self.cells;
        if held(cells, ticket)?.is_none() {
            return self.put(ticket, key);
        }
        change_front(cells, self.size, ticket, key);
        Ok(())
    }

    fn take(&mut self, limit: K) -> Option<(usize, K)>
        ensures after { Took (heap_meaning K.before) K.before self.old self.new limit result }
        ensures keeps { (heap_meaning K.before).keeps self.old self.new }
        ensures none { IfNone result (self.new ≡ self.old) }
    {
        let cells = &mut *self.cells;
        let first = first(cells, self.size)?;
        if limit.is_before(&first.1) {
            return None;
        }
        self.size = remove_front(cells, self.size, first.0);
        Some(first)
    }

    ghost inhabited = { in_no_cells K.before };
}
