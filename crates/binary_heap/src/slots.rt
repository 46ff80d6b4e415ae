ghost use Rattle.std.specs.Prelude.{◌≡◌, ◌<◌, length, Some};
ghost use Rattle.binary_heap.specs.Slots.{
  columns,
  slot_of,
  key_at,
  Reads,
  with_key,
  with_entry,
  with_slot,
  seated,
};

use crate::cell::Cell;
use event_queue::key::Key;

/// The slot of a ticket.
#[tactic(auto, using(crate::proofs::Columns::slot_read))]
pub fn slot_of<K: Key>(cells: &[Cell<K>], ticket: usize) -> usize
    requires { ticket < length cells.now }
    ensures { result ≡ slot_of (columns cells.now) ticket }
{
    cells[ticket].slot
}

/// What stands in a slot: a ticket and the key that it holds.
#[derive(Clone, Copy)]
pub struct Entry<K> {
    pub ticket: u32,
    pub key: K,
}

/// Reads the key in a slot.
#[tactic(auto, using(crate::proofs::Columns::slot_key_read))]
pub fn key_at<K: Key>(cells: &[Cell<K>], slot: usize) -> K
    requires { slot < length cells.now }
    ensures { key_at (columns cells.now) slot ≡ Some result }
{
    cells[slot].slot_key
}

/// Reads what stands in a slot.
#[tactic(auto, using(crate::proofs::Columns::ticket_read))]
pub fn entry_at<K: Key>(cells: &[Cell<K>], slot: usize) -> Entry<K>
    requires { slot < length cells.now }
    ensures { Reads (columns cells.now) slot result }
{
    Entry {
        ticket: cells[slot].ticket,
        key: key_at(cells, slot),
    }
}

// Each heap has a `set_key` of its own, which promises that the other columns of its cells stay.

/// Gives a ticket a key, or none.
#[tactic(auto, using(crate::proofs::Columns::key_set))]
pub fn set_key<K: Key>(cells: &mut [Cell<K>], ticket: usize, key: Option<K>)
    requires { ticket < length cells.old }
    ensures { columns cells.new ≡ with_key (columns cells.old) ticket key }
{
    cells[ticket].key = key;
}

// Writes what stands in a slot. The key goes first: behind the ticket it would be copied by way of the stack.
#[tactic(auto, using(crate::proofs::Columns::entry_set))]
fn set_entry<K: Key>(cells: &mut [Cell<K>], slot: usize, ticket: u32, key: K)
    requires { slot < length cells.old }
    ensures { columns cells.new ≡ with_entry (columns cells.old) slot ticket (Some key) }
{
    let cell = &mut cells[slot];
    cell.slot_key = key;
    cell.ticket = ticket;
}

// Writes the slot of a ticket.
#[tactic(auto, using(crate::proofs::Columns::slot_set))]
fn set_slot<K: Key>(cells: &mut [Cell<K>], ticket: usize, slot: usize)
    requires { ticket < length cells.old }
    ensures { columns cells.new ≡ with_slot (columns cells.old) ticket slot }
{
    cells[ticket].slot = slot;
}

/// Puts a ticket with its key into a slot.
pub fn seat<K: Key>(cells: &mut [Cell<K>], slot: usize, ticket: u32, key: K)
    requires slot { slot < length cells.old }
    requires ticket { ticket < length cells.old }
    ensures { columns cells.new ≡ seated (columns cells.old) slot ticket (Some key) }
{
    set_entry(cells, slot, ticket, key);
    set_slot(cells, ticket as usize, slot);
}
