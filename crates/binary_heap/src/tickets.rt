ghost use Rattle.std.specs.Prelude.{◌≡◌, ◌+◌, ◌-◌, ◌<◌, ◌≤◌, length, min, take, drop};
ghost use Rattle.std.specs.Option.{IfSome};
ghost use Rattle.event_queue.specs.Cells.{Earliest};
ghost use Rattle.binary_heap.specs.Slots.{cell_key, columns, Within};
ghost use Rattle.binary_heap.specs.Sound.{Sound, Inserts, Removes, Changes};

use crate::cell::Cell;
use crate::sift::{sift, sift_up};
use crate::slots::{entry_at, set_key, slot_of};
use event_queue::cells::capacity;
use event_queue::key::Key;

// The functions here and in `sift` take cells and size one by one: a struct of the two would be made anew, on
// the first 64 of the lent cells, at each call, and would have to hand the size back.

// Gives a key to a ticket that holds none, in a heap of `size` tickets.
#[tactic(auto, using(crate::proofs::Columns::key_length))]
fn insert<K: Key>(cells: &mut [Cell<K>], size: usize, ticket: usize, key: K)
    requires few { size < 64 }
    requires room { size < length cells.old }
    requires ticket { ticket < length cells.old }
    requires number { ticket < 64 }
    requires within { Within (columns cells.old) size }
    ensures inserts { Inserts K.before cells.old cells.new size (size + 1) ticket key }
    ensures within { Within (columns cells.new) (size + 1) }
{
    set_key(cells, ticket, Some(key));
    sift_up(cells, size, ticket as u32, key);
}

// Takes the key of a ticket away, in a heap of `size` tickets: the ticket in the last slot goes to where it belongs,
// beginning at the slot that becomes free.
#[tactic(auto, using(crate::proofs::Columns::key_length))]
fn remove<K: Key>(cells: &mut [Cell<K>], size: usize, ticket: usize)
    requires few { size ≤ 64 }
    requires room { size ≤ length cells.old }
    requires some { 0 < size }
    requires ticket { ticket < length cells.old }
    requires within { Within (columns cells.old) size }
    ensures removes { Removes K.before cells.old cells.new size (size - 1) ticket }
    ensures within { Within (columns cells.new) size }
{
    let slot = slot_of(cells, ticket);
    let last = size - 1;
    set_key(cells, ticket, None);
    if slot < last {
        let moved = entry_at(cells, last);
        sift(cells, last, slot, moved.ticket, moved.key);
    }
}

// Gives another key to a ticket that holds one, in a heap of `size` tickets: the ticket goes from where it stands to where
// the key belongs.
#[tactic(auto, using(crate::proofs::Columns::key_length))]
fn change<K: Key>(cells: &mut [Cell<K>], size: usize, ticket: usize, key: K)
    requires few { size ≤ 64 }
    requires room { size ≤ length cells.old }
    requires ticket { ticket < length cells.old }
    requires number { ticket < 64 }
    requires within { Within (columns cells.old) size }
    ensures changes { Changes K.before cells.old cells.new size ticket key }
    ensures within { Within (columns cells.new) size }
{
    let slot = slot_of(cells, ticket);
    set_key(cells, ticket, Some(key));
    if slot < size {
        sift(cells, size, slot, ticket as u32, key);
    }
}

/// A ticket whose key has none before it, with the key, in a heap of `size` tickets: that of the first slot.
pub fn first<K: Key>(cells: &[Cell<K>], size: usize) -> Option<(usize, K)>
    requires few { size ≤ min (length cells.now) 64 }
    requires within { Within (columns (take 64 cells.now)) size }
    ensures earliest { Sound K.before (take 64 cells.now) size
        → Earliest cell_key K.before (take 64 cells.now) result }
    ensures within { IfSome result (λ found. found.0 < min (length cells.now) 64) }
    ensures some { IfSome result (λ found. 0 < size) }
{
    if size == 0 {
        return None;
    }
    let entry = entry_at(cells, 0);
    Some((entry.ticket as usize, entry.key))
}

/// Gives a key to a ticket that holds none, in the heap of `size` tickets in the first 64 cells, and answers
/// how many it has then.
pub fn insert_front<K: Key>(cells: &mut [Cell<K>], size: usize, ticket: usize, key: K) -> usize
    requires few { size ≤ min (length cells.old) 64 }
    requires ticket { ticket < min (length cells.old) 64 }
    requires within { Within (columns (take 64 cells.old)) size }
    ensures inserts { Inserts K.before
        (take 64 cells.old) (take 64 cells.new) size result ticket key }
    ensures few { result ≤ min (length cells.new) 64 }
    ensures more { size ≤ result }
    ensures within { Within (columns (take 64 cells.new)) result }
    ensures past { drop 64 cells.new ≡ drop 64 cells.old }
{
    let capacity = capacity(cells);
    if size >= capacity {
        return size;
    }
    insert(&mut cells[..capacity], size, ticket, key);
    size + 1
}

/// Takes the key of a ticket away, in the heap of `size` tickets in the first 64 cells, and answers how many
/// it has then.
pub fn remove_front<K: Key>(cells: &mut [Cell<K>], size: usize, ticket: usize) -> usize
    requires few { size ≤ min (length cells.old) 64 }
    requires ticket { ticket < min (length cells.old) 64 }
    requires within { Within (columns (take 64 cells.old)) size }
    ensures removes { Removes K.before (take 64 cells.old) (take 64 cells.new) size result ticket }
    ensures few { size ≤ min (length cells.new) 64 }
    ensures fewer { result ≤ size }
    ensures within { Within (columns (take 64 cells.new)) size }
    ensures past { drop 64 cells.new ≡ drop 64 cells.old }
{
    let capacity = capacity(cells);
    if size == 0 {
        return 0;
    }
    remove(&mut cells[..capacity], size, ticket);
    size - 1
}

/// Gives another key to a ticket that holds one, in the heap of `size` tickets in the first 64 cells.
pub fn change_front<K: Key>(cells: &mut [Cell<K>], size: usize, ticket: usize, key: K)
    requires few { size ≤ min (length cells.old) 64 }
    requires ticket { ticket < min (length cells.old) 64 }
    requires within { Within (columns (take 64 cells.old)) size }
    ensures changes { Changes K.before (take 64 cells.old) (take 64 cells.new) size ticket key }
    ensures few { size ≤ min (length cells.new) 64 }
    ensures within { Within (columns (take 64 cells.new)) size }
    ensures past { drop 64 cells.new ≡ drop 64 cells.old }
{
    let capacity = capacity(cells);
    change(&mut cells[..capacity], size, ticket, key);
}
