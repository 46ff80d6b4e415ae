ghost use Rattle.std.specs.Prelude.{◌≡◌, ℕ, ◌+◌, ◌*◌, ◌<◌, ◌≤◌, length, Some};
ghost use Rattle.binary_heap.specs.Slots.{columns, key_at, Within, seated};
ghost use Rattle.binary_heap.specs.Orders.{LaterParent, FirstChild, SoonerChild};
ghost use Rattle.binary_heap.specs.Sifts.{SiftsUp, SiftsDown, Sifts};

use crate::cell::Cell;
use crate::slots::{Entry, entry_at, key_at, seat};
use event_queue::key::Key;

// A sift moves the entries that it passes into a slot that is free to be written, each one step, and seats its own
// entry once, at the end. Its contract speaks of the cells with the entry seated in the slot that it starts from.

// What stands in the parent slot, where its key comes later than the given one; none also for the top slot.
fn later_parent<K: Key>(cells: &[Cell<K>], slot: usize, key: K) -> Option<Entry<K>>
    requires { slot < length cells.now }
    ensures { LaterParent K.before (columns cells.now) slot key result }
{
    if slot == 0 {
        return None;
    }
    let above = entry_at(cells, (slot - 1) / 2);
    key.is_before(&above.key).then_some(above)
}

/// Brings an entry from a slot up to where its key belongs.
#[tactic(auto, using(crate::proofs::Columns::key_length))]
pub fn sift_up<K: Key>(cells: &mut [Cell<K>], slot: usize, ticket: u32, key: K)
    requires slot { slot < length cells.old }
    requires ticket { ticket < length cells.old }
    requires within { Within (columns cells.old) slot }
    ensures sifts { (n : ℕ) → slot < n → SiftsUp K.before
        (seated (columns cells.old) slot ticket (Some key)) (columns cells.new) n slot }
    ensures within { (n : ℕ) → Within (seated (columns cells.old) slot ticket (Some key)) n
        → Within (columns cells.new) n }
{
    let mut at = slot;
    while let Some(above) = later_parent(cells, at, key) {
        seat(cells, at, above.ticket, above.key);
        at = (at - 1) / 2;
    }
    seat(cells, at, ticket, key);
}

// The child of a slot whose key comes first, of a slot that has one.
fn first_child<K: Key>(cells: &[Cell<K>], size: usize, slot: usize) -> usize
    requires few { size ≤ 64 }
    requires room { size ≤ length cells.now }
    requires some { 2 * slot + 1 < size }
    ensures { FirstChild K.before (key_at (columns cells.now)) size slot result }
{
    let right = 2 * slot + 2;
    if right < size && key_at(cells, right).is_before(&key_at(cells, right - 1)) {
        right
    } else {
        right - 1
    }
}

// The child of a slot whose key comes first, where it comes sooner than the given key; none where no child's
// does, or the slot has none.
fn sooner_child<K: Key>(cells: &[Cell<K>], size: usize, slot: usize, key: K) -> Option<usize>
    requires few { size ≤ 64 }
    requires room { size ≤ length cells.now }
    ensures { SoonerChild K.before (columns cells.now) size slot key result }
{
    if slot >= size / 2 {
        return None;
    }
    let child = first_child(cells, size, slot);
    key_at(cells, child).is_before(&key).then_some(child)
}

/// Brings an entry from a slot down to where its key belongs.
#[tactic(auto, using(crate::proofs::Columns::key_length))]
pub fn sift_down<K: Key>(cells: &mut [Cell<K>], size: usize, slot: usize, ticket: u32, key: K)
    requires few { size ≤ 64 }
    requires room { size ≤ length cells.old }
    requires slot { slot < size }
    requires ticket { ticket < length cells.old }
    requires within { Within (columns cells.old) size }
    ensures sifts { SiftsDown K.before (seated (columns cells.old) slot ticket (Some key))
        (columns cells.new) size slot }
    ensures within { (n : ℕ) → Within (seated (columns cells.old) slot ticket (Some key)) n
        → Within (columns cells.new) n }
{
    let mut at = slot;
    while let Some(child) = sooner_child(cells, size, at, key) {
        let below = entry_at(cells, child);
        seat(cells, at, below.ticket, below.key);
        at = child;
    }
    seat(cells, at, ticket, key);
}

/// Brings an entry from a slot to where its key belongs, up or down.
pub fn sift<K: Key>(cells: &mut [Cell<K>], size: usize, slot: usize, ticket: u32, key: K)
    requires few { size ≤ 64 }
    requires room { size ≤ length cells.old }
    requires slot { slot < size }
    requires ticket { ticket < length cells.old }
    requires within { Within (columns cells.old) size }
    ensures sifts { Sifts K.before (seated (columns cells.old) slot ticket (Some key))
        (columns cells.new) size slot }
    ensures within { (n : ℕ) → Within (seated (columns cells.old) slot ticket (Some key)) n
        → Within (columns cells.new) n }
{
    match later_parent(cells, slot, key) {
        Some(_) => sift_up(cells, slot, ticket, key),
        None => sift_down(cells, size, slot, ticket, key),
    }
}
