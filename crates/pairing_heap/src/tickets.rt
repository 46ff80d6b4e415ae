ghost use Rattle.std.specs.Prelude.{◌≡◌, ℕ, length, take, drop, None};
ghost use Rattle.event_queue.specs.Cells.{Earliest};
ghost use Rattle.pairing_heap.specs.Links.{columns, node_key, child_of, with_key};
ghost use Rattle.pairing_heap.specs.Melds.{MeldsPairs};
ghost use Rattle.pairing_heap.specs.Sound.{Sound, Inserts, Removes};

use crate::cut::cut;
use crate::links::{child_of, set_child, set_key};
use crate::meld::{meld, meld_pairs};
use crate::node::Node;
use event_queue::cells::{capacity, held};
use event_queue::key::Key;

// The functions here take cells and root one by one: a struct of the two would be made anew, on the first 64
// of the lent cells, at each call, and would have to hand the root back.

// Gives a key to a ticket that holds none, in the heap with this root: the ticket alone is melded with the
// root. It answers the root.
fn insert<K: Key>(
    cells: &mut [Node<K>],
    root: Option<usize>,
    ticket: usize,
    key: K,
) -> Option<usize>
    ensures { Inserts K.before cells.old cells.new root result ticket key }
{
    set_key(cells, ticket, Some(key));
    set_child(cells, ticket, None);
    meld(cells, root, Some(ticket))
}

// Takes the key of a root away and melds its children. It answers their root.
fn remove_root<K: Key>(cells: &mut [Node<K>], ticket: usize) -> Option<usize>
    ensures { MeldsPairs K.before (with_key (columns cells.old) ticket None) (columns cells.new)
        (child_of (columns cells.old) ticket) (length cells.old) result }
{
    let children = child_of(cells, ticket);
    set_key(cells, ticket, None);
    let fuel = cells.len();
    meld_pairs(cells, children, fuel)
}

// Takes the key of a ticket away, in the heap with this root: its tree is cut out, and its children are
// melded and then melded back. It answers the root.
fn remove<K: Key>(cells: &mut [Node<K>], root: Option<usize>, ticket: usize) -> Option<usize>
    ensures { Removes K.before cells.old cells.new root result ticket }
{
    if root == Some(ticket) {
        return remove_root(cells, ticket);
    }
    cut(cells, ticket);
    let children = remove_root(cells, ticket);
    meld(cells, root, children)
}

/// A ticket whose key has none before it, with the key: the root.
pub fn first<K: Key>(cells: &[Node<K>], root: Option<usize>) -> Option<(usize, K)>
    ensures { (size : ℕ) → Sound K.before (take 64 cells.now) root size
        → Earliest node_key K.before (take 64 cells.now) result }
{
    let ticket = root?;
    let key = held(cells, ticket).ok()??;
    Some((ticket, key))
}

/// Gives a key to a ticket that holds none, in the heap with this root in the first 64 cells, and answers
/// which ticket is the root then.
pub fn insert_front<K: Key>(
    cells: &mut [Node<K>],
    root: Option<usize>,
    ticket: usize,
    key: K,
) -> Option<usize>
    ensures inserts { Inserts K.before
        (take 64 cells.old) (take 64 cells.new) root result ticket key }
    ensures past { drop 64 cells.new ≡ drop 64 cells.old }
{
    let capacity = capacity(cells);
    insert(&mut cells[..capacity], root, ticket, key)
}

/// Takes the key of a ticket away, in the heap with this root in the first 64 cells, and answers which ticket
/// is the root then.
pub fn remove_front<K: Key>(
    cells: &mut [Node<K>],
    root: Option<usize>,
    ticket: usize,
) -> Option<usize>
    ensures removes { Removes K.before (take 64 cells.old) (take 64 cells.new) root result ticket }
    ensures past { drop 64 cells.new ≡ drop 64 cells.old }
{
    let capacity = capacity(cells);
    remove(&mut cells[..capacity], root, ticket)
}
