ghost use Rattle.std.specs.Prelude.{◌≡◌};
ghost use Rattle.pairing_heap.specs.Links.{
  columns,
  key_of,
  child_of,
  next_of,
  back_of,
  with_key,
  with_child,
  with_next,
  with_back,
  linked,
};

use crate::node::Node;
use event_queue::key::Key;

/// The key of a ticket.
pub fn key_of<K: Key>(cells: &[Node<K>], ticket: usize) -> Option<K>
    ensures { result ≡ key_of (columns cells.now) ticket }
{
    cells.get(ticket)?.key
}

// Each link has a function to read it and one to write it: they differ in the field and are one line each.

/// The first child of a ticket.
pub fn child_of<K: Key>(cells: &[Node<K>], ticket: usize) -> Option<usize>
    ensures { result ≡ child_of (columns cells.now) ticket }
{
    cells.get(ticket)?.child
}

/// The next sibling of a ticket.
pub fn next_of<K: Key>(cells: &[Node<K>], ticket: usize) -> Option<usize>
    ensures { result ≡ next_of (columns cells.now) ticket }
{
    cells.get(ticket)?.next
}

/// The sibling before a ticket or, at a first child, the parent.
pub fn back_of<K: Key>(cells: &[Node<K>], ticket: usize) -> Option<usize>
    ensures { result ≡ back_of (columns cells.now) ticket }
{
    cells.get(ticket)?.back
}

// The writes below compare the number themselves, since nothing is promised of what a slice holds after a
// write through its `get_mut`. Each heap has a `set_key` of its own, which promises that the other columns of
// its cells stay.

/// Gives a ticket a key, or none.
#[tactic(auto, using(crate::proofs::Columns::key_set, crate::proofs::Columns::key_unset))]
pub fn set_key<K: Key>(cells: &mut [Node<K>], ticket: usize, key: Option<K>)
    ensures { columns cells.new ≡ with_key (columns cells.old) ticket key }
{
    if ticket < cells.len() {
        cells[ticket].key = key;
    }
}

/// Writes the first child of a ticket.
#[tactic(auto, using(crate::proofs::Columns::child_set, crate::proofs::Columns::child_unset))]
pub fn set_child<K: Key>(cells: &mut [Node<K>], ticket: usize, child: Option<usize>)
    ensures { columns cells.new ≡ with_child (columns cells.old) ticket child }
{
    if ticket < cells.len() {
        cells[ticket].child = child;
    }
}

/// Writes the next sibling of a ticket.
#[tactic(auto, using(crate::proofs::Columns::next_set, crate::proofs::Columns::next_unset))]
pub fn set_next<K: Key>(cells: &mut [Node<K>], ticket: usize, next: Option<usize>)
    ensures { columns cells.new ≡ with_next (columns cells.old) ticket next }
{
    if ticket < cells.len() {
        cells[ticket].next = next;
    }
}

/// Writes what stands before the ticket that a link leads to, if it leads to one.
#[tactic(auto, using(crate::proofs::Columns::back_set, crate::proofs::Columns::back_unset))]
pub fn set_back<K: Key>(cells: &mut [Node<K>], link: Option<usize>, back: usize)
    ensures { columns cells.new ≡ with_back (columns cells.old) link back }
{
    let Some(ticket) = link else {
        return;
    };
    if ticket < cells.len() {
        cells[ticket].back = Some(back);
    }
}

/// Makes a root the first child of another root.
#[tactic(auto, using(crate::proofs::Columns::link_columns))]
pub fn link<K: Key>(cells: &mut [Node<K>], parent: usize, child: usize)
    ensures { columns cells.new ≡ linked (columns cells.old) parent child }
{
    let first = child_of(cells, parent);
    set_next(cells, child, first);
    set_back(cells, first, child);
    set_child(cells, parent, Some(child));
    set_back(cells, Some(child), parent);
}
