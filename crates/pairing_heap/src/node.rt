ghost use Rattle.std.specs.Prelude.{refl};
ghost use Rattle.pairing_heap.specs.Links.{node_key, node_cleared};

use event_queue::cells::KeyCell;
use event_queue::key::Key;

/// A cell of a pairing heap, one for each ticket number: the key that the ticket holds, and its links to
/// other tickets. `child` is the first child, `next` the next sibling, and `back` the sibling before it
/// or, at a first child, the parent. A link is a ticket number and no pointer, since all nodes are in the
/// cells that the caller lends: the heap takes no memory of its own.
#[derive(Clone, Copy)]
pub struct Node<K> {
    pub key: Option<K>,
    pub child: Option<usize>,
    pub next: Option<usize>,
    pub back: Option<usize>,
}

impl<K: Key> KeyCell for Node<K> {
    type Key = K;

    ghost holds = { node_key };

    ghost cleared = { node_cleared };

    ghost empties = { λ cell. refl };

    fn key(&self) -> Option<K> {
        self.key
    }

    fn clear(&mut self) {
        self.key = None;
    }
}
