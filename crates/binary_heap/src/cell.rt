ghost use Rattle.std.specs.Prelude.{refl};
ghost use Rattle.binary_heap.specs.Slots.{cell_key, cell_cleared};

use event_queue::cells::KeyCell;
use event_queue::key::Key;

/// A cell of a binary heap. By ticket number it has the key that the ticket holds and the slot of the heap
/// in which the ticket stands; by slot it has the ticket that stands there, and that ticket's key once more, so
/// that a sift reads the slots alone. The two numberings share the cells that the caller lends: the heap takes no
/// memory of its own. What a caller writes into `slot`, `ticket` and `slot_key` is never read.
///
/// A ticket number is below 64. In 32 bits it leaves a cell with a short key at three words, and the place of such
/// a cell is one instruction away from its number.
#[derive(Clone, Copy)]
pub struct Cell<K> {
    pub key: Option<K>,
    pub slot: usize,
    pub ticket: u32,
    pub slot_key: K,
}

impl<K: Key> KeyCell for Cell<K> {
    type Key = K;

    ghost holds = { cell_key };

    ghost cleared = { cell_cleared };

    ghost empties = { λ cell. refl };

    fn key(&self) -> Option<K> {
        self.key
    }

    fn clear(&mut self) {
        self.key = None;
    }
}
