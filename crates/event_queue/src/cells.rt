ghost use Rattle.std.specs.Prelude.{◌≡◌, ℕ, min, map, length, take, drop, None, Option};
ghost use Rattle.event_queue.specs.Queues.{HeldBelow};
ghost use Rattle.event_queue.specs.Cells.{key_in};

use crate::key::Key;
use crate::queue::MOST_TICKETS;
use crate::refusal::Refusal;

/// A cell of the memory that a queue is lent: it holds a ticket's key, or none.
pub trait KeyCell: Copy {
    type Key: Key;

    ghost holds: { Self → Option Self.Key };

    // The same cell with no key in it.
    ghost cleared: { Self → Self };

    /// The key in the cell, or none.
    fn key(&self) -> Option<Self::Key>
        ensures { result ≡ holds self.now };

    /// Takes the key out of the cell, which becomes what `cleared` says.
    fn clear(&mut self)
        ensures { self.new ≡ cleared self.old };

    // a cleared cell holds no key
    ghost empties: { (cell : Self) → holds (cleared cell) ≡ None };
}

/// How many cells a queue uses: the first 64, or all if they are fewer.
pub fn capacity<C>(cells: &[C]) -> usize
    ensures { result ≡ min (length cells.now) 64 }
{
    cells.len().min(MOST_TICKETS)
}

/// The key that a ticket holds, or none. It refuses a number that is not below the capacity: 11.
// The number is compared with the capacity, which is the refusal's condition as its table has it, and not
// with the length of a part that `get` would look into.
pub fn held<C: KeyCell>(cells: &[C], ticket: usize) -> Result<Option<C::Key>, Refusal>
    ensures { HeldBelow (min (length cells.now) 64)
        (key_in C.holds (take 64 cells.now)) ticket result }
{
    if ticket >= capacity(cells) {
        return Err(Refusal::NoSuchTicket);
    }
    Ok(cells[ticket].key())
}

// Takes the key out of every cell.
#[tactic(auto, using(crate::proofs::Columns::over_more, crate::proofs::Columns::over_all))]
fn clear<C: KeyCell>(cells: &mut [C])
    ensures { cells.new ≡ map C.cleared cells.old }
{
    for cell in cells.iter_mut() {
        cell.clear();
    }
}

/// Takes the key out of each of the first 64 cells, or of all if they are fewer.
// That the others stay is said of this call and of each that writes to the first 64: it is about two states
// of memory that the caller keeps, which no type of ours holds.
pub fn clear_front<C: KeyCell>(cells: &mut [C])
    ensures cleared { take 64 cells.new ≡ map C.cleared (take 64 cells.old) }
    ensures empty { (i : ℕ) → key_in C.holds (take 64 cells.new) i ≡ None }
    ensures past { drop 64 cells.new ≡ drop 64 cells.old }
{
    let capacity = capacity(cells);
    clear(&mut cells[..capacity]);
}
