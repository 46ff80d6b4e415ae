ghost use Rattle.std.specs.Prelude.{◌≡◌, drop};
ghost use Rattle.queue_tests.specs.Sheets.{CellsStay};

use binary_heap::cell::Cell;
use binary_heap::heap::BinaryHeap;
use call_sheet::sheet::CallSheet;
use event_queue::queue::Queue;
use pairing_heap::heap::PairingHeap;
use pairing_heap::node::Node;

// Sets a binary heap up in a caller's cells, whatever they hold, gives two tickets a key and takes one out: the cells past
// the 64th are as they were.
fn take_from_binary(cells: &mut [Cell<u32>]) -> bool
    ensures { drop 64 cells.new ≡ drop 64 cells.old }
{
    let mut queue: BinaryHeap<u32> = BinaryHeap::new(cells);
    let _ = queue.put(3, 7);
    let _ = queue.put(5, 9);
    queue.take(8).is_some()
}

// Sets a pairing heap up in a caller's cells, whatever they hold, gives a ticket two keys in turn and takes it out: the
// cells past the 64th are as they were.
fn take_from_pairing(cells: &mut [Node<u32>]) -> bool
    ensures { drop 64 cells.new ≡ drop 64 cells.old }
{
    let mut queue: PairingHeap<u32> = PairingHeap::new(cells);
    let _ = queue.put(3, 7);
    let _ = queue.rekey(3, 9);
    queue.take(8).is_some()
}

// Awaits a line, hears another and hands one out, on a sheet over a binary heap in a caller's cells. What the caller of
// the sheet learns of them is said of the heap in it: the check follows a borrow through the fields that a struct
// declares, and not through a type parameter, so that of a sheet that is gone only the number of the cells comes back.
fn hail_in_lent_cells(sheet: &mut CallSheet<BinaryHeap<u32>>) -> bool
    ensures { CellsStay sheet.old sheet.new }
{
    let _ = sheet.await_at(3, 7);
    let _ = sheet.heard(5);
    sheet.overdue(8).is_some()
}
