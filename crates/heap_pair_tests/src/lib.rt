//! Examples of both heaps side by side: what the one answers is compared with what the other does.
#![tactic(auto)]

#[cfg(test)]
mod tests {
    use binary_heap::cell::Cell;
    use binary_heap::heap::BinaryHeap;
    use call_sheet::sheet::CallSheet;
    use event_queue::queue::{MOST_TICKETS, Queue};
    use pairing_heap::heap::PairingHeap;
    use pairing_heap::node::Node;
    use radio_watch::watch::stand_watch;
    use std::process::Abort;
    use std::test::Fail;

    // How many cells are lent at most: some more than a queue uses.
    const MOST_CELLS: usize = 70;

    // A cell with a key and a slot that a new heap does not heed.
    const CELL: Cell<u32> = Cell {
        key: Some(7),
        slot: 69,
        ticket: 70,
        slot_key: 71,
    };

    // A node with a key and links that a new heap does not heed.
    const NODE: Node<u32> = Node {
        key: Some(7),
        child: Some(3),
        next: Some(3),
        back: Some(70),
    };

    // Makes one call on both queues, drawn from the number of the turn, and says whether they agree.
    // The two queues differ in type, so each kind of call is written out.
    fn agree<A: Queue<Key = u32>, B: Queue<Key = u32>>(a: &mut A, b: &mut B, turn: u32) -> bool {
        let drawn = turn.wrapping_mul(40503) % 65536;
        let ticket = (drawn / 7 % 68) as usize;
        match drawn / 64 % 8 {
            0 | 1 => a.put(ticket, drawn) == b.put(ticket, drawn),
            2 => a.rekey(ticket, drawn) == b.rekey(ticket, drawn),
            3 => a.drop(ticket) == b.drop(ticket),
            4 | 5 => a.take(drawn) == b.take(drawn),
            6 => a.held(ticket) == b.held(ticket),
            _ => a.size() == b.size(),
        }
    }

    // Offers both queues a key for each number from 0 to 70, each key before the last, and then empties them.
    fn fill_and_empty<A: Queue<Key = u32>, B: Queue<Key = u32>>(
        rt: &impl Abort,
        a: &mut A,
        b: &mut B,
        capacity: usize,
    ) {
        assert!(rt; a.capacity() == capacity);
        assert!(rt; b.capacity() == capacity);
        for ticket in 0..71 {
            let key = 100 - ticket as u32;
            assert!(rt; a.put(ticket, key) == b.put(ticket, key));
            assert!(rt; a.put(ticket, 0) == b.put(ticket, 0));
            assert!(rt; a.held(ticket) == b.held(ticket));
        }
        assert!(rt; b.size() == capacity);
        assert!(rt; b.take(29).is_none());
        for ticket in 0..71 {
            assert!(rt; a.drop(ticket / 2) == b.drop(ticket / 2));
            assert!(rt; a.take(100) == b.take(100));
        }
        assert!(rt; a.size() == 0);
        assert!(rt; b.size() == 0);
    }

    // Heaps in no cell, in one, and in about 64: the cells past the 64th keep what they held.
    #[test]
    fn edges(rt: HostRuntime) {
        for (count, capacity) in [(0, 0), (1, 1), (63, 63), (64, 64), (65, 64), (70, 64)] {
            assert!(rt; count <= MOST_CELLS);
            let mut cells = [CELL; MOST_CELLS];
            let mut nodes = [NODE; MOST_CELLS];
            let mut a: BinaryHeap<u32> = BinaryHeap::new(&mut cells[0..count]);
            let mut b: PairingHeap<u32> = PairingHeap::new(&mut nodes[0..count]);
            fill_and_empty(&rt, &mut a, &mut b, capacity);
            assert!(rt; nodes[MOST_TICKETS - 1].key.is_none() == (capacity == MOST_TICKETS));
            assert!(rt; nodes[MOST_TICKETS].key.is_some());
        }
    }

    // A long run of calls at distinct keys, refused ones among them, until both heaps are empty.
    #[test]
    fn same_answers(rt: HostRuntime) {
        let mut cells = [CELL; MOST_TICKETS];
        let mut nodes = [NODE; MOST_TICKETS];
        let mut a: BinaryHeap<u32> = BinaryHeap::new(&mut cells);
        let mut b: PairingHeap<u32> = PairingHeap::new(&mut nodes);
        for turn in 0..2000 {
            assert!(rt; agree(&mut a, &mut b, turn));
        }
        assert!(rt; b.size() > 0);
        for _ in 0..MOST_TICKETS + 1 {
            assert!(rt; a.take(u32::MAX) == b.take(u32::MAX));
        }
        assert!(rt; b.size() == 0);
    }

    // A watch with no two lines awaited at one second: the report is the same over both heaps, and the cells past the
    // 64th keep what they held under the sheet too.
    #[test]
    fn same_reports(rt: HostRuntime) -> Result<(), Fail> {
        let script =
            b"await 3 600\nawait 7 540\nawait 9 610\nawait 3 700\noverdue 599\nheard 9\noverdue 800\noverdue 800\nhail 3\nheard 64";
        let mut cells = [CELL; MOST_CELLS];
        let mut nodes = [NODE; MOST_CELLS];
        let a: BinaryHeap<u32> = BinaryHeap::new(&mut cells);
        let b: PairingHeap<u32> = PairingHeap::new(&mut nodes);
        let first = stand_watch(rt.alloc(), &mut CallSheet::new(a), script)?;
        let second = stand_watch(rt.alloc(), &mut CallSheet::new(b), script)?;
        assert_eq!(rt; first.as_str(), second.as_str());
        assert!(rt; cells[MOST_TICKETS].key == CELL.key && nodes[MOST_TICKETS].key == NODE.key);
        Ok(())
    }
}
