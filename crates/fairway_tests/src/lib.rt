//! Examples of the fairway's calls, run.
#![tactic(auto)]

#[cfg(test)]
mod tests {
    use binary_heap::cell::Cell;
    use binary_heap::heap::BinaryHeap;
    use event_queue::queue::Queue;
    use fairway::course::Course;
    use fairway::example::three_vessels;
    use fairway::instant::Instant;
    use fairway::order::{first_due, is_sorted, load, mend, stands_until, turned_pairs};
    use fairway::pair::Pair;
    use fairway::stamp::Stamp;
    use std::test::Fail;

    // A course by number, base and speed, as the tables of these examples have them.
    fn vessel(number: u16, base: i64, speed: i16) -> Course {
        Course {
            number,
            speed,
            base,
        }
    }

    // A stamp by its three numbers.
    fn stamp(seconds: u64, numerator: u16, denominator_less_one: u16) -> Stamp {
        Stamp {
            seconds,
            numerator,
            denominator_less_one,
        }
    }

    // An instant's three numbers, or the number of the refusal: the number is what the examples compare.
    fn made(seconds: u64, numerator: u16, denominator: u16) -> Result<(u64, u16, u16), u8> {
        let instant = Instant::new(seconds, numerator, denominator)?;
        Ok((
            instant.seconds(),
            instant.numerator(),
            instant.denominator(),
        ))
    }

    #[test]
    fn instants(rt: HostRuntime) {
        assert_eq!(rt; made(3, 2, 4), Ok((3, 1, 2)));
        assert_eq!(rt; made(16_777_216, 0, 1), Ok((16_777_216, 0, 1)));
        assert_eq!(rt; made(16_777_216, 0, 7), Ok((16_777_216, 0, 1)));
        assert_eq!(rt; made(0, 999, 1000), Ok((0, 999, 1000)));
        assert_eq!(rt; made(16_777_216, 1, 2), Err(7));
        assert_eq!(rt; made(16_777_217, 0, 1), Err(7));
        assert_eq!(rt; made(3, 2, 2), Err(7));
        assert_eq!(rt; made(3, 0, 0), Err(7));
        assert_eq!(rt; made(3, 0, 1001), Err(7));
    }

    #[test]
    fn meetings(rt: HostRuntime) {
        assert_eq!(rt;
            Pair::new(vessel(7, 0, 3), vessel(3, 10, 1)).level_instant(),
            Some(stamp(5, 0, 0))
        );
        assert_eq!(rt;
            Pair::new(vessel(1, 0, 5), vessel(2, 7, 3)).level_instant(),
            Some(stamp(3, 1, 1))
        );
        assert_eq!(rt;
            Pair::new(vessel(1, 0, 3), vessel(2, 7, 5)).level_instant(),
            None
        );
        assert_eq!(rt;
            Pair::new(vessel(1, 8, 5), vessel(2, 7, 3)).level_instant(),
            None
        );
        assert_eq!(rt;
            Pair::new(vessel(9, 100, 2), vessel(4, 100, 2)).level_instant(),
            None
        );
        assert_eq!(rt;
            Pair::new(vessel(9, 100, 2), vessel(4, 100, 2)).is_due(stamp(8, 0, 0)),
            false
        );
        assert_eq!(rt;
            Pair::new(vessel(4, 100, 2), vessel(9, 100, 2)).is_in_order(stamp(8, 0, 0)),
            true
        );
    }

    #[test]
    fn positions(rt: HostRuntime) -> Result<(), Fail> {
        let at = Instant::new(2, 1, 2)?;
        assert_eq!(rt; vessel(1, -10, 1).position(at), -15);
        assert_eq!(rt; vessel(1, -10, 1).position(Instant::start()), -10);
        assert_eq!(rt; vessel(1, 33_654_432_000, -1000).is_in_range(), true);
        assert_eq!(rt; vessel(1, 33_654_432_001, 0).is_in_range(), false);
        assert_eq!(rt; vessel(1, 0, 1001).is_in_range(), false);
        assert_eq!(rt; vessel(0, 0, 0).is_in_range(), false);
        Ok(())
    }

    #[test]
    fn orders(rt: HostRuntime) {
        let mut rows = three_vessels();
        assert_eq!(rt; load(&rows), 3);
        assert_eq!(rt; turned_pairs(&rows, stamp(0, 0, 0), stamp(6, 0, 0)), 3);
        assert_eq!(rt; turned_pairs(&rows, stamp(0, 0, 0), stamp(5, 1, 1)), 0);
        assert_eq!(rt; stands_until(&rows, stamp(6, 0, 0)), true);
        assert_eq!(rt; stands_until(&rows, stamp(6, 1, 1)), false);
        assert_eq!(rt; first_due(&rows, stamp(6, 0, 0)), Some(0));
        assert_eq!(rt; mend(&mut rows, 0, stamp(6, 0, 0)), true);
        assert_eq!(rt; mend(&mut rows, 1, stamp(6, 0, 0)), true);
        assert_eq!(rt; mend(&mut rows, 0, stamp(6, 0, 0)), true);
        assert_eq!(rt; mend(&mut rows, 2, stamp(6, 0, 0)), false);
        assert_eq!(rt; load(&rows), 0);
        assert_eq!(rt; is_sorted(&rows, stamp(6, 0, 0)), true);
    }

    // Stamps are keys of a binary heap: the earliest comes first, and 2/4 comes back as 2/4.
    #[test]
    fn keys(rt: HostRuntime) {
        let mut cells = [Cell {
            key: None,
            slot: 0,
            ticket: 0,
            slot_key: stamp(0, 0, 0),
        }; 3];
        let mut queue = BinaryHeap::new(&mut cells);
        assert_eq!(rt; queue.put(0, stamp(3, 2, 3)), Ok(()));
        assert_eq!(rt; queue.put(1, stamp(3, 2, 2)), Ok(()));
        assert_eq!(rt; queue.put(2, stamp(2, 9, 8)), Ok(()));
        let limit = stamp(4, 0, 0);
        assert_eq!(rt; queue.take(limit), Some((2, stamp(2, 9, 8))));
        assert_eq!(rt; queue.take(limit), Some((0, stamp(3, 2, 3))));
        assert_eq!(rt; queue.take(limit), Some((1, stamp(3, 2, 2))));
        assert_eq!(rt; queue.take(limit), None);
    }
}
