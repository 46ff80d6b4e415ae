//! Examples of what the sorted list answers, and of settling it.

#![tactic(auto)]

#[cfg(test)]
mod tests {
    use fairway::course::Course;
    use fairway::example::three_vessels;
    use fairway::stamp::Stamp;
    use kinetic::numbers::Numbers;
    use kinetic::refusal::Refusal;
    use kinetic::settle::{first_due, settle};
    use kinetic::structure::Structure;
    use sorted_list::list::SortedList;
    use std::test::Fail;

    // A course by number, speed and base, as the tables of these examples have them.
    fn vessel(number: u16, speed: i16, base: i64) -> Course {
        Course {
            number,
            speed,
            base,
        }
    }

    // A whole second.
    fn second(seconds: u64) -> Stamp {
        Stamp {
            seconds,
            numerator: 0,
            denominator_less_one: 0,
        }
    }

    // The number of the refusal, or 0 where the call was accepted: the number is what the examples compare.
    fn refusal_of(answer: Result<Numbers, Refusal>) -> u8 {
        answer.map_or_else(u8::from, |_| 0)
    }

    // The numbers of the first four from the rear, 0 where there are fewer.
    fn numbers_of(list: &SortedList) -> [u16; 4] {
        let mut numbers = [0; 4];
        for (number, course) in numbers.iter_mut().zip(list.courses()) {
            *number = course.number;
        }
        numbers
    }

    // Three that are all level at second 6 pass one another: the generic loop mends three times.
    #[test]
    fn three_pass(rt: HostRuntime) -> Result<(), Fail> {
        let mut list = SortedList::new(rt.alloc())?;
        for course in three_vessels() {
            list.enter(course, second(0))?;
        }
        assert_eq!(rt; list.load(), 3);
        assert_eq!(rt; list.foremost(), Some(5));
        assert_eq!(rt; first_due(&list, second(5)), None);
        assert_eq!(rt; first_due(&list, second(6)), Some(0));
        assert_eq!(rt; settle(&mut list, second(6)), Some(1));
        assert_eq!(rt; list.load(), 0);
        assert_eq!(rt; list.rank(1, second(6))?, 1);
        assert_eq!(rt; list.rank(5, second(6))?, 3);
        assert_eq!(rt; list.ahead(5)?, Some(vessel(2, 2, 6)));
        assert_eq!(rt; list.ahead(1)?, None);
        assert_eq!(rt; list.astern(1)?, Some(vessel(2, 2, 6)));
        assert_eq!(rt; list.astern(5)?, None);
        Ok(())
    }

    // A mend exchanges two neighbours and names the three certificates around them.
    #[test]
    fn a_mend_names_three(rt: HostRuntime) -> Result<(), Fail> {
        let mut list = SortedList::new(rt.alloc())?;
        list.enter(vessel(1, 0, 0), second(0))?;
        list.enter(vessel(2, 3, 5), second(0))?;
        list.enter(vessel(3, 1, 9), second(0))?;
        list.enter(vessel(4, 1, 30), second(0))?;
        assert_eq!(rt;
            list.certificate(1),
            Some((vessel(2, 3, 5), vessel(3, 1, 9)))
        );
        assert_eq!(rt; refusal_of(list.mend(1, second(1))), 6);
        let named = list.mend(1, second(2))?;
        assert!(rt; named.as_slice() == [0, 1, 2].as_slice());
        assert_eq!(rt;
            list.certificate(1),
            Some((vessel(3, 1, 9), vessel(2, 3, 5)))
        );
        assert_eq!(rt; list.count(), 4);
        Ok(())
    }

    // Level vessels stand by speed, and by number where they are equally fast; a turn moves one.
    #[test]
    fn level_vessels(rt: HostRuntime) -> Result<(), Fail> {
        let mut list = SortedList::new(rt.alloc())?;
        list.enter(vessel(9, 1, 0), second(0))?;
        list.enter(vessel(7, 2, 0), second(0))?;
        list.enter(vessel(5, 1, 0), second(0))?;
        assert!(rt;
            list.courses() == [vessel(5, 1, 0), vessel(9, 1, 0), vessel(7, 2, 0)].as_slice()
        );
        list.steer(vessel(7, 0, 0), second(0))?;
        assert!(rt;
            list.courses() == [vessel(7, 0, 0), vessel(5, 1, 0), vessel(9, 1, 0)].as_slice()
        );
        list.leave(5, second(0))?;
        assert!(rt; list.courses() == [vessel(7, 0, 0), vessel(9, 1, 0)].as_slice());
        list.clear();
        assert_eq!(rt; list.foremost(), None);
        Ok(())
    }

    // While two certificates are due, changes are made before the mends: the list, its load and the numbers that are
    // named after each.
    #[test]
    fn changes_before_mends(rt: HostRuntime) -> Result<(), Fail> {
        let six = second(6);
        let mut list = SortedList::new(rt.alloc())?;
        for course in three_vessels() {
            list.enter(course, second(0))?;
        }
        let named = list.enter(vessel(7, 2, 6), six)?;
        assert!(rt; named.as_slice() == [0, 1, 2].as_slice());
        assert!(rt; numbers_of(&list) == [7, 1, 2, 5]);
        assert_eq!(rt; list.load(), 4);
        let named = list.leave(2, six)?;
        assert!(rt; named.as_slice() == [1, 2].as_slice());
        assert!(rt; numbers_of(&list) == [7, 1, 5, 0]);
        assert_eq!(rt; list.load(), 2);
        let named = list.steer(vessel(1, 0, 18), six)?;
        assert!(rt; named.as_slice() == [0, 1].as_slice());
        assert!(rt; numbers_of(&list) == [1, 7, 5, 0]);
        assert_eq!(rt; list.load(), 1);
        let named = list.mend(1, six)?;
        assert!(rt; named.as_slice() == [0, 1, 2].as_slice());
        assert!(rt; numbers_of(&list) == [1, 5, 7, 0]);
        assert_eq!(rt; list.load(), 0);
        Ok(())
    }

    // Each refusal, the topmost where two hold.
    #[test]
    fn refusals(rt: HostRuntime) -> Result<(), Fail> {
        let mut list = SortedList::new(rt.alloc())?;
        for number in 1..65 {
            list.enter(vessel(number, 0, 0), second(0))?;
        }
        assert_eq!(rt; refusal_of(list.enter(vessel(0, 2000, 0), second(0))), 1);
        assert_eq!(rt; refusal_of(list.enter(vessel(3, 1001, 0), second(0))), 2);
        assert_eq!(rt; refusal_of(list.enter(vessel(3, 1, 0), second(0))), 4);
        assert_eq!(rt; refusal_of(list.enter(vessel(65, 1, 0), second(0))), 5);
        assert_eq!(rt; refusal_of(list.leave(0, second(0))), 1);
        assert_eq!(rt; refusal_of(list.leave(65, second(0))), 6);
        assert_eq!(rt;
            refusal_of(list.steer(vessel(65, 1, -33_654_432_001), second(0))),
            2
        );
        assert_eq!(rt; refusal_of(list.steer(vessel(65, 1, 0), second(0))), 6);
        assert_eq!(rt; list.count(), 64);
        Ok(())
    }
}
