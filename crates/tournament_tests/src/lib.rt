//! Examples of the tournament, by itself and side by side with the sorted list.
#![tactic(auto)]

#[cfg(test)]
mod tests {
    use fairway::course::Course;
    use fairway::example::three_vessels;
    use fairway::stamp::Stamp;
    use kinetic::numbers::Numbers;
    use kinetic::refusal::Refusal;
    use kinetic::settle::{first_due, settle};
    use kinetic::structure::Structure;
    use sorted_list::list::SortedList;
    use std::test::Fail;
    use tournament::tournament::Tournament;

    // A course by number, speed and base.
    fn vessel(number: u16, speed: i16, base: i64) -> Course {
        Course {
            number,
            speed,
            base,
        }
    }

    // The course that a number has among 64: speeds from 0 to 3, and bases in steps of 6, so that any two are level
    // at a whole second.
    fn vessel_of_many(number: u16) -> Course {
        vessel(number, (number % 4) as i16, i64::from((number % 17) * 6))
    }

    // A whole second.
    fn second(seconds: u64) -> Stamp {
        Stamp {
            seconds,
            numerator: 0,
            denominator_less_one: 0,
        }
    }

    // The number of the refusal, or 0 where the call was accepted: the number is what the examples compare.
    fn refusal_of(answer: Result<Numbers, Refusal>) -> u8 {
        answer.map_or_else(u8::from, |_| 0)
    }

    // Whether the two, mended until none is due, have the same foremost.
    fn same_foremost(list: &mut SortedList, tournament: &mut Tournament, at: Stamp) -> bool {
        settle(list, at) == settle(tournament, at)
    }

    // The same vessel enters both.
    fn enter(
        list: &mut SortedList,
        tournament: &mut Tournament,
        course: Course,
        at: Stamp,
    ) -> Result<(), Refusal> {
        list.enter(course, at)?;
        tournament.enter(course, at)?;
        Ok(())
    }

    // The same vessel leaves both.
    fn leave(
        list: &mut SortedList,
        tournament: &mut Tournament,
        number: u16,
        at: Stamp,
    ) -> Result<(), Refusal> {
        list.leave(number, at)?;
        tournament.leave(number, at)?;
        Ok(())
    }

    // The same vessel takes a course on both.
    fn steer(
        list: &mut SortedList,
        tournament: &mut Tournament,
        course: Course,
        at: Stamp,
    ) -> Result<(), Refusal> {
        list.steer(course, at)?;
        tournament.steer(course, at)?;
        Ok(())
    }

    // No vessel: nothing is due, and there is no foremost.
    #[test]
    fn none(rt: HostRuntime) -> Result<(), Fail> {
        let mut list = SortedList::new(rt.alloc())?;
        let mut tournament = Tournament::new();
        assert_eq!(rt; tournament.count(), 0);
        assert_eq!(rt; tournament.load(), 0);
        assert_eq!(rt; tournament.foremost(), None);
        assert_eq!(rt; tournament.certificate(0), None);
        assert_eq!(rt; first_due(&tournament, second(9)), None);
        assert_eq!(rt; settle(&mut tournament, second(9)), None);
        assert!(rt; same_foremost(&mut list, &mut tournament, second(9)));
        Ok(())
    }

    // One vessel: it wins every match, none of which has a certificate.
    #[test]
    fn one(rt: HostRuntime) -> Result<(), Fail> {
        let mut list = SortedList::new(rt.alloc())?;
        let mut tournament = Tournament::new();
        enter(&mut list, &mut tournament, vessel(8, 3, 5), second(0))?;
        assert_eq!(rt; tournament.count(), 1);
        assert_eq!(rt; tournament.course(8), Some(vessel(8, 3, 5)));
        assert_eq!(rt; tournament.course(9), None);
        assert_eq!(rt; tournament.foremost(), Some(8));
        for number in 0..64 {
            assert_eq!(rt; tournament.certificate(number), None);
        }
        assert!(rt; same_foremost(&mut list, &mut tournament, second(9)));
        Ok(())
    }

    // Three that are all level at second 6 pass one another.
    #[test]
    fn three_pass(rt: HostRuntime) -> Result<(), Fail> {
        let mut list = SortedList::new(rt.alloc())?;
        let mut tournament = Tournament::new();
        for course in three_vessels() {
            enter(&mut list, &mut tournament, course, second(0))?;
        }
        assert_eq!(rt; tournament.foremost(), Some(5));
        assert_eq!(rt; tournament.load(), 11);
        assert_eq!(rt;
            tournament.certificate(31),
            Some((vessel(1, 3, 0), vessel(2, 2, 6)))
        );
        assert_eq!(rt;
            tournament.certificate(15),
            Some((vessel(2, 2, 6), vessel(5, 1, 12)))
        );
        assert_eq!(rt; first_due(&tournament, second(5)), None);
        assert_eq!(rt; first_due(&tournament, second(6)), Some(15));
        assert_eq!(rt; refusal_of(tournament.mend(15, second(5))), 6);
        assert!(rt; same_foremost(&mut list, &mut tournament, second(5)));
        assert!(rt; same_foremost(&mut list, &mut tournament, second(6)));
        assert_eq!(rt; tournament.foremost(), Some(1));
        assert_eq!(rt; tournament.load(), 0);
        assert_eq!(rt; first_due(&tournament, second(6)), None);
        Ok(())
    }

    // A change of a place plays the match of that place and those above it, from below up to the final, and a mend its
    // match and those above it; the load falls by what they counted.
    #[test]
    fn a_path_is_named(rt: HostRuntime) -> Result<(), Fail> {
        let mut tournament = Tournament::new();
        let named = tournament.enter(vessel(1, 3, 0), second(0))?;
        assert!(rt; named.as_slice() == [31, 15, 7, 3, 1, 0].as_slice());
        let named = tournament.enter(vessel(2, 2, 6), second(0))?;
        assert!(rt; named.as_slice() == [31, 15, 7, 3, 1, 0].as_slice());
        let named = tournament.enter(vessel(5, 1, 12), second(0))?;
        assert!(rt; named.as_slice() == [32, 15, 7, 3, 1, 0].as_slice());
        assert_eq!(rt; tournament.load(), 11);
        let named = tournament.mend(15, second(6))?;
        assert!(rt; named.as_slice() == [15, 7, 3, 1, 0].as_slice());
        assert_eq!(rt; tournament.load(), 6);
        assert_eq!(rt; tournament.foremost(), Some(2));
        let named = tournament.mend(31, second(6))?;
        assert!(rt; named.as_slice() == [31, 15, 7, 3, 1, 0].as_slice());
        assert_eq!(rt; tournament.load(), 0);
        assert_eq!(rt; tournament.foremost(), Some(1));
        let named = tournament.steer(vessel(5, 1, 12), second(6))?;
        assert!(rt; named.as_slice() == [32, 15, 7, 3, 1, 0].as_slice());
        let named = tournament.leave(5, second(6))?;
        assert!(rt; named.as_slice() == [32, 15, 7, 3, 1, 0].as_slice());
        Ok(())
    }

    // Level vessels that are equally fast stand by number, and keep so.
    #[test]
    fn equal_speeds(rt: HostRuntime) -> Result<(), Fail> {
        let mut list = SortedList::new(rt.alloc())?;
        let mut tournament = Tournament::new();
        for number in [9, 4, 7, 12, 1] {
            enter(&mut list, &mut tournament, vessel(number, 2, 30), second(1))?;
        }
        assert_eq!(rt; tournament.foremost(), Some(12));
        assert_eq!(rt; tournament.load(), 0);
        assert_eq!(rt; first_due(&tournament, second(100)), None);
        assert!(rt; same_foremost(&mut list, &mut tournament, second(100)));
        enter(&mut list, &mut tournament, vessel(3, 5, 0), second(2))?;
        assert_eq!(rt; tournament.load(), 6);
        for seconds in [2, 9, 10, 11] {
            assert!(rt; same_foremost(&mut list, &mut tournament, second(seconds)));
        }
        assert_eq!(rt; tournament.foremost(), Some(3));
        assert_eq!(rt; tournament.load(), 0);
        Ok(())
    }

    // Sixty-four, settled at each second, and after some have left, been steered and entered again.
    #[test]
    fn sixty_four(rt: HostRuntime) -> Result<(), Fail> {
        let mut list = SortedList::new(rt.alloc())?;
        let mut tournament = Tournament::new();
        for number in 1..65 {
            enter(
                &mut list,
                &mut tournament,
                vessel_of_many(number),
                second(0),
            )?;
        }
        assert_eq!(rt; tournament.count(), 64);
        for seconds in 0..20 {
            assert!(rt; same_foremost(&mut list, &mut tournament, second(seconds)));
        }
        for number in [64, 31, 10, 21, 43] {
            leave(&mut list, &mut tournament, number, second(20))?;
            assert!(rt; same_foremost(&mut list, &mut tournament, second(20)));
        }
        for number in [1, 32, 54] {
            steer(
                &mut list,
                &mut tournament,
                vessel(number, 3, -60),
                second(21),
            )?;
            assert!(rt; same_foremost(&mut list, &mut tournament, second(21)));
        }
        for number in [64, 10, 99] {
            enter(
                &mut list,
                &mut tournament,
                vessel(number, 3, -30),
                second(22),
            )?;
            assert!(rt; same_foremost(&mut list, &mut tournament, second(22)));
        }
        assert_eq!(rt; tournament.count(), list.count());
        for seconds in 23..120 {
            assert!(rt; same_foremost(&mut list, &mut tournament, second(seconds)));
        }
        assert_eq!(rt; tournament.load(), 0);
        Ok(())
    }

    // With 64 aboard there is no place; one that leaves frees its own.
    #[test]
    fn a_place_is_freed(rt: HostRuntime) -> Result<(), Fail> {
        let mut tournament = Tournament::new();
        for number in 1..65 {
            tournament.enter(vessel(number, 0, i64::from(number)), second(0))?;
        }
        assert_eq!(rt;
            refusal_of(tournament.enter(vessel(65, 0, 0), second(0))),
            5
        );
        assert_eq!(rt; tournament.foremost(), Some(64));
        tournament.leave(64, second(0))?;
        assert_eq!(rt; tournament.count(), 63);
        assert_eq!(rt; tournament.course(64), None);
        assert_eq!(rt; tournament.foremost(), Some(63));
        tournament.enter(vessel(65, 0, 0), second(0))?;
        assert_eq!(rt; tournament.count(), 64);
        assert_eq!(rt; tournament.course(65), Some(vessel(65, 0, 0)));
        assert_eq!(rt;
            refusal_of(tournament.enter(vessel(66, 0, 0), second(0))),
            5
        );
        Ok(())
    }

    // Each refusal, the topmost where two hold; and a refused call changes nothing.
    #[test]
    fn refusals(rt: HostRuntime) -> Result<(), Fail> {
        let mut tournament = Tournament::new();
        for number in 1..65 {
            tournament.enter(vessel(number, 0, 0), second(0))?;
        }
        assert_eq!(rt;
            refusal_of(tournament.enter(vessel(0, 2000, 0), second(0))),
            1
        );
        assert_eq!(rt;
            refusal_of(tournament.enter(vessel(3, 1001, 0), second(0))),
            2
        );
        assert_eq!(rt; refusal_of(tournament.enter(vessel(3, 1, 0), second(0))), 4);
        assert_eq!(rt;
            refusal_of(tournament.enter(vessel(65, 1, 0), second(0))),
            5
        );
        assert_eq!(rt; refusal_of(tournament.leave(0, second(0))), 1);
        assert_eq!(rt; refusal_of(tournament.leave(65, second(0))), 6);
        assert_eq!(rt; refusal_of(tournament.steer(vessel(0, 0, 0), second(0))), 1);
        assert_eq!(rt;
            refusal_of(tournament.steer(vessel(65, 1, -33_654_432_001), second(0))),
            2
        );
        assert_eq!(rt;
            refusal_of(tournament.steer(vessel(65, 1, 0), second(0))),
            6
        );
        assert_eq!(rt; refusal_of(tournament.mend(0, second(0))), 6);
        assert_eq!(rt; refusal_of(tournament.mend(63, second(0))), 6);
        assert_eq!(rt;
            refusal_of(tournament.mend(18_446_744_073_709_551_615, second(0))),
            6
        );
        assert_eq!(rt; tournament.count(), 64);
        assert_eq!(rt; tournament.foremost(), Some(64));
        Ok(())
    }

    // Clearing takes all out, and all places are free again.
    #[test]
    fn clearing(rt: HostRuntime) -> Result<(), Fail> {
        let mut tournament = Tournament::new();
        for number in 1..65 {
            tournament.enter(vessel_of_many(number), second(0))?;
        }
        tournament.clear();
        assert_eq!(rt; tournament.count(), 0);
        assert_eq!(rt; tournament.load(), 0);
        assert_eq!(rt; tournament.foremost(), None);
        assert_eq!(rt; tournament.course(1), None);
        for number in 0..63 {
            assert_eq!(rt; tournament.certificate(number), None);
        }
        for number in 101..165 {
            tournament.enter(vessel(number, 0, 0), second(3))?;
        }
        assert_eq!(rt; tournament.count(), 64);
        assert_eq!(rt; tournament.foremost(), Some(164));
        Ok(())
    }
}
