//! Examples of order lines and stop lines, written and refused.

#![tactic(auto)]

#[cfg(test)]
mod tests {
    use fairway::course::Course;
    use fairway::instant::Instant;
    use lines::order_lines::write_order_line;
    use lines::refusal::NoRoom;
    use lines::stop_lines::write_stop_line;
    use std::process::Abort;
    use std::test::Fail;

    // What every byte of a page is before a line is written.
    const BLANK: u8 = b'.';

    // The most courses of an example.
    const MOST: usize = 64;

    // A course at rest with this number.
    fn vessel(number: u16) -> Course {
        Course {
            number,
            speed: 0,
            base: 0,
        }
    }

    // An example's instant, by seconds, numerator and denominator, and its vessels' numbers from rear to front.
    type Order<'a> = ((u64, u16, u16), &'a [u16]);

    // Writes the line of an order onto a page, and answers how many bytes it has.
    fn write_order(order: Order<'_>, page: &mut [u8]) -> Result<Result<usize, NoRoom>, Fail> {
        let ((seconds, numerator, denominator), numbers) = order;
        let at = Instant::new(seconds, numerator, denominator)?;
        let mut courses = [vessel(0); MOST];
        for (course, number) in courses.iter_mut().zip(numbers) {
            course.number = *number;
        }
        let count = numbers.len().min(MOST);
        Ok(write_order_line(at, &courses[..count], page))
    }

    // What is to be on a page of which so many bytes were lent for a line: the line at the front, or nothing where they
    // are too few, and behind it what was there before.
    fn check_page(
        rt: &impl Abort,
        page: &[u8],
        lent: usize,
        answer: Result<usize, NoRoom>,
        line: &[u8],
    ) {
        let length = line.len();
        let count = if lent < length { 0 } else { length };
        let wanted = if lent < length {
            Err(NoRoom)
        } else {
            Ok(length)
        };
        assert_eq!(rt; answer, wanted);
        let (front, behind) = page.split_at(count.min(page.len()));
        assert!(rt; lent < length || front == line);
        assert!(rt; behind.iter().all(|byte| *byte == BLANK));
    }

    const FULL: [u16; MOST] = [10_000; MOST];

    const ORDERS: [(Order<'static>, &[u8]); 12] = [
        (((4, 1, 2), &[7, 3]), b"4 1/2: 3 7\n"),
        (((4, 2, 4), &[7, 3]), b"4 1/2: 3 7\n"),
        (((4, 0, 1), &[7, 3]), b"4: 3 7\n"),
        (((0, 0, 1), &[]), b"0:\n"),
        (((0, 1, 1000), &[]), b"0 1/1000:\n"),
        (((0, 999, 1000), &[1]), b"0 999/1000: 1\n"),
        (((9, 0, 1), &[0]), b"9: 0\n"),
        (((10, 0, 1), &[10, 100, 1000, 9]), b"10: 9 1000 100 10\n"),
        (((120, 10, 21), &[120, 210]), b"120 10/21: 210 120\n"),
        (((16_777_216, 0, 1), &[65_535]), b"16777216: 65535\n"),
        (
            ((16_777_215, 998, 999), &[1, 65_535]),
            b"16777215 998/999: 65535 1\n",
        ),
        (
            ((5, 0, 1), &FULL),
            b"5: 10000 10000 10000 10000 10000 10000 10000 10000 10000 10000 10000 10000 10000 10000 10000 10000 10000 10000 10000 10000 10000 10000 10000 10000 10000 10000 10000 10000 10000 10000 10000 10000 10000 10000 10000 10000 10000 10000 10000 10000 10000 10000 10000 10000 10000 10000 10000 10000 10000 10000 10000 10000 10000 10000 10000 10000 10000 10000 10000 10000 10000 10000 10000 10000\n",
        ),
    ];

    // Writes the line of an order onto so many bytes of a page.
    fn check_order(
        rt: &impl Abort,
        order: Order<'_>,
        line: &[u8],
        lent: usize,
    ) -> Result<(), Fail> {
        let mut page = [BLANK; 512];
        let answer = write_order(order, page.split_at_mut(lent.min(512)).0)?;
        check_page(rt, &page, lent, answer, line);
        Ok(())
    }

    // Each line is written onto a page that is longer, onto one that it fills, and is refused by one that is a byte
    // too short.
    #[test]
    fn orders(rt: HostRuntime) -> Result<(), Fail> {
        for (order, line) in ORDERS {
            check_order(&rt, order, line, 512)?;
            check_order(&rt, order, line, line.len())?;
            check_order(&rt, order, line, line.len().saturating_sub(1))?;
        }
        Ok(())
    }

    const STOPS: [(u8, usize, &[u8]); 5] = [
        (16, 5, b"stop 16 at 5\n"),
        (0, 0, b"stop 0 at 0\n"),
        (1, 10, b"stop 1 at 10\n"),
        (255, 1_234_567_890, b"stop 255 at 1234567890\n"),
        (
            255,
            18_446_744_073_709_551_615,
            b"stop 255 at 18446744073709551615\n",
        ),
    ];

    // Writes a stop line onto so many bytes of a page.
    fn check_stop(rt: &impl Abort, number: u8, place: usize, line: &[u8], lent: usize) {
        let mut page = [BLANK; 64];
        let answer = write_stop_line(number, place, page.split_at_mut(lent.min(64)).0);
        check_page(rt, &page, lent, answer, line);
    }

    #[test]
    fn stops(rt: HostRuntime) {
        for (number, place, line) in STOPS {
            check_stop(&rt, number, place, line, 64);
            check_stop(&rt, number, place, line, line.len());
            check_stop(&rt, number, place, line, line.len().saturating_sub(1));
        }
    }

    #[test]
    fn refusals(rt: HostRuntime) {
        assert_eq!(rt; u8::from(NoRoom), 19);
        assert_eq!(rt; write_stop_line(1, 2, &mut []), Err(NoRoom));
    }
}
