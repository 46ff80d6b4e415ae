use crate::answers::Answer;
use crate::examples::{Example, Lent, PLENTY, check_example};
use board_fixtures::told::State;
use std::alloc::Global;
use std::test::Fail;

// The lines of 64 vessels before any two have passed, and when all have.
const BEFORE: &str =
    "0: 64 63 62 61 60 59 58 57 56 55 54 53 52 51 50 49 48 47 46 45 44 43 42 41 40 39 38 37 36 35 34 33 32 31 30 29 28 27 26 25 24 23 22 21 20 19 18 17 16 15 14 13 12 11 10 9 8 7 6 5 4 3 2 1\n";

const BOTH: &str =
    "0: 64 63 62 61 60 59 58 57 56 55 54 53 52 51 50 49 48 47 46 45 44 43 42 41 40 39 38 37 36 35 34 33 32 31 30 29 28 27 26 25 24 23 22 21 20 19 18 17 16 15 14 13 12 11 10 9 8 7 6 5 4 3 2 1\n127: 1 2 3 4 5 6 7 8 9 10 11 12 13 14 15 16 17 18 19 20 21 22 23 24 25 26 27 28 29 30 31 32 33 34 35 36 37 38 39 40 41 42 43 44 45 46 47 48 49 50 51 52 53 54 55 56 57 58 59 60 61 62 63 64\n";

// How many rows are lent, what is answered, what is written, and the board's clock, foremost and total: with 2,015 rows
// the advance is refused, with 2,016 it has as many passings, and then a vessel is refused, since 64 are aboard.
const CROWDS: [(usize, Answer, &str, u64, u16, u64); 2] = [
    (2015, Err((18, 186, 582)), BEFORE, 0, 64, 0),
    (2016, Err((18, 374, 592)), BOTH, 127, 1, 2016),
];

// The text of a trace in which the vessels 1 to 64 enter, each slower by one than the one behind it, so that every two
// pass: the positions are the squares of the numbers, and two are level at the second that is the sum of theirs.
fn text(alloc: Global) -> Result<String, Fail> {
    let mut text = String::new(alloc);
    for number in 1..65_u32 {
        let position = number * number;
        let speed = 64 - number;
        let line = format!(in alloc; "enter {number} {position} {speed}\n")?;
        text.push_str(line.as_str())?;
    }
    text.push_str("order\nadvance 127 0/1\norder\nenter 65 0 0\norder\nend\n")?;
    Ok(text)
}

#[test]
fn crowds(rt: HostRuntime) -> Result<(), Fail> {
    let text = text(rt.alloc())?;
    for (rows, answer, output, seconds, foremost, total) in CROWDS {
        let example = Example {
            name: "64 vessels",
            text: text.as_str(),
            more: b"",
            lent: Lent { rows, ..PLENTY },
            answer,
            output,
            state: State {
                clock: (seconds, 0, 1),
                aboard: 64,
                foremost: Some(foremost),
                total,
            },
        };
        check_example(&rt, rt.alloc(), &example)?;
    }
    Ok(())
}
