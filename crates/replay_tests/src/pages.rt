use crate::answers::Answer;
use crate::examples::{Example, Lent, PLENTY, check_example};
use board_fixtures::told::{Numbers, State};
use std::test::Fail;

// Three lines, of 7, 11 and 7 bytes.
const TEXT: &str =
    "enter 7 0 3\nenter 3 10 1\norder\nadvance 4 2/4\norder\nadvance 5 0/1\norder\nend\n";

const LINES: &str = "0: 3 7\n4 1/2: 3 7\n5: 7 3\n";

// How many bytes the page has, what is answered, how many bytes are written, and the board's clock, foremost and total.
const PAGES: [(usize, Answer, usize, Numbers, u16, u64); 9] = [
    (26, Ok(25), 25, (5, 0, 1), 7, 1),
    (25, Ok(25), 25, (5, 0, 1), 7, 1),
    (24, Err((19, 18, 43)), 18, (5, 0, 1), 7, 1),
    (18, Err((19, 18, 43)), 18, (5, 0, 1), 7, 1),
    (17, Err((19, 7, 33)), 7, (4, 1, 2), 3, 0),
    (7, Err((19, 7, 33)), 7, (4, 1, 2), 3, 0),
    (6, Err((19, 0, 23)), 0, (0, 0, 1), 3, 0),
    (1, Err((19, 0, 23)), 0, (0, 0, 1), 3, 0),
    (0, Err((19, 0, 23)), 0, (0, 0, 1), 3, 0),
];

// A page that ends with a line, and one that is a byte too short for it.
#[test]
fn pages(rt: HostRuntime) -> Result<(), Fail> {
    for (page, answer, written, clock, foremost, total) in PAGES {
        let example = Example {
            name: "three lines",
            text: TEXT,
            more: b"",
            lent: Lent { page, ..PLENTY },
            answer,
            output: LINES.get(..written).ok_or("the lines are so long")?,
            state: State {
                clock,
                aboard: 2,
                foremost: Some(foremost),
                total,
            },
        };
        check_example(&rt, rt.alloc(), &example)?;
    }
    Ok(())
}

// Where no order is written, no page is wanted.
#[test]
fn no_page(rt: HostRuntime) -> Result<(), Fail> {
    let example = Example {
        name: "no page",
        text: "enter 7 0 3\nadvance 1 0/1\nend\n",
        more: b"",
        lent: Lent { page: 0, ..PLENTY },
        answer: Ok(0),
        output: "",
        state: State {
            clock: (1, 0, 1),
            aboard: 1,
            foremost: Some(7),
            total: 0,
        },
    };
    check_example(&rt, rt.alloc(), &example)
}
