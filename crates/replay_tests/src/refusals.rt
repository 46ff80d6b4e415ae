use crate::examples::{Example, Lent, PLENTY, check_example};
use board_fixtures::told::{Numbers, State};
use std::test::Fail;

// The text of records, of which the board refuses one; that one's place; and the board's clock. Vessel 7 alone is aboard,
// and what is written before is `0: 7`. What stands behind the refused record is not done.
const REFUSALS: [(&str, usize, Numbers); 12] = [
    // 1: no vessel has the number 0
    (
        "enter 7 0 3\norder\nenter 0 0 0\norder\nend\n",
        15,
        (0, 0, 1),
    ),
    ("enter 7 0 3\norder\nleave 0\norder\nend\n", 15, (0, 0, 1)),
    // 2: the position or the speed is out of range
    (
        "enter 7 0 3\norder\nenter 3 100000001 0\nend\n",
        15,
        (0, 0, 1),
    ),
    (
        "enter 7 0 3\norder\nsteer 7 -1001\nleave 7\nend\n",
        15,
        (0, 0, 1),
    ),
    // 3: the clock is not at a whole second
    (
        "enter 7 0 3\norder\nadvance 1 1/2\nleave 7\norder\nend\n",
        24,
        (1, 1, 2),
    ),
    // 4: the vessel is aboard
    (
        "enter 7 0 3\norder\nenter 7 5 3\norder\nend\n",
        15,
        (0, 0, 1),
    ),
    // 6: the vessel is not aboard
    ("enter 7 0 3\norder\nleave 3\norder\nend\n", 15, (0, 0, 1)),
    (
        "enter 7 0 3\norder\nsteer 65535 0\norder\nend\n",
        15,
        (0, 0, 1),
    ),
    // 7: the clock has no such instant
    (
        "enter 7 0 3\norder\nadvance 3 2/2\norder\nend\n",
        15,
        (0, 0, 1),
    ),
    (
        "enter 7 0 3\norder\nadvance 16777216 1/2\norder\nend\n",
        15,
        (0, 0, 1),
    ),
    (
        "enter 7 0 3\norder\nadvance 4294967295 0/1\norder\nend\n",
        15,
        (0, 0, 1),
    ),
    // 8: the instant is earlier than the clock
    (
        "enter 7 0 3\norder\nadvance 4 1/2\nadvance 4 499/1000\nend\n",
        24,
        (4, 1, 2),
    ),
];

// What the board refuses stops the replay, and stays as it was.
#[test]
fn refusals(rt: HostRuntime) -> Result<(), Fail> {
    for (text, place, clock) in REFUSALS {
        let example = Example {
            name: text,
            text,
            more: b"",
            lent: PLENTY,
            answer: Err((18, 5, place)),
            output: "0: 7\n",
            state: State {
                clock,
                aboard: 1,
                foremost: Some(7),
                total: 0,
            },
        };
        check_example(&rt, rt.alloc(), &example)?;
    }
    Ok(())
}

// 9: too few rows for two that will pass. 10: a queue of 8 cells, over which nobody enters. A refusal comes before a
// fault of the trace that stands behind it.
const SCARCE: [Example<'static>; 3] = [
    Example {
        name: "few rows",
        text: "enter 7 0 3\nenter 3 10 1\norder\nadvance 1 0/1\norder\nend\n",
        more: b"",
        lent: Lent { rows: 0, ..PLENTY },
        answer: Err((18, 7, 24)),
        output: "0: 3 7\n",
        state: State {
            clock: (0, 0, 1),
            aboard: 2,
            foremost: Some(3),
            total: 0,
        },
    },
    Example {
        name: "a small queue",
        text: "order\nadvance 3 0/1\nenter 7 0 3\norder\nend\n",
        more: b"",
        lent: Lent { cells: 8, ..PLENTY },
        answer: Err((18, 3, 15)),
        output: "0:\n",
        state: State {
            clock: (3, 0, 1),
            aboard: 0,
            foremost: None,
            total: 0,
        },
    },
    Example {
        name: "the earlier place",
        text: "enter 7 0 3\nleave 3\n",
        more: b"\x00",
        lent: PLENTY,
        answer: Err((18, 0, 14)),
        output: "",
        state: State {
            clock: (0, 0, 1),
            aboard: 1,
            foremost: Some(7),
            total: 0,
        },
    },
];

#[test]
fn scarce(rt: HostRuntime) -> Result<(), Fail> {
    for example in &SCARCE {
        check_example(&rt, rt.alloc(), example)?;
    }
    Ok(())
}
