use crate::examples::{Example, PLENTY, check_example};
use board_fixtures::told::State;
use std::test::Fail;

const WORKED: [Example<'static>; 10] = [
    Example {
        name: "two that meet, in bytes",
        text: "",
        more: &[
            0x45, 0x00, 0x07, 0x00, 0x00, 0x00, 0x00, 0x00, 0x03, // vessel 7 enters at 0 with 3
            0x45, 0x00, 0x03, 0x00, 0x00, 0x00, 0x0A, 0x00, 0x01, // vessel 3 enters at 10 with 1
            0x51, // the order
            0x41, 0x00, 0x00, 0x00, 0x04, 0x00, 0x02, 0x00, 0x04, // to 4 and 2/4 seconds
            0x51, // the order
            0x41, 0x00, 0x00, 0x00, 0x05, 0x00, 0x00, 0x00, 0x01, // to 5 seconds
            0x51, // the order
            0x5A, // the end
        ],
        lent: PLENTY,
        answer: Ok(25),
        output: "0: 3 7\n4 1/2: 3 7\n5: 7 3\n",
        state: State {
            clock: (5, 0, 1),
            aboard: 2,
            foremost: Some(7),
            total: 1,
        },
    },
    Example {
        name: "the end at once",
        text: "end\n",
        more: b"",
        lent: PLENTY,
        answer: Ok(0),
        output: "",
        state: State {
            clock: (0, 0, 1),
            aboard: 0,
            foremost: None,
            total: 0,
        },
    },
    Example {
        name: "the order of none, twice",
        text: "order\norder\nend\n",
        more: b"",
        lent: PLENTY,
        answer: Ok(6),
        output: "0:\n0:\n",
        state: State {
            clock: (0, 0, 1),
            aboard: 0,
            foremost: None,
            total: 0,
        },
    },
    Example {
        name: "the last seconds",
        text: "enter 65535 100000000 -1000\nenter 1 -100000000 1000\nadvance 16777215 998/1000\norder\nadvance 16777216 0/1\norder\nend\n",
        more: b"",
        lent: PLENTY,
        answer: Ok(44),
        output: "16777215 499/500: 1 65535\n16777216: 1 65535\n",
        state: State {
            clock: (16_777_216, 0, 1),
            aboard: 2,
            foremost: Some(1),
            total: 1,
        },
    },
    Example {
        name: "one leaves and one is steered",
        text: "enter 7 0 3\nenter 3 10 1\nenter 4 30 1\nleave 3\norder\nadvance 4 0/1\nsteer 7 -1\norder\nadvance 30 1/1000\norder\nend\n",
        more: b"",
        lent: PLENTY,
        answer: Ok(29),
        output: "0: 4 7\n4: 4 7\n30 1/1000: 4 7\n",
        state: State {
            clock: (30, 1, 1000),
            aboard: 2,
            foremost: Some(4),
            total: 0,
        },
    },
    Example {
        name: "all leave",
        text: "enter 7 0 3\nenter 3 10 1\nadvance 6 0/1\norder\nleave 7\norder\nleave 3\norder\nend\n",
        more: b"",
        lent: PLENTY,
        answer: Ok(15),
        output: "6: 7 3\n6: 3\n6:\n",
        state: State {
            clock: (6, 0, 1),
            aboard: 0,
            foremost: None,
            total: 1,
        },
    },
    Example {
        name: "two that meet, with an unknown kind",
        text: "enter 7 0 3\nenter 3 10 1\norder\nadvance 4 2/4\n",
        more: b"XA\x00\x00\x00\x05\x00\x00\x00\x01QZ",
        lent: PLENTY,
        answer: Err((16, 7, 33)),
        output: "0: 3 7\n",
        state: State {
            clock: (4, 1, 2),
            aboard: 2,
            foremost: Some(3),
            total: 0,
        },
    },
    Example {
        name: "two that meet, with no end",
        text: "enter 7 0 3\nenter 3 10 1\norder\nadvance 4 2/4\norder\nadvance 5 0/1\norder\n",
        more: b"",
        lent: PLENTY,
        answer: Err((13, 25, 44)),
        output: "0: 3 7\n4 1/2: 3 7\n5: 7 3\n",
        state: State {
            clock: (5, 0, 1),
            aboard: 2,
            foremost: Some(7),
            total: 1,
        },
    },
    Example {
        name: "two that meet, with a byte too many",
        text: "enter 7 0 3\nenter 3 10 1\norder\nadvance 4 2/4\norder\nadvance 5 0/1\norder\nend\n",
        more: b"Z",
        lent: PLENTY,
        answer: Err((17, 25, 45)),
        output: "0: 3 7\n4 1/2: 3 7\n5: 7 3\n",
        state: State {
            clock: (5, 0, 1),
            aboard: 2,
            foremost: Some(7),
            total: 1,
        },
    },
    Example {
        name: "two that meet, and one that is not aboard",
        text: "enter 7 0 3\nenter 3 10 1\norder\nadvance 5 0/1\norder\nleave 9\nend\n",
        more: b"",
        lent: PLENTY,
        answer: Err((18, 14, 34)),
        output: "0: 3 7\n5: 7 3\n",
        state: State {
            clock: (5, 0, 1),
            aboard: 2,
            foremost: Some(7),
            total: 1,
        },
    },
];

#[test]
fn worked(rt: HostRuntime) -> Result<(), Fail> {
    for example in &WORKED {
        check_example(&rt, rt.alloc(), example)?;
    }
    Ok(())
}
