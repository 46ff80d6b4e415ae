use crate::examples::{Example, PLENTY, check_example};
use board_fixtures::told::State;
use std::test::Fail;

// The text of a trace's records, the bytes behind them, and the fault's number and place. What is written before each is
// `0: 7`.
const FAULTS: [(&str, &[u8], u8, usize); 14] = [
    ("enter 7 0 3\norder\n", b"", 13, 15),
    ("enter 7 0 3\norder\n", b"E", 13, 15),
    (
        "enter 7 0 3\norder\n",
        b"E\x00\x08\x00\x00\x00\x00\x00",
        13,
        15,
    ),
    ("enter 7 0 3\norder\n", b"L\x00", 13, 15),
    ("enter 7 0 3\norder\n", b"S\x00\x07\x00", 13, 15),
    (
        "enter 7 0 3\norder\n",
        b"A\x00\x00\x00\x04\x00\x02\x00",
        13,
        15,
    ),
    ("enter 7 0 3\norder\nsteer 7 3\n", b"L", 13, 20),
    ("enter 7 0 3\norder\n", b"\x00", 16, 15),
    ("enter 7 0 3\norder\n", b"eQZ", 16, 15),
    ("enter 7 0 3\norder\nadvance 0 0/1\n", b"X", 16, 24),
    ("enter 7 0 3\norder\nend\n", b"\x00", 17, 16),
    ("enter 7 0 3\norder\nend\n", b"Z", 17, 16),
    ("enter 7 0 3\norder\nend\n", b"QZ", 17, 16),
    (
        "enter 7 0 3\norder\nsteer 7 3\nend\n",
        b"L\x00\x07Z",
        17,
        21,
    ),
];

// What the board tells after each.
const STATE: State = State {
    clock: (0, 0, 1),
    aboard: 1,
    foremost: Some(7),
    total: 0,
};

#[test]
fn faults_of_traces(rt: HostRuntime) -> Result<(), Fail> {
    for (text, more, number, place) in FAULTS {
        let example = Example {
            name: text,
            text,
            more,
            lent: PLENTY,
            answer: Err((number, 5, place)),
            output: "0: 7\n",
            state: STATE,
        };
        check_example(&rt, rt.alloc(), &example)?;
    }
    Ok(())
}

// A header alone.
#[test]
fn no_record(rt: HostRuntime) -> Result<(), Fail> {
    let example = Example {
        name: "no record",
        text: "",
        more: b"",
        lent: PLENTY,
        answer: Err((13, 0, 5)),
        output: "",
        state: State {
            aboard: 0,
            foremost: None,
            ..STATE
        },
    };
    check_example(&rt, rt.alloc(), &example)
}
