use crate::examples::{Example, check_example};
use board_fixtures::calls::ShortCall::{Advance, Enter, Leave, Steer};
use std::test::Fail;

// Refused calls in the order of each call's table: where two lines of it hold, the upper one is answered.
const REFUSALS: [Example; 4] = [
    Example {
        name: "entries",
        steps: &[
            (Enter(1, 100_000_000, 1000), Ok(0)),
            (Enter(2, -100_000_000, -1000), Ok(0)),
            (Enter(0, 100_000_001, 1001), Err(1)),
            (Enter(0, 0, 0), Err(1)),
            (Enter(1, 100_000_001, 0), Err(2)),
            (Enter(3, 100_000_001, 0), Err(2)),
            (Enter(3, -100_000_001, 0), Err(2)),
            (Enter(3, 0, 1001), Err(2)),
            (Enter(3, 0, -1001), Err(2)),
            (Enter(3, i32::MIN, i16::MIN), Err(2)),
            (Enter(1, 0, 0), Err(4)),
            (Advance(7, 1, 3), Ok(0)),
            (Enter(0, 0, 0), Err(1)),
            (Enter(1, 0, 1001), Err(2)),
            (Enter(1, 0, 0), Err(3)),
            (Enter(3, 0, 0), Err(3)),
        ],
        passings: &[],
        clock: (7, 1, 3),
        aboard: 2,
        foremost: Some(1),
        total: 0,
    },
    Example {
        name: "leaves",
        steps: &[
            (Leave(0), Err(1)),
            (Leave(1), Err(6)),
            (Enter(1, 0, 0), Ok(0)),
            (Leave(65_535), Err(6)),
            (Advance(7, 1, 3), Ok(0)),
            (Leave(0), Err(1)),
            (Leave(1), Err(3)),
            (Leave(2), Err(3)),
        ],
        passings: &[],
        clock: (7, 1, 3),
        aboard: 1,
        foremost: Some(1),
        total: 0,
    },
    Example {
        name: "changes of course",
        steps: &[
            (Steer(0, 1001), Err(1)),
            (Steer(1, 1001), Err(2)),
            (Steer(1, 1000), Err(6)),
            (Enter(1, 0, 0), Ok(0)),
            (Steer(1, -1001), Err(2)),
            (Steer(1, i16::MIN), Err(2)),
            (Advance(7, 1, 3), Ok(0)),
            (Steer(0, 1001), Err(1)),
            (Steer(1, 1001), Err(2)),
            (Steer(2, 1001), Err(2)),
            (Steer(1, 0), Err(3)),
            (Steer(2, 0), Err(3)),
        ],
        passings: &[],
        clock: (7, 1, 3),
        aboard: 1,
        foremost: Some(1),
        total: 0,
    },
    Example {
        name: "advances",
        steps: &[
            (Advance(0, 0, 0), Err(7)),
            (Advance(0, 1, 1), Err(7)),
            (Advance(0, 1, 1001), Err(7)),
            (Advance(16_777_217, 0, 1), Err(7)),
            (Advance(u64::MAX, u16::MAX, u16::MAX), Err(7)),
            (Advance(7, 1, 3), Ok(0)),
            (Advance(7, 333, 1000), Err(8)),
            (Advance(7, 2, 2), Err(7)),
            (Advance(0, 0, 1), Err(8)),
            (Advance(7, 2, 6), Ok(0)),
        ],
        passings: &[],
        clock: (7, 1, 3),
        aboard: 0,
        foremost: None,
        total: 0,
    },
];

#[test]
fn tables(rt: HostRuntime) -> Result<(), Fail> {
    for example in &REFUSALS {
        check_example(&rt, rt.alloc(), example)?;
    }
    Ok(())
}
