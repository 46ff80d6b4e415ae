use crate::told::{state_and_load, told};
use board::board::Board;
use board::call::{Call, Row};
use board::tickets::Ticket;
use event_queue::queue::Queue;
use kinetic::structure::Structure;

// A call in one line of a table.
#[derive(Clone, Copy)]
pub enum ShortCall {
    Open,
    Enter(u16, i32, i16),
    Leave(u16),
    Steer(u16, i16),
    Advance(u64, u16, u16),
}

// A call, and what is to come of it: the list's number of mends, or the number of the refusal.
pub type Step = (ShortCall, Result<usize, u8>);

impl From<ShortCall> for Call {
    fn from(short: ShortCall) -> Call {
        match short {
            ShortCall::Open => Call::Open,
            ShortCall::Enter(number, position, speed) => Call::Enter {
                number,
                position,
                speed,
            },
            ShortCall::Leave(number) => Call::Leave { number },
            ShortCall::Steer(number, speed) => Call::Steer { number, speed },
            ShortCall::Advance(seconds, numerator, denominator) => Call::Advance {
                seconds,
                numerator,
                denominator,
            },
        }
    }
}

// Performs a call, and answers how many mends it has, or the number of the refusal.
pub fn perform<S: Structure + Drop, Q: Queue<Key = Ticket> + Drop>(
    board: &mut Board<S, Q>,
    call: ShortCall,
    rows: &mut [Row],
) -> Result<usize, u8> {
    told(board.perform(Call::from(call), rows))
}

// Does a call by the board's method of its name, and answers the same.
pub fn do_by_name<S: Structure + Drop, Q: Queue<Key = Ticket> + Drop>(
    board: &mut Board<S, Q>,
    call: ShortCall,
    rows: &mut [Row],
) -> Result<usize, u8> {
    let answer = match call {
        ShortCall::Open => Ok(board.open()),
        ShortCall::Enter(number, position, speed) => board.enter(number, position, speed),
        ShortCall::Leave(number) => board.leave(number),
        ShortCall::Steer(number, speed) => board.steer(number, speed),
        ShortCall::Advance(seconds, numerator, denominator) => {
            let mends = board.advance(seconds, numerator, denominator, rows);
            return mends.map_err(u8::from);
        }
    };
    answer.map(|_| 0).map_err(u8::from)
}

// Does calls in turn, each by the board's method of its name, up to the first that does not come to what it is to, or
// that is refused and changes something: that one's place is answered, or none.
pub fn first_amiss<S: Structure + Drop, Q: Queue<Key = Ticket> + Drop>(
    board: &mut Board<S, Q>,
    steps: &[Step],
    rows: &mut [Row],
) -> Option<usize> {
    for (place, step) in steps.iter().enumerate() {
        let before = state_and_load(board);
        let answer = do_by_name(board, step.0, rows);
        let is_as_it_was = state_and_load(board) == before;
        if answer != step.1 || (answer.is_err() && !is_as_it_was) {
            return Some(place);
        }
    }
    None
}
