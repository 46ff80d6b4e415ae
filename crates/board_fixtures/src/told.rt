use board::board::Board;
use board::call::{Outcome, Row};
use board::tickets::Ticket;
use event_queue::queue::Queue;
use kinetic::structure::Structure;

// An instant's seconds, numerator and denominator.
pub type Numbers = (u64, u16, u16);

// What a board over any structure tells of itself, but for its load.
#[derive(Clone, Copy, PartialEq, Eq, Debug)]
pub struct State {
    pub clock: Numbers,
    pub aboard: usize,
    pub foremost: Option<u16>,
    pub total: u64,
}

// What a board tells.
pub fn state_of<S: Structure + Drop, Q: Queue<Key = Ticket> + Drop>(board: &Board<S, Q>) -> State {
    let clock = board.clock();
    State {
        clock: (clock.seconds(), clock.numerator(), clock.denominator()),
        aboard: board.aboard(),
        foremost: board.foremost(),
        total: board.total(),
    }
}

// The same with its load.
pub fn state_and_load<S: Structure + Drop, Q: Queue<Key = Ticket> + Drop>(
    board: &Board<S, Q>,
) -> (State, usize) {
    (state_of(board), board.load())
}

// How many mends an outcome has, or the number of the refusal: the numbers are what the examples compare.
pub fn told(outcome: Outcome) -> Result<usize, u8> {
    match outcome {
        Outcome::Accepted { mends } => Ok(mends),
        Outcome::Refused { refusal } => Err(u8::from(refusal)),
    }
}

// The rows that an outcome has written.
pub fn written(rows: &[Row], outcome: Outcome) -> &[Row] {
    let mends = told(outcome).unwrap_or(0);
    rows.split_at(mends.min(rows.len())).0
}

// Whether the two have the same rows, in any order. No row stands twice in either.
pub fn same_rows(a: &[Row], b: &[Row]) -> bool {
    a.len() == b.len() && a.iter().all(|row| b.contains(row)) && b.iter().all(|row| a.contains(row))
}
