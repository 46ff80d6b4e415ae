use board::board::Board;
use board::refusal::Refusal;
use board::tickets::Ticket;
use event_queue::queue::Queue;
use kinetic::structure::Structure;

// Where 64 vessels begin.
#[derive(Clone, Copy)]
pub enum Start {
    // the positions are the squares of the numbers, so that two are level at the second that is the sum of theirs
    Squares,
    // the positions are ten times the numbers, so that all are level at second 10
    Tens,
}

// The position at which a vessel begins.
fn position(start: Start, number: u16) -> i32 {
    let number = i32::from(number);
    match start {
        Start::Squares => number.saturating_mul(number),
        Start::Tens => number.saturating_mul(10),
    }
}

// The vessels 1 to 64 enter, each slower by one than the one behind it: every two will pass.
pub fn enter_all<S: Structure + Drop, Q: Queue<Key = Ticket> + Drop>(
    board: &mut Board<S, Q>,
    start: Start,
) -> Result<(), Refusal> {
    for number in 1..65 {
        let slower: i16 = number.try_into().unwrap_or(0);
        board.enter(number, position(start, number), 64 - slower)?;
    }
    Ok(())
}
