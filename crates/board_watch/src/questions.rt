use crate::texts::mixed::Mixed;
use crate::texts::{PassingsText, RefusalText};
use board::board::Board;
use board::list::{Length, Neighbour};
use board::refusal::Refusal;
use board::tickets::Ticket;
use event_queue::queue::Queue;
use fairway::course::Course;
use sorted_list::list::SortedList;
use std::{fmt, io};

// What the board answers on one vessel.
#[derive(Clone, Copy)]
struct Answers {
    rank: usize,
    position: Length,
    ahead: Option<Neighbour>,
    behind: Option<Neighbour>,
}

// A vessel's neighbour on one side, or none.
#[derive(Clone, Copy)]
struct NeighbourText(Option<Neighbour>);

impl fmt::Display for NeighbourText {
    fn fmt<W: fmt::Write>(&self, f: &mut fmt::Formatter<W>) -> fmt::Result {
        let Some(Neighbour { number, gap }) = self.0 else {
            return write!(f, "none");
        };
        let gap = Mixed::from(gap);
        write!(f, "{number} by {gap}")
    }
}

impl fmt::Display for Answers {
    fn fmt<W: fmt::Write>(&self, f: &mut fmt::Formatter<W>) -> fmt::Result {
        let rank = self.rank;
        let position = Mixed::from(self.position);
        let ahead = NeighbourText(self.ahead);
        let behind = NeighbourText(self.behind);
        write!(
            f,
            "rank {rank}, at {position}, ahead {ahead}, behind {behind}"
        )
    }
}

// Asks the board all questions on one vessel.
fn answers_on<Q: Queue<Key = Ticket> + Drop>(
    board: &Board<SortedList, Q>,
    number: u16,
) -> Result<Answers, Refusal> {
    Ok(Answers {
        rank: board.rank(number)?,
        position: board.position(number)?,
        ahead: board.ahead(number)?,
        behind: board.behind(number)?,
    })
}

// Prints the answers on one vessel, or why they are refused.
fn print_vessel<Q: Queue<Key = Ticket> + Drop>(
    rt: &impl Print,
    board: &Board<SortedList, Q>,
    number: u16,
) -> io::Result<()> {
    match answers_on(board, number) {
        Ok(answers) => println!(rt; "    vessel {number}: {answers}"),
        Err(refusal) => {
            let refused = u8::from(refusal);
            let reason = RefusalText(refusal);
            println!(rt; "    vessel {number}: refused {refused} ({reason})")
        }
    }
}

// Prints the numbers of the vessels.
fn print_order(rt: &impl Print, order: &[Course]) -> io::Result<()> {
    print!(rt; "    from rear to front:")?;
    for course in order {
        let number = course.number;
        print!(rt; " {number}")?;
    }
    println!(rt; "")
}

// Prints what the lock master asks: the clock and the foremost vessel.
fn print_for_lock_master<Q: Queue<Key = Ticket> + Drop>(
    rt: &impl Print,
    board: &Board<SortedList, Q>,
) -> io::Result<()> {
    println!(rt; "for the lock master")?;
    let clock = Mixed::from(board.clock());
    println!(rt; "    clock: {clock}")?;
    match board.foremost() {
        Some(number) => println!(rt; "    foremost: {number}"),
        None => println!(rt; "    foremost: none"),
    }
}

// Prints what the tow planner asks: the order, each vessel's rank, position and neighbours, a vessel that is not
// aboard and the number 0 among them, and the load.
fn print_for_tow_planner<Q: Queue<Key = Ticket> + Drop>(
    rt: &impl Print,
    board: &Board<SortedList, Q>,
) -> io::Result<()> {
    println!(rt; "for the tow planner")?;
    print_order(rt, board.order())?;
    for number in [5, 3, 7, 14, 12, 0] {
        print_vessel(rt, board, number)?;
    }
    let load = board.load();
    println!(rt; "    load: {load}")
}

// Prints what the board answers at the end of the watch.
pub fn print_questions<Q: Queue<Key = Ticket> + Drop>(
    rt: &impl Print,
    board: &Board<SortedList, Q>,
) -> io::Result<()> {
    print_for_lock_master(rt, board)?;
    print_for_tow_planner(rt, board)?;
    let aboard = board.aboard();
    let passings = PassingsText(board.total());
    println!(rt; "in all: {aboard} aboard, {passings}")
}
