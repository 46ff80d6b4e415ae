use binary_heap::heap::BinaryHeap;
use board::board::Board;
use board::call::{Call, Line, Outcome, Row};
use board::tickets::Ticket;
use board_fixtures::boards::{CELLS, NODES, blank_rows, list, tournament};
use board_fixtures::calls::{Step, perform};
use board_fixtures::told::{Numbers, same_rows, state_and_load, state_of, told};
use event_queue::queue::Queue;
use fairway::stamp::Stamp;
use kinetic::structure::Structure;
use pairing_heap::heap::PairingHeap;
use sorted_list::list::SortedList;
use std::alloc::{AllocError, Global};
use std::process::Abort;
use std::test::Fail;

// A mend on the list: the instant, the rear vessel and the front vessel.
pub type Passing = (Numbers, u16, u16);

// Calls in turn with what is to come of each; the list's mends, in any order; and what the board tells at the
// end, of which the total is the list's.
#[derive(Clone, Copy)]
pub struct Example {
    pub name: &'static str,
    pub steps: &'static [Step],
    pub passings: &'static [Passing],
    pub clock: Numbers,
    pub aboard: usize,
    pub foremost: Option<u16>,
    pub total: u64,
}

// The row of a passing.
fn row_of(passing: &Passing) -> Row {
    let ((seconds, numerator, denominator), rear, front) = *passing;
    Row {
        at: Stamp {
            seconds,
            numerator,
            denominator_less_one: denominator.saturating_sub(1),
        },
        rear,
        front,
    }
}

// The lines of the steps, with nothing done yet.
fn lines_of(alloc: Global, steps: &[Step]) -> Result<Vec<Line>, AllocError> {
    let unknown = Outcome::Accepted { mends: 99 };
    steps
        .iter()
        .map(|step| Line {
            call: Call::from(step.0),
            outcome: unknown,
        })
        .collect(alloc)
}

// Compares what a board tells at the end of an example, but for the total.
fn check_end<S: Structure + Drop, Q: Queue<Key = Ticket> + Drop>(
    rt: &impl Abort,
    board: &Board<S, Q>,
    example: &Example,
) {
    let name = example.name;
    let state = state_of(board);
    assert_eq!(rt; state.clock, example.clock, "in {name}");
    assert_eq!(rt; state.aboard, example.aboard, "in {name}");
    assert_eq!(rt; state.foremost, example.foremost, "in {name}");
}

// Does the calls of an example one by one on a board over any structure. A refused call changes nothing.
fn check_steps<S: Structure + Drop, Q: Queue<Key = Ticket> + Drop>(
    rt: &impl Abort,
    alloc: Global,
    board: &mut Board<S, Q>,
    example: &Example,
) -> Result<(), Fail> {
    let name = example.name;
    let mut rows = blank_rows(alloc, 2016)?;
    board.open();
    for step in example.steps {
        let before = state_and_load(board);
        let answer = perform(board, step.0, rows.as_mut_slice());
        assert_eq!(rt; answer.err(), step.1.err(), "in {name}");
        let is_as_it_was = state_and_load(board) == before;
        assert!(rt; is_as_it_was || answer.is_ok(), "in {name}");
    }
    check_end(rt, board, example);
    Ok(())
}

// Does the calls of an example all at once on a board over the list: the mends and the rows are as expected too.
fn check_lines<Q: Queue<Key = Ticket> + Drop>(
    rt: &impl Abort,
    alloc: Global,
    board: &mut Board<SortedList, Q>,
    example: &Example,
) -> Result<(), Fail> {
    let name = example.name;
    let mut lines = lines_of(alloc, example.steps)?;
    let mut rows = blank_rows(alloc, 64)?;
    let used = board.perform_on_list(lines.as_mut_slice(), rows.as_mut_slice());
    for (line, step) in lines.iter().zip(example.steps) {
        assert_eq!(rt; told(line.outcome), step.1, "in {name}");
    }
    let wanted: Vec<Row> = example.passings.iter().map(row_of).collect(alloc)?;
    assert_eq!(rt; used, wanted.len(), "in {name}");
    let own = rows.as_slice().split_at(used.min(64)).0;
    assert!(rt; same_rows(own, wanted.as_slice()), "in {name}");
    assert_eq!(rt; board.total(), example.total, "in {name}");
    check_end(rt, board, example);
    Ok(())
}

// Does the calls of an example all at once on a board over any structure: the same are refused.
fn check_all<S: Structure + Drop, Q: Queue<Key = Ticket> + Drop>(
    rt: &impl Abort,
    alloc: Global,
    board: &mut Board<S, Q>,
    example: &Example,
) -> Result<(), Fail> {
    let name = example.name;
    let mut lines = lines_of(alloc, example.steps)?;
    let mut rows = blank_rows(alloc, 4032)?;
    board.perform_all(lines.as_mut_slice(), rows.as_mut_slice());
    for (line, step) in lines.iter().zip(example.steps) {
        assert_eq!(rt; told(line.outcome).err(), step.1.err(), "in {name}");
    }
    check_end(rt, board, example);
    Ok(())
}

// Does an example on a board over the list.
fn check_on_list<Q: Queue<Key = Ticket> + Drop>(
    rt: &impl Abort,
    alloc: Global,
    mut board: Board<SortedList, Q>,
    example: &Example,
) -> Result<(), Fail> {
    check_lines(rt, alloc, &mut board, example)?;
    check_steps(rt, alloc, &mut board, example)
}

// Does an example on a board over any structure.
fn check_on_any<S: Structure + Drop, Q: Queue<Key = Ticket> + Drop>(
    rt: &impl Abort,
    alloc: Global,
    mut board: Board<S, Q>,
    example: &Example,
) -> Result<(), Fail> {
    check_all(rt, alloc, &mut board, example)?;
    check_steps(rt, alloc, &mut board, example)
}

// Does an example on the list and the tournament, each over both heaps.
pub fn check_example(rt: &impl Abort, alloc: Global, example: &Example) -> Result<(), Fail> {
    let mut cells = CELLS;
    let mut nodes = NODES;
    check_on_list(
        rt,
        alloc,
        list(alloc, BinaryHeap::new(&mut cells))?,
        example,
    )?;
    check_on_list(
        rt,
        alloc,
        list(alloc, PairingHeap::new(&mut nodes))?,
        example,
    )?;
    check_on_any(rt, alloc, tournament(BinaryHeap::new(&mut cells)), example)?;
    check_on_any(rt, alloc, tournament(PairingHeap::new(&mut nodes)), example)
}
