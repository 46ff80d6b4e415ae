use crate::answers::{Answer, BLANK, told};
use binary_heap::heap::BinaryHeap;
use board::tickets::Ticket;
use board_fixtures::boards::{CELLS, NODES, blank_rows, list};
use board_fixtures::told::{State, state_of};
use event_queue::queue::Queue;
use pairing_heap::heap::PairingHeap;
use std::alloc::Global;
use std::process::Abort;
use std::test::Fail;
use trace_replay::replay::replay;
use trace_text::convert::trace_of_text;

// The most bytes of a page that an example is lent.
const MOST: usize = 512;

// How many cells for the queue, rows, and bytes of a page are lent.
#[derive(Clone, Copy)]
pub struct Lent {
    pub cells: usize,
    pub rows: usize,
    pub page: usize,
}

// Enough of each.
pub const PLENTY: Lent = Lent {
    cells: 64,
    rows: 2016,
    page: MOST,
};

// A trace: the text of its records, and bytes behind those. Then what it is replayed with, what is answered, what is
// written on the page, and what the board tells at the end.
#[derive(Clone, Copy)]
pub struct Example<'a> {
    pub name: &'a str,
    pub text: &'a str,
    pub more: &'a [u8],
    pub lent: Lent,
    pub answer: Answer,
    pub output: &'a str,
    pub state: State,
}

// The trace of an example.
fn trace_of(alloc: Global, example: &Example<'_>) -> Result<Vec<u8>, Fail> {
    let trace = trace_of_text(alloc, example.text.as_bytes());
    let mut trace = trace.ok().ok_or("the text is read")?;
    trace.extend_from_slice(example.more)?;
    Ok(trace)
}

// Replays an example on a board over a queue. What is behind the written bytes of the page is as it was.
fn check_on<Q: Queue<Key = Ticket> + Drop>(
    rt: &impl Abort,
    alloc: Global,
    queue: Q,
    example: &Example<'_>,
) -> Result<(), Fail> {
    let name = example.name;
    let trace = trace_of(alloc, example)?;
    let mut board = list(alloc, queue)?;
    let mut rows = blank_rows(alloc, example.lent.rows)?;
    let mut page = [BLANK; MOST];
    let lent = page.split_at_mut(example.lent.page.min(MOST)).0;
    let answer = replay(trace.as_slice(), &mut board, rows.as_mut_slice(), lent);
    assert_eq!(rt; told(answer), example.answer, "in {name}");
    let output = example.output.as_bytes();
    assert_eq!(rt; page.get(..output.len()), Some(output), "in {name}");
    let mut behind = page.iter().skip(output.len());
    assert!(rt; behind.all(|byte| *byte == BLANK), "in {name}");
    assert_eq!(rt; state_of(&board), example.state, "in {name}");
    Ok(())
}

// Replays an example over each heap.
pub fn check_example(rt: &impl Abort, alloc: Global, example: &Example<'_>) -> Result<(), Fail> {
    let mut cells = CELLS;
    let mut nodes = NODES;
    let count = example.lent.cells.min(64);
    let cells = cells.split_at_mut(count).0;
    let nodes = nodes.split_at_mut(count).0;
    check_on(rt, alloc, BinaryHeap::new(cells), example)?;
    check_on(rt, alloc, PairingHeap::new(nodes), example)
}
