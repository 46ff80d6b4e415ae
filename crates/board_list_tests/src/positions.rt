use binary_heap::heap::BinaryHeap;
use board::board::Board;
use board::list::{Length, Neighbour};
use board::refusal::Refusal;
use board::tickets::Ticket;
use board_fixtures::boards::{BLANK_ROW, CELLS, NODES, list};
use board_fixtures::calls::ShortCall::{Advance, Enter};
use board_fixtures::calls::{Step, do_by_name, first_amiss};
use event_queue::queue::Queue;
use pairing_heap::heap::PairingHeap;
use sorted_list::list::SortedList;
use std::process::Abort;
use std::test::Fail;

// A length in halves of a centimetre.
fn in_halves(parts: i128) -> Length {
    Length {
        parts,
        denominator: 2,
    }
}

// A neighbour at a gap in halves of a centimetre.
fn neighbour(number: u16, halves: i128) -> Option<Neighbour> {
    let gap = in_halves(halves);
    Some(Neighbour { number, gap })
}

// What the list tells of a vessel: its rank, its position, and its neighbours ahead and behind.
type Told = (usize, Length, Option<Neighbour>, Option<Neighbour>);

// The same of a vessel by its number.
fn told_of<Q: Queue<Key = Ticket> + Drop>(
    board: &Board<SortedList, Q>,
    number: u16,
) -> Result<Told, Refusal> {
    let rank = board.rank(number)?;
    let position = board.position(number)?;
    Ok((rank, position, board.ahead(number)?, board.behind(number)?))
}

// Two vessels, both at negative positions, and the calls up to half a second.
const HALVES: [Step; 3] = [
    (Enter(1, -10, 1), Ok(0)),
    (Enter(2, -7, 0), Ok(0)),
    (Advance(2, 1, 2), Ok(0)),
];

// One is half a centimetre behind the other.
fn check_halves<Q: Queue<Key = Ticket> + Drop>(
    rt: &impl Abort,
    mut board: Board<SortedList, Q>,
) -> Result<(), Fail> {
    let mut rows = [BLANK_ROW];
    assert_eq!(rt; first_amiss(&mut board, &HALVES, &mut rows), None);
    let rear = (2, in_halves(-15), neighbour(2, 1), None);
    let front = (1, in_halves(-14), None, neighbour(1, 1));
    assert_eq!(rt; told_of(&board, 1)?, rear);
    assert_eq!(rt; told_of(&board, 2)?, front);
    assert_eq!(rt; board.foremost(), Some(2));
    Ok(())
}

#[test]
fn halves(rt: HostRuntime) -> Result<(), Fail> {
    let mut cells = CELLS;
    let mut nodes = NODES;
    let alloc = rt.alloc();
    check_halves(&rt, list(alloc, BinaryHeap::new(&mut cells))?)?;
    check_halves(&rt, list(alloc, PairingHeap::new(&mut nodes))?)
}

// Checks the order from rear to front, and each vessel's rank and neighbour by it.
fn check_order<Q: Queue<Key = Ticket> + Drop>(
    rt: &impl Abort,
    board: &Board<SortedList, Q>,
    order: &[u16],
) -> Result<(), Fail> {
    assert_eq!(rt; board.order().len(), order.len());
    let mut behind = None;
    for (place, (number, course)) in order.iter().zip(board.order()).enumerate() {
        let (rank, _, _, next) = told_of(board, *number)?;
        assert_eq!(rt;
            (course.number, rank),
            (*number, order.len().saturating_sub(place))
        );
        assert_eq!(rt; next.map(|next| next.number), behind);
        behind = Some(*number);
    }
    assert_eq!(rt; board.foremost(), behind);
    Ok(())
}

// Three that are all level at second 6.
const THREE: [Step; 3] = [
    (Enter(2, 6, 2), Ok(0)),
    (Enter(5, 12, 1), Ok(0)),
    (Enter(1, 0, 3), Ok(0)),
];

// The three before and after; and a gap of 0 between level vessels.
fn check_three<Q: Queue<Key = Ticket> + Drop>(
    rt: &impl Abort,
    mut board: Board<SortedList, Q>,
) -> Result<(), Fail> {
    let mut rows = [BLANK_ROW; 3];
    check_order(rt, &board, &[])?;
    assert_eq!(rt; first_amiss(&mut board, &THREE, &mut []), None);
    check_order(rt, &board, &[1, 2, 5])?;
    assert_eq!(rt; board.load(), 3);
    assert_eq!(rt; do_by_name(&mut board, Advance(6, 0, 1), &mut rows), Ok(3));
    check_order(rt, &board, &[5, 2, 1])?;
    assert_eq!(rt; board.load(), 0);
    let gap = Length {
        parts: 0,
        denominator: 1,
    };
    let (_, _, ahead, _) = told_of(&board, 5)?;
    assert_eq!(rt; ahead, Some(Neighbour { number: 2, gap }));
    let (_, position, _, _) = told_of(&board, 2)?;
    assert_eq!(rt; position.parts, 18);
    Ok(())
}

#[test]
fn three(rt: HostRuntime) -> Result<(), Fail> {
    let mut cells = CELLS;
    let mut nodes = NODES;
    let alloc = rt.alloc();
    check_three(&rt, list(alloc, BinaryHeap::new(&mut cells))?)?;
    check_three(&rt, list(alloc, PairingHeap::new(&mut nodes))?)
}

// The list's questions on no vessel and on one that is not aboard, also where the clock has a fraction.
#[test]
fn refused_questions(rt: HostRuntime) -> Result<(), Fail> {
    let mut cells = CELLS;
    let mut board: Board<SortedList, BinaryHeap<Ticket>> = list(
        rt.alloc(),
        BinaryHeap::new(&mut cells),
    )?;
    board.enter(3, 0, 0)?;
    board.advance(0, 1, 2, &mut [])?;
    for (number, refusal) in [(0, Refusal::NumberZero), (4, Refusal::UnknownVessel)] {
        assert_eq!(rt; board.rank(number), Err(refusal));
        assert_eq!(rt; board.position(number), Err(refusal));
        assert_eq!(rt; board.ahead(number), Err(refusal));
        assert_eq!(rt; board.behind(number), Err(refusal));
    }
    Ok(())
}
