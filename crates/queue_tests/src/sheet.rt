use binary_heap::cell::Cell;
use binary_heap::heap::BinaryHeap;
use call_sheet::call::Hail;
use call_sheet::refusal::Refusal;
use call_sheet::sheet::CallSheet;
use event_queue::queue::Queue;
use single_ticket::SingleTicket;

#[test]
fn a_line_is_awaited_anew(rt: HostRuntime) {
    let mut cells = [Cell {
        key: None,
        slot: 0,
        ticket: 0,
        slot_key: 0,
    }; 4];
    let mut sheet = CallSheet::new(BinaryHeap::new(&mut cells));
    assert_eq!(rt; sheet.await_at(3, 100), Ok(()));
    assert_eq!(rt; sheet.await_at(1, 200), Ok(()));
    assert_eq!(rt; sheet.await_at(3, 300), Ok(()));
    assert_eq!(rt; sheet.await_at(4, 100), Err(Refusal::NoSuchLine));
    assert_eq!(rt; sheet.overdue(199), None);
    assert_eq!(rt;
        sheet.overdue(200),
        Some(Hail {
            line: 1,
            second: 200,
        })
    );
    assert_eq!(rt; sheet.overdue(299), None);
    assert_eq!(rt; sheet.heard(3), Ok(true));
    assert_eq!(rt; sheet.heard(3), Ok(false));
    assert_eq!(rt; sheet.heard(4), Err(Refusal::NoSuchLine));
    assert_eq!(rt; sheet.overdue(u32::MAX), None);
}

#[test]
fn a_sheet_of_one_line(rt: HostRuntime) {
    let queue: SingleTicket<u32> = SingleTicket::new();
    let mut sheet = CallSheet::new(queue);
    assert_eq!(rt; sheet.capacity(), 1);
    assert_eq!(rt; sheet.await_at(0, 50), Ok(()));
    assert_eq!(rt; sheet.await_at(0, 40), Ok(()));
    assert_eq!(rt; sheet.await_at(1, 40), Err(Refusal::NoSuchLine));
    assert_eq!(rt;
        sheet.overdue(40),
        Some(Hail {
            line: 0,
            second: 40,
        })
    );
    assert_eq!(rt; sheet.overdue(50), None);
}
