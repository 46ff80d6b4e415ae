ghost use Rattle.std.specs.Prelude.{◌≡◌, ℕ, ◌<◌, ◌≤◌, Bool, true, false, length};
ghost use Rattle.fairway.specs.Stamps.{earlier, BelowOne, time_of};
ghost use Rattle.fairway.specs.declared.stamp.Stamp.{Stamp as TimeStamp};
ghost use Rattle.kinetic.specs.Structures.{NoneDue};
ghost use Rattle.board.specs.Passings.{MendsNext, Begins, Arrived, Written};
ghost use Rattle.board.specs.Tickets.{QueueKept};

use crate::call::Row;
use crate::tickets::{Ticket, instant_of, is_named, renew, renew_all};
use event_queue::queue::Queue;
use fairway::stamp::Stamp;
use kinetic::structure::Structure;

// Mends the certificate whose ticket the queue hands out, if there is one not after the limit. A queue that is not sound
// may hand out a ticket of a certificate that is not there or not due: it counts as none.
pub fn mend_next<S: Structure, Q: Queue<Key = Ticket>>(
    structure: &mut S,
    queue: &mut Q,
    limit: Ticket,
) -> Option<Row>
    ensures mend { (u to : TimeStamp) → MendsNext S.means Q.means u to limit
        structure.old structure.new queue.old queue.new result }
    ensures roster { (v : ℕ) →
        S.means.roster structure.new v ≡ S.means.roster structure.old v }
    ensures kept { QueueKept Q.means queue.old queue.new }
{
    let (number, ticket) = queue.take(limit)?;
    let at = instant_of(ticket);
    let (rear, front) = structure.certificate(number)?;
    let named = structure.mend(number, at).ok()?;
    if !is_named(named.as_slice(), number) {
        renew(structure, queue, number);
    }
    renew_all(structure, queue, named.as_slice());
    Some(Row {
        at,
        rear: rear.number,
        front: front.number,
    })
}

// Mends until no ticket is left up to the limit or no row is, and answers how often. Each mend writes a row.
pub fn mend_until<S: Structure, Q: Queue<Key = Ticket>>(
    structure: &mut S,
    queue: &mut Q,
    limit: Ticket,
    rows: &mut [Row],
) -> usize
    ensures arrived { (u to : TimeStamp) →
        Begins S.means Q.means u to limit structure.old queue.old (length rows.old) →
        Arrived S.means Q.means u to structure.old structure.new queue.new result rows.new }
    ensures written { Written result rows.old rows.new }
    ensures roster { (v : ℕ) →
        S.means.roster structure.new v ≡ S.means.roster structure.old v }
    ensures kept { QueueKept Q.means queue.old queue.new }
{
    let mut count = 0;
    while count < rows.len() {
        let Some(row) = mend_next(structure, queue, limit) else {
            return count;
        };
        rows[count] = row;
        count += 1;
    }
    count
}
