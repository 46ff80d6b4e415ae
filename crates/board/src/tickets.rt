ghost use Rattle.std.specs.Prelude.{◌≡◌};
ghost use Rattle.fairway.specs.Instants.{stamp_of};
ghost use Rattle.kinetic.specs.Numbers.{among};
ghost use Rattle.board.specs.Tickets.{instant_of, limit_of, ticket, RenewsOne, RenewsNamed, QueueKept};

use event_queue::queue::Queue;
use fairway::course::Course;
use fairway::instant::Instant;
use fairway::pair::Pair;
use fairway::stamp::Stamp;
use kinetic::structure::Structure;

/// What a board's queue keeps under the number of a certificate: the instant at which its two draw level, in lowest
/// terms.
pub type Ticket = Stamp;

// The ticket that a certificate asks for, or none.
pub(crate) fn ticket_of(certificate: Option<(Course, Course)>) -> Option<Ticket>
    ensures { result ≡ ticket certificate }
{
    let (rear, front) = certificate?;
    Pair::new(rear, front).level_instant()
}

// The limit of an advance to an instant: the queue hands out the tickets that are not after it.
pub(crate) fn limit_of(to: Instant) -> Ticket
    ensures { result ≡ limit_of (stamp_of to) }
{
    to.stamp()
}

// The instant of a ticket.
pub(crate) fn instant_of(ticket: Ticket) -> Stamp
    ensures { result ≡ instant_of ticket }
{
    ticket
}

// Gives the ticket of a certificate number the key that its certificate asks for, or drops it.
pub(crate) fn renew<S: Structure, Q: Queue<Key = Ticket>>(
    structure: &S,
    queue: &mut Q,
    number: usize,
)
    ensures only { RenewsOne S.means Q.means structure.now queue.old queue.new number }
    ensures kept { QueueKept Q.means queue.old queue.new }
{
    match ticket_of(structure.certificate(number)) {
        Some(key) => {
            // a sound queue of the capacity does not refuse: the number of a certificate is below 64
            let _ = queue.rekey(number, key);
        }
        None => {
            let _ = queue.drop(number);
        }
    }
}

// Renews the tickets of the certificate numbers that are named.
pub(crate) fn renew_all<S: Structure, Q: Queue<Key = Ticket>>(
    structure: &S,
    queue: &mut Q,
    numbers: &[u8],
)
    ensures tickets { RenewsNamed S.means Q.means structure.now queue.old queue.new numbers.now }
    ensures kept { QueueKept Q.means queue.old queue.new }
{
    for number in numbers {
        renew(structure, queue, usize::from(*number));
    }
}

// Whether a number is named.
pub(crate) fn is_named(numbers: &[u8], number: usize) -> bool
    ensures { result ≡ among number numbers.now }
{
    numbers.iter().any(|named| usize::from(*named) == number)
}
