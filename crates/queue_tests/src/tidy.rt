ghost use Rattle.event_queue.specs.Queues.{Empty};
ghost use Rattle.queue_tests.specs.Tidy.{tidy_meaning, in_none};

use event_queue::key::Key;
use event_queue::queue::Queue;
use event_queue::refusal::Refusal;
use single_ticket::SingleTicket;

// A queue of one ticket that counts the drops and takes that found no key to hand out. It shows what the interface leaves
// to a queue: where nothing is handed out the queue means what it did, and may yet write in its memory.
#[derive(Drop)]
pub struct TidyTicket<K: Key> {
    ticket: SingleTicket<K>,
    found_none: u32,
}

impl<K: Key> TidyTicket<K> {
    pub fn new() -> TidyTicket<K>
        ensures { Empty tidy_meaning result }
    {
        TidyTicket {
            ticket: SingleTicket::new(),
            found_none: 0,
        }
    }
}

impl<K: Key> Queue for TidyTicket<K> {
    type Key = K;

    ghost means = { tidy_meaning };

    fn capacity(&mut self) -> usize {
        self.ticket.capacity()
    }

    fn size(&mut self) -> usize {
        self.ticket.size()
    }

    fn held(&mut self, ticket: usize) -> Result<Option<K>, Refusal> {
        self.ticket.held(ticket)
    }

    fn put(&mut self, ticket: usize, key: K) -> Result<(), Refusal> {
        self.ticket.put(ticket, key)
    }

    fn drop(&mut self, ticket: usize) -> Result<Option<K>, Refusal> {
        let Some(key) = self.ticket.drop(ticket)? else {
            self.found_none = self.found_none.saturating_add(1);
            return Ok(None);
        };
        Ok(Some(key))
    }

    fn take(&mut self, limit: K) -> Option<(usize, K)> {
        let Some(first) = self.ticket.take(limit) else {
            self.found_none = self.found_none.saturating_add(1);
            return None;
        };
        Some(first)
    }

    ghost inhabited = { in_none };
}
