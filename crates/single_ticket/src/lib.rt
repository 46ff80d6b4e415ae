//! The smallest event queue that holds anything, as an example for whoever brings a queue.
#![tactic(auto)]

ghost use Rattle.std.specs.Prelude.{◌≡◌, None, refl, IfOk, IfNone};
ghost use Rattle.event_queue.specs.Queues.{Empty, Dropped, Took};
ghost use Rattle.single_ticket.specs.Meanings.{single_meaning, none_held};

use event_queue::key::Key;
use event_queue::queue::Queue;
use event_queue::refusal::Refusal;

/// The smallest event queue that holds anything: one ticket, number 0.
#[derive(Drop)]
pub struct SingleTicket<K: Key> {
    key: Option<K>,
}

impl<K: Key> SingleTicket<K> {
    /// A queue whose one ticket holds no key.
    pub fn new() -> SingleTicket<K>
        ensures { Empty single_meaning result }
    {
        SingleTicket { key: None }
    }
}

impl<K: Key> Queue for SingleTicket<K> {
    type Key = K;

    ghost means = { single_meaning };

    fn capacity(&mut self) -> usize {
        1
    }

    fn size(&mut self) -> usize {
        usize::from(self.key.is_some())
    }

    fn held(&mut self, ticket: usize) -> Result<Option<K>, Refusal> {
        if ticket > 0 {
            return Err(Refusal::NoSuchTicket);
        }
        Ok(self.key)
    }

    fn put(&mut self, ticket: usize, key: K) -> Result<(), Refusal> {
        if self.held(ticket)?.is_some() {
            return Err(Refusal::TicketHeld);
        }
        self.key = Some(key);
        Ok(())
    }

    // Beyond the trait, a `drop` or a `take` that answers none leaves the queue exactly as it was.
    fn drop(&mut self, ticket: usize) -> Result<Option<K>, Refusal>
        ensures after { Dropped single_meaning self.old self.new ticket result }
        ensures keeps { single_meaning.keeps self.old self.new }
        ensures none { IfOk result (λ key. IfNone key (self.new ≡ self.old)) }
    {
        self.held(ticket)?;
        Ok(self.key.take())
    }

    fn take(&mut self, limit: K) -> Option<(usize, K)>
        ensures after { Took single_meaning K.before self.old self.new limit result }
        ensures keeps { single_meaning.keeps self.old self.new }
        ensures none { IfNone result (self.new ≡ self.old) }
    {
        let key = self.key?;
        if limit.is_before(&key) {
            return None;
        }
        self.key = None;
        Some((0, key))
    }

    ghost inhabited = { (record { key = None }, none_held) };
}
