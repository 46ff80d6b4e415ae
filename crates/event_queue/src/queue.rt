ghost use Rattle.std.specs.Prelude.{◌≡◌};
ghost use Rattle.event_queue.specs.Queues.{
  Meaning,
  size_of,
  Held,
  Put,
  Dropped,
  Rekeyed,
  Took,
  Empty,
};

use crate::key::Key;
use crate::refusal::Refusal;

/// The most ticket numbers that a sound queue has.
pub const MOST_TICKETS: usize = 64;

/// An event queue: keys under ticket numbers, of which it hands out one that has none before it.
///
/// Every call is safe and ends whatever the queue's memory holds. What is promised under the condition
/// `sound` is promised of a queue that has it, and no call takes it away. Each call that changes something
/// says `keeps` of the queue before and after: a relation of two states, which no type can hold.
///
/// The questions `capacity`, `size` and `held` take the queue for writing, since a queue may have to borrow
/// its memory so to find an answer; they leave it exactly as it was.
pub trait Queue {
    type Key: Key;

    ghost means: { Meaning Self Self.Key };

    /// How many ticket numbers there are: they are the numbers below it.
    fn capacity(&mut self) -> usize
        ensures value { result ≡ means.capacity self.old }
        ensures same { self.new ≡ self.old };

    /// How many tickets hold a key.
    fn size(&mut self) -> usize
        ensures value { means.sound self.old → result ≡ size_of means self.old }
        ensures same { self.new ≡ self.old };

    /// The key that a ticket holds, or none. It refuses a number that is not below the capacity: 11.
    fn held(&mut self, ticket: usize) -> Result<Option<Self::Key>, Refusal>
        ensures value { means.sound self.old → Held means self.old ticket result }
        ensures same { self.new ≡ self.old };

    /// Gives a ticket a key. It refuses a number that is not below the capacity, 11, and a ticket that holds
    /// a key, 12.
    fn put(&mut self, ticket: usize, key: Self::Key) -> Result<(), Refusal>
        ensures after { Put means self.old self.new ticket key result }
        ensures keeps { means.keeps self.old self.new };

    /// Takes a ticket's key away and answers it, or none where it has none. It refuses a number that is not
    /// below the capacity: 11.
    fn drop(&mut self, ticket: usize) -> Result<Option<Self::Key>, Refusal>
        ensures after { Dropped means self.old self.new ticket result }
        ensures keeps { means.keeps self.old self.new };

    /// Gives a ticket a key, whatever it held. It refuses a number that is not below the capacity: 11. A
    /// queue that can change a key in place has a body of its own.
    fn rekey(&mut self, ticket: usize, key: Self::Key) -> Result<(), Refusal>
        ensures after { Rekeyed means self.old self.new ticket key result }
        ensures keeps { means.keeps self.old self.new }
    {
        self.drop(ticket)?;
        // not refused by a sound queue: the ticket is there, and holds nothing
        let _ = self.put(ticket, key);
        Ok(())
    }

    /// Takes out a ticket whose key is not after the limit and has none before it, or answers none. It never
    /// refuses.
    fn take(&mut self, limit: Self::Key) -> Option<(usize, Self::Key)>
        ensures after { Took means Self.Key.before self.old self.new limit result }
        ensures keeps { means.keeps self.old self.new };

    // some queue of the type is sound and holds nothing
    ghost inhabited: { (q : Self) × Empty means q };
}
