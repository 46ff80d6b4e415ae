ghost use Rattle.std.specs.Prelude.{◌≡◌};
ghost use Rattle.event_queue.specs.Queues.{Empty};

use crate::queue::Queue;

/// Drops every ticket number below the capacity, so that a sound queue is empty. It never refuses.
pub fn clear<Q: Queue>(queue: &mut Q)
    ensures empty { Q.means.sound queue.old → Empty Q.means queue.new }
    ensures capacity { Q.means.sound queue.old
        → Q.means.capacity queue.new ≡ Q.means.capacity queue.old }
    ensures keeps { Q.means.keeps queue.old queue.new }
{
    for ticket in 0..queue.capacity() {
        let _ = queue.drop(ticket);
    }
}
