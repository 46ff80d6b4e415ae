use fairway::instant::Instant;

/// A board: a kinetic structure of the vessels aboard, an event queue with the tickets of its certificates, the clock, and
/// the number of mends since the board was opened.
#[derive(Drop)]
pub struct Board<S, Q> {
    pub(crate) structure: S,
    pub(crate) queue: Q,
    pub(crate) clock: Instant,
    pub(crate) total: u64,
    // how many ticket numbers the queue had at the latest opening; no call changes it
    pub(crate) capacity: usize,
}
