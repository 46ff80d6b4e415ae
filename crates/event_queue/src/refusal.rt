ghost use Rattle.std.specs.Prelude.{◌≡◌};
ghost use Rattle.event_queue.specs.Refusals.{refusal_number};

/// Why an event queue refused a call.
#[derive(Clone, Copy, PartialEq, Eq, Debug)]
pub enum Refusal {
    /// the number is not below the capacity
    NoSuchTicket,
    /// the ticket has a key already
    TicketHeld,
}

/// The refusal's number in the table of refusals.
impl From<Refusal> for u8 {
    ghost from_gives = { λ refusal number. number ≡ refusal_number refusal };

    fn from(refusal: Refusal) -> u8 {
        match refusal {
            Refusal::NoSuchTicket => 11,
            Refusal::TicketHeld => 12,
        }
    }
}
