// A record of a trace: a call on a board, a line that its order is written at, or the trace's end.
#[derive(Clone, Copy, PartialEq, Eq, Debug)]
pub enum Record {
    // a vessel enters, at a position and with a speed
    Enter {
        number: u16,
        position: i32,
        speed: i16,
    },
    // a vessel leaves
    Leave {
        number: u16,
    },
    // a vessel goes on with another speed
    Steer {
        number: u16,
        speed: i16,
    },
    // time goes on, by whole seconds and a fraction of one
    Advance {
        seconds: u32,
        numerator: u16,
        denominator: u16,
    },
    // the order of the vessels is written
    Order,
    // the trace ends
    End,
}
