use trace_replay::fault::Fault;

// What every byte of a page is before a line is written.
pub const BLANK: u8 = b'.';

// What a replay answers: how many bytes are written, or the fault's number, how many bytes are written, and the place.
pub type Answer = Result<usize, (u8, usize, usize)>;

// A replay's answer in numbers.
pub fn told(answer: Result<usize, Fault>) -> Answer {
    answer.map_err(|fault| (u8::from(fault.cause), fault.written, fault.place))
}
