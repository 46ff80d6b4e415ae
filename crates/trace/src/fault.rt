ghost use Rattle.std.specs.Prelude.{◌≡◌};
ghost use Rattle.trace.specs.Faults.{fault_number};

// What is wrong with a trace.
#[derive(Clone, Copy, PartialEq, Eq, Debug)]
pub enum Fault {
    // a header or a record lacks bytes, or the trace has no end record
    Short,
    // the trace does not begin with the mark
    BadMark,
    // the trace is of another version
    BadVersion,
    // no record is of this kind
    UnknownKind,
    // a byte stands after the end record
    Trailing,
}

// The fault's number in the table of refusals.
impl From<Fault> for u8 {
    ghost from_gives = { λ fault number. number ≡ fault_number fault };

    fn from(fault: Fault) -> u8 {
        match fault {
            Fault::Short => 13,
            Fault::BadMark => 14,
            Fault::BadVersion => 15,
            Fault::UnknownKind => 16,
            Fault::Trailing => 17,
        }
    }
}

// A fault and the place where it is: how many bytes of the trace stand before it.
#[derive(Clone, Copy, PartialEq, Eq, Debug)]
pub struct Stop {
    pub fault: Fault,
    pub place: usize,
}
