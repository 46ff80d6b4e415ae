/// A signed length of parts/denominator centimetres, not always in lowest terms.
#[derive(Clone, Copy, PartialEq, Eq, Debug)]
pub struct Length {
    pub parts: i128,
    pub denominator: u16,
}

/// The vessel next to another, and the gap between the two: the front vessel's position less the rear's.
#[derive(Clone, Copy, PartialEq, Eq, Debug)]
pub struct Neighbour {
    pub number: u16,
    pub gap: Length,
}

/// A side of a vessel: in front of it, or behind it.
#[derive(Clone, Copy, PartialEq, Eq, Debug)]
pub enum Side {
    Ahead,
    Behind,
}
