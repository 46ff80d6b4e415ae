ghost use Rattle.std.specs.Prelude.{◌≡◌, [], ◌≤◌, length};
ghost use Rattle.kinetic.specs.Numbers.{Pushed};

use std::marker::Model;

/// How many certificate numbers there are: all are below it.
pub const CERTIFICATES: usize = 64;

/// A list of at most 64 certificate numbers: whoever reads it pays for as many as there are. Its memory has a fixed
/// size, since a change of a structure asks for none; it is bytes, since all certificate numbers are below 64 and the
/// list is copied as it is handed on.
#[derive(Clone, Copy)]
pub struct Numbers {
    count: usize,
    numbers: [u8; CERTIFICATES],
}

// A clause sees the numbers, in the order in which they were added. Behind them the buffer is zero, so that
// they give the fields back.
impl Model for Numbers {
    ghost use Rattle.std.specs.Prelude.{ℕ, List, take, length};
    ghost use Rattle.kinetic.specs.Numbers.{Padded, padded, padded_back};

    ghost Value = { List ℕ };

    ghost view = { λ n. take n.count n.numbers };

    ghost invariant = { λ n. Padded n.count n.numbers };

    ghost inverse = { λ ns. record { count = length ns; numbers = padded ns } };

    ghost inverse_ok = { λ n h i. record {
      count = (padded_back n.count n.numbers h).0 i;
      numbers = (padded_back n.count n.numbers h).1 i;
    } };
}

impl Numbers {
    /// No number.
    pub fn new() -> Numbers
        ensures { result ≡ [] }
    {
        Numbers {
            count: 0,
            numbers: [0; CERTIFICATES],
        }
    }

    /// Adds a number behind the others; where 64 are there already, nothing changes.
    pub fn push(&mut self, number: u8)
        ensures { Pushed self.old self.new number }
    {
        if self.count >= CERTIFICATES {
            return;
        }
        self.numbers[self.count] = number;
        self.count += 1;
    }

    /// The numbers, in the order in which they were added.
    pub fn as_slice(&self) -> &[u8]
        ensures value { result.now ≡ self.now }
        ensures few { length result.now ≤ 64 }
    {
        &self.numbers[..self.count]
    }
}
