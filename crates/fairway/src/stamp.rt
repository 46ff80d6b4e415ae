ghost use Rattle.fairway.specs.Stamps.{earlier, Compared};
ghost use Rattle.fairway.specs.StampsLemmas as Stamps;

use event_queue::key::Key;

/// An instant in plain numbers, for cells and rows. Any three numbers make a stamp, in lowest terms or not.
#[derive(Clone, Copy, PartialEq, Eq, Debug)]
pub struct Stamp {
    /// Whole seconds.
    pub seconds: u64,
    /// The numerator of the fraction of a second.
    pub numerator: u16,
    /// The denominator less one, so that each number makes a denominator from 1 to 65,536.
    pub denominator_less_one: u16,
}

impl Stamp {
    /// Whether this stamp is earlier: by whole seconds, then by each numerator times the other's denominator.
    /// It is no `PartialOrd`: 1/2 and 2/4 are different stamps, and neither is earlier, so no order that
    /// agrees with `==` answers this.
    pub fn is_earlier(&self, other: &Stamp) -> bool
        ensures { Compared self.now other.now result }
    {
        // most differ in their seconds: the products are made only where they do not
        if self.seconds != other.seconds {
            return self.seconds < other.seconds;
        }
        let own = u32::from(self.numerator) * (u32::from(other.denominator_less_one) + 1);
        let others = u32::from(other.numerator) * (u32::from(self.denominator_less_one) + 1);
        own < others
    }
}

// Stamps as keys: the earlier comes before the later.
impl Key for Stamp {
    ghost before = { earlier };

    ghost asymmetric = { Stamps.asymmetric };

    ghost carries = { Stamps.carries };

    fn is_before(&self, other: &Stamp) -> bool {
        self.is_earlier(other)
    }
}
