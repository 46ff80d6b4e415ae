ghost use Rattle.fairway.specs.Instants.{time_order};
ghost use Rattle.fairway.specs.InstantsLemmas as Instants;
ghost use Rattle.std.specs.Prelude.{refl};
ghost use Rattle.std.specs.Ordering.{as_partial_cmp};
ghost use Rattle.std.specs.Cmp.{po};

use crate::instant::Instant;
use std::cmp::Ordering;

// Instants by time: by whole seconds, then by each numerator times the other's denominator. In lowest terms
// the products are equal only where the numbers are, so this agrees with `==`.
impl Ord for Instant {
    ghost cmp = { time_order };

    ghost total = { Instants.total };

    ghost matches_partial_cmp = { λ _ _. refl };

    ghost matches_eq = { Instants.ties };

    fn cmp(&self, other: &Instant) -> Ordering {
        // most differ in their seconds: the products are made only where they do not
        if self.seconds != other.seconds {
            return self.seconds.cmp(&other.seconds);
        }
        let own = u32::from(self.numerator) * u32::from(other.denominator);
        let others = u32::from(other.numerator) * u32::from(self.denominator);
        own.cmp(&others)
    }
}

impl PartialOrd for Instant {
    ghost partial_cmp = { as_partial_cmp time_order };

    ghost laws = { po Instants.total Instants.ties };

    fn partial_cmp(&self, other: &Instant) -> Option<Ordering> {
        Some(self.cmp(other))
    }
}
