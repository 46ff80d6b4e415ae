ghost use Rattle.std.specs.Prelude.{◌≡◌};

use crate::instant::Instant;

impl Instant {
    /// The whole seconds.
    pub fn seconds(&self) -> u64
        ensures { result ≡ self.now.seconds }
    {
        self.seconds
    }

    /// The numerator of the fraction in lowest terms.
    pub fn numerator(&self) -> u16
        ensures { result ≡ self.now.numerator }
    {
        self.numerator
    }

    /// The denominator of the fraction in lowest terms.
    pub fn denominator(&self) -> u16
        ensures { result ≡ self.now.denominator }
    {
        self.denominator
    }
}
