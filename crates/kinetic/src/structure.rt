ghost use Rattle.std.specs.Prelude.{◌≡◌};
ghost use Rattle.fairway.specs.Stamps.{time_of};
ghost use Rattle.kinetic.specs.Structures.{Meaning, InOrder, InFront, Lasting, Loaded, Certified, Listed, Counted, Bounded, Cleared, Entered, Left, Steered, Mended};

use crate::numbers::Numbers;
use crate::refusal::Refusal;
use fairway::course::Course;
use fairway::stamp::Stamp;

/// A kinetic structure: the courses of at most 64 vessels, and under some numbers below 64 certificates, each a pair
/// of courses, rear and front, whose order it relies on.
///
/// It is used with a clock that only advances: as long as no certificate is due, the structure is right; when one is
/// due, it is mended. Changes are given the instant. A refused call changes nothing.
///
/// A fitter owes a meaning, calls that do and answer what it says, and the laws at the end, which are of the meaning
/// alone. The fitter chooses when the structure stands, what its load counts and which certificates it keeps. Where it
/// does not stand, no order of a certificate, no right foremost and no falling load is owed; of times with denominator
/// 0, which no stamp has, nothing is; and a change may name more numbers than those that changed.
pub trait Structure {
    ghost means: { Meaning Self };

    /// Takes all vessels out.
    fn clear(&mut self)
        ensures { Cleared means self.new };

    /// Adds a course, and answers the numbers of the certificates that changed.
    fn enter(&mut self, course: Course, at: Stamp) -> Result<Numbers, Refusal>
        ensures { Entered means (time_of at) self.old self.new course result };

    /// Takes a vessel out, and answers the numbers of the certificates that changed.
    fn leave(&mut self, number: u16, at: Stamp) -> Result<Numbers, Refusal>
        ensures { Left means (time_of at) self.old self.new number result };

    /// Puts a course in the place of that of the vessel with its number, and answers the numbers of the
    /// certificates that changed.
    fn steer(&mut self, course: Course, at: Stamp) -> Result<Numbers, Refusal>
        ensures { Steered means (time_of at) self.old self.new course result };

    /// Mends a certificate that is due, and answers the numbers of the certificates that changed.
    fn mend(&mut self, certificate: usize, at: Stamp) -> Result<Numbers, Refusal>
        ensures { Mended means (time_of at) self.old self.new certificate result };

    /// The certificate of a number, rear first, or none.
    fn certificate(&self, number: usize) -> Option<(Course, Course)>
        ensures { result ≡ means.certificate self.now number };

    /// The course of a vessel, or none.
    fn course(&self, number: u16) -> Option<Course>
        ensures { result ≡ means.roster self.now number };

    /// How many vessels are aboard.
    fn count(&self) -> usize
        ensures { result ≡ means.count self.now };

    /// The load, which each mend lowers.
    fn load(&self) -> usize
        ensures { result ≡ means.load self.now };

    /// The number of the foremost vessel, or none.
    fn foremost(&self) -> Option<u16>
        ensures { result ≡ means.foremost self.now };

    // standing at a time, each certificate is in order or due
    ghost ordered: { InOrder means };

    // standing with none due, the foremost is in front of all others
    ghost leads: { InFront means };

    // it stands on until a certificate draws level
    ghost lasting: { Lasting means };

    // standing with a certificate due, it has a load, which the mend of it would lower
    ghost loaded: { Loaded means };

    // certificates have numbers below 64 and are of two vessels aboard
    ghost certified: { Certified means };

    // each vessel aboard has the number that it is asked by, and a course in range
    ghost listed: { Listed means };

    // the count is that of the roster
    ghost counted: { Counted means };

    // at most 64 vessels, and a load of at most 2,016
    ghost bounded: { Bounded means };
}
