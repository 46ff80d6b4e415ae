ghost use Rattle.std.specs.Prelude.{◌≡◌, ℕ, ◌<◌, true, false};
ghost use Rattle.fairway.specs.Courses.{InRange, Due};
ghost use Rattle.fairway.specs.Stamps.{time_of};
ghost use Rattle.kinetic.specs.Limits.{out_of_range, due, Checked};

use crate::refusal::Refusal;
use fairway::course::Course;
use fairway::pair::Pair;
use fairway::stamp::Stamp;

/// Whether the speed is above 1,000 or the base above 33,654,432,000 in size: whether the course is out of range
/// under any number.
#[tactic(auto, unfolding(crate::specs::Limits::out_of_range))]
pub fn is_out_of_range(course: Course) -> bool
    ensures value { result ≡ out_of_range course }
    ensures within { result ≡ false → 0 < course.number → InRange course }
    ensures beyond { result ≡ true → InRange course → ⊥ }
{
    let numbered = Course {
        number: 1,
        ..course
    };
    !numbered.is_in_range()
}

/// Refuses a course that has no number, or is out of range: the first lines of the tables of enter and steer.
pub fn check(course: Course) -> Result<(), Refusal>
    ensures { Checked course result }
{
    if course.number == 0 {
        return Err(Refusal::NumberZero);
    }
    if is_out_of_range(course) {
        return Err(Refusal::OutOfRange);
    }
    Ok(())
}

/// Whether a certificate, if there is one, is due: the two are level, and the rear is faster.
pub fn is_certificate_due(certificate: Option<(Course, Course)>, at: Stamp) -> bool
    ensures { result ≡ due (time_of at) certificate }
{
    certificate.is_some_and(|(rear, front)| Pair::new(rear, front).is_due(at))
}
