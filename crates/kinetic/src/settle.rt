ghost use Rattle.std.specs.Prelude.{◌≡◌};
ghost use Rattle.fairway.specs.Stamps.{time_of};
ghost use Rattle.kinetic.specs.Settling.{FirstDue, Settled};

use crate::limits::is_certificate_due;
use crate::numbers::CERTIFICATES;
use crate::structure::Structure;
use fairway::stamp::Stamp;

/// The least number of a certificate that is due, or none.
pub fn first_due<S: Structure>(structure: &S, at: Stamp) -> Option<usize>
    ensures { FirstDue S.means (time_of at) structure.now result }
{
    (0..CERTIFICATES).find(|number| is_certificate_due(structure.certificate(*number), at))
}

/// Mends until none is due, which takes at most as many mends as the load says, and answers the foremost.
pub fn settle<S: Structure>(structure: &mut S, at: Stamp) -> Option<u16>
    ensures { Settled S.means (time_of at) structure.old structure.new result }
{
    for _ in 0..=structure.load() {
        let Some(number) = first_due(structure, at) else {
            break;
        };
        let _ = structure.mend(number, at);
    }
    structure.foremost()
}
