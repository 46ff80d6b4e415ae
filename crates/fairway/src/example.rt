ghost use Rattle.std.specs.Prelude.{◌≡◌};
ghost use Rattle.fairway.specs.Examples.{one_two_five, Examples};

use crate::course::Course;

/// Three vessels of the worked examples, from rear to front at second 0: by second 6 they have all passed
/// one another.
#[tactic(auto, using(crate::proofs::Examples::examples))]
pub fn three_vessels() -> [Course; 3]
    ensures value { result ≡ one_two_five }
    ensures examples { Examples }
{
    [
        Course {
            number: 1,
            speed: 3,
            base: 0,
        },
        Course {
            number: 2,
            speed: 2,
            base: 6,
        },
        Course {
            number: 5,
            speed: 1,
            base: 12,
        },
    ]
}
