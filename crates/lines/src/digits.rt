ghost use Rattle.std.specs.Prelude.{◌≡◌, ◌≤◌, length, decimal};

/// How many digits a number has in decimal.
#[tactic(auto, using(crate::proofs::Lengths::one, crate::proofs::Lengths::more, crate::proofs::Lengths::few))]
pub fn digit_count(number: u64) -> usize
    ensures value { result ≡ length (decimal number) }
    ensures few { result ≤ 20 }
{
    let mut count = 1;
    let mut rest = number;
    while rest >= 10 {
        rest /= 10;
        count += 1;
    }
    count
}
