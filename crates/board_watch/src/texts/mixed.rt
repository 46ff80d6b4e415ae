use board::list::Length;
use fairway::instant::Instant;
use fairway::stamp::Stamp;
use std::fmt;

// A number of wholes and a fraction, to be shown as `4 1/2`, `4`, `1/2` or `-4 1/2`. The fraction is not brought
// to lowest terms.
#[derive(Clone, Copy)]
pub struct Mixed {
    is_negative: bool,
    wholes: u128,
    numerator: u128,
    denominator: u16,
}

impl Mixed {
    // So many seconds and a fraction.
    pub fn of_numbers(seconds: u64, numerator: u16, denominator: u16) -> Mixed {
        Mixed {
            is_negative: false,
            wholes: u128::from(seconds),
            numerator: u128::from(numerator),
            denominator,
        }
    }
}

impl From<Stamp> for Mixed {
    fn from(at: Stamp) -> Mixed {
        Mixed::of_numbers(
            at.seconds,
            at.numerator,
            at.denominator_less_one.saturating_add(1),
        )
    }
}

impl From<Instant> for Mixed {
    fn from(at: Instant) -> Mixed {
        Mixed::of_numbers(at.seconds(), at.numerator(), at.denominator())
    }
}

impl From<Length> for Mixed {
    fn from(length: Length) -> Mixed {
        let parts = length.parts.unsigned_abs();
        let denominator = u128::from(length.denominator);
        Mixed {
            is_negative: length.parts < 0,
            wholes: parts.checked_div(denominator).unwrap_or(0),
            numerator: parts.checked_rem(denominator).unwrap_or(parts),
            denominator: length.denominator,
        }
    }
}

impl fmt::Display for Mixed {
    fn fmt<W: fmt::Write>(&self, f: &mut fmt::Formatter<W>) -> fmt::Result {
        let Mixed {
            is_negative,
            wholes,
            numerator,
            denominator,
        } = self;
        let sign = if *is_negative { "-" } else { "" };
        match (*wholes, *numerator) {
            (_, 0) => write!(f, "{sign}{wholes}"),
            (0, _) => write!(f, "{sign}{numerator}/{denominator}"),
            _ => write!(f, "{sign}{wholes} {numerator}/{denominator}"),
        }
    }
}
