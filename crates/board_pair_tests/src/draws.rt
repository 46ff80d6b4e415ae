use board::call::Call;
use fairway::instant::Instant;

// Numbers drawn by a linear congruential generator.
#[derive(Clone, Copy)]
pub struct Draws {
    seed: u32,
}

impl Draws {
    pub fn new(seed: u32) -> Draws {
        Draws { seed }
    }

    // A number below 256.
    fn byte(&mut self) -> u8 {
        self.seed = self
            .seed
            .wrapping_mul(1_664_525)
            .wrapping_add(1_013_904_223);
        (self.seed >> 24) as u8
    }

    // A vessel's number, rarely 0.
    fn number(&mut self) -> u16 {
        u16::from(self.byte() % 40)
    }

    // A position, rarely out of range.
    fn position(&mut self) -> i32 {
        match self.byte() {
            0 => 100_000_001,
            byte => i32::from(byte) - 128,
        }
    }

    // A speed, rarely out of range.
    fn speed(&mut self) -> i16 {
        match self.byte() {
            0 => -1001,
            byte => i16::from(byte % 16) - 8,
        }
    }

    // An advance to an instant near the clock, sometimes before it, and rarely none of its instants.
    fn advance(&mut self, clock: Instant) -> Call {
        let later = u64::from(self.byte() % 4);
        let earlier = u64::from(self.byte() % 8 == 0);
        let denominator = u16::from(self.byte() % 12);
        let numerator = match self.byte() % 3 {
            0 => u16::from(self.byte() % 12),
            _ => 0,
        };
        Call::Advance {
            seconds: clock
                .seconds()
                .saturating_add(later)
                .saturating_sub(earlier),
            numerator,
            denominator,
        }
    }

    // A call at a clock. An opening is rare.
    pub fn call(&mut self, clock: Instant) -> Call {
        let number = self.number();
        match self.byte() % 16 {
            0..=5 => Call::Enter {
                number,
                position: self.position(),
                speed: self.speed(),
            },
            6..=7 => Call::Leave { number },
            8..=9 => Call::Steer {
                number,
                speed: self.speed(),
            },
            10 if self.byte() < 5 => Call::Open,
            _ => self.advance(clock),
        }
    }
}
