use anyhow::anyhow;
use event_queue::queue::Queue;
use std::str::FromStr;

// The queue that is called.
#[derive(Drop)]
pub(crate) enum Choice {
    Binary,
    Pairing,
}

impl FromStr for Choice {
    type Err = anyhow::Error;

    fn from_str(word: &str) -> anyhow::Result<Choice> {
        match word {
            "binary" => Ok(Choice::Binary),
            "pairing" => Ok(Choice::Pairing),
            _ => Err(anyhow!("the queue is `binary` or `pairing`")),
        }
    }
}

// A call on a queue of 64 tickets.
#[derive(Clone, Copy)]
enum Call {
    Put(usize, u32),
    Drop(usize),
    Take(u32),
}

// What each word is multiplied by to make the next, and what is added to it.
const MULTIPLIER: u64 = 6_364_136_223_846_793_005;

const INCREMENT: u64 = 1_442_695_040_888_963_407;

// A linear congruential generator of calls.
#[derive(Drop)]
struct Generator {
    word: u64,
}

impl Generator {
    fn new() -> Generator {
        Generator { word: 1 }
    }

    // The next call: of eight draws five are puts, two drops and one a take. The key's lowest part is the ticket, so that
    // no two tickets hold one key.
    fn next_call(&mut self) -> Call {
        self.word = self.word.wrapping_mul(MULTIPLIER).wrapping_add(INCREMENT);
        let ticket = (self.word >> 58) % 64;
        let key = ((self.word >> 29) % 67_108_864 * 64 + ticket) as u32;
        match (self.word >> 55) % 8 {
            0 | 1 => Call::Drop(ticket as usize),
            2 => Call::Take(key),
            _ => Call::Put(ticket as usize, key),
        }
    }
}

// Makes a call, and answers a number that tells what it answered.
fn perform<Q: Queue<Key = u32>>(queue: &mut Q, call: Call) -> u64 {
    match call {
        Call::Put(ticket, key) => match queue.put(ticket, key) {
            Ok(()) => 0,
            Err(refusal) => u8::from(refusal) as u64,
        },
        Call::Drop(ticket) => match queue.drop(ticket) {
            Ok(Some(key)) => key as u64 + 2,
            Ok(None) => 1,
            Err(refusal) => u8::from(refusal) as u64,
        },
        Call::Take(limit) => queue.take(limit).map_or(1, |taken| taken.1 as u64 + 2),
    }
}

// Makes the calls in turn, and answers the sum over what they answered, in which their order counts.
pub(crate) fn run_calls<Q: Queue<Key = u32>>(queue: &mut Q, calls: u32) -> u64 {
    let mut generator = Generator::new();
    let mut sum: u64 = 0;
    for _ in 0..calls {
        let answer = perform(queue, generator.next_call());
        sum = sum.wrapping_mul(31).wrapping_add(answer);
    }
    sum
}
