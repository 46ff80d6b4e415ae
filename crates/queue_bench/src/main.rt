//! Makes many calls on a queue, for measuring.
#![tactic(auto)]

mod calls;

use crate::calls::{Choice, run_calls};
use anyhow::anyhow;
use binary_heap::cell::Cell;
use binary_heap::heap::BinaryHeap;
use event_queue::queue::MOST_TICKETS;
use pairing_heap::heap::PairingHeap;
use pairing_heap::node::Node;
use std::env;

// The sum over the calls on the chosen queue. Each choice lends cells of a type of its own.
fn sum_of(chosen: Choice, calls: u32) -> u64 {
    match chosen {
        Choice::Binary => {
            let mut cells = [Cell {
                key: None,
                slot: 0,
                ticket: 0,
                slot_key: 0,
            }; MOST_TICKETS];
            let mut queue: BinaryHeap<u32> = BinaryHeap::new(&mut cells);
            run_calls(&mut queue, calls)
        }
        Choice::Pairing => {
            let mut cells = [Node {
                key: None,
                child: None,
                next: None,
                back: None,
            }; MOST_TICKETS];
            let mut queue: PairingHeap<u32> = PairingHeap::new(&mut cells);
            run_calls(&mut queue, calls)
        }
    }
}

// Makes as many calls as the second argument says on the queue that the first one names, and prints the sum of the answers.
fn main(rt: HostRuntime) -> anyhow::Result<()> {
    let mut words = env::args(&rt)?;
    let chosen: Choice = words.nth(1).ok_or_else(|| anyhow!("no queue"))?.parse()?;
    let calls: u32 = words
        .next()
        .ok_or_else(|| anyhow!("no number of calls"))?
        .parse()?;
    let sum = sum_of(chosen, calls);
    println!(rt; "{sum}")?;
    Ok(())
}
