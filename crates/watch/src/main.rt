//! Reads the script of a radio watch on standard input, and writes the report on it.
#![tactic(auto)]

ghost use Rattle.std.specs.Prelude.{IfOk, string_bytes};
ghost use Rattle.radio_watch.specs.Watch.{Watched};

use anyhow::anyhow;
use binary_heap::cell::Cell;
use binary_heap::heap::BinaryHeap;
use call_sheet::sheet::CallSheet;
use event_queue::queue::MOST_TICKETS;
use pairing_heap::heap::PairingHeap;
use pairing_heap::node::Node;
use radio_watch::watch::stand_watch;
use std::alloc::{AllocError, Global};
use std::env;
use std::io::Read;
use std::str::FromStr;

// The queue that the sheet stands over.
#[derive(Drop)]
enum Choice {
    Binary,
    Pairing,
}

impl FromStr for Choice {
    type Err = anyhow::Error;

    fn from_str(word: &str) -> anyhow::Result<Choice> {
        match word {
            "binary" => Ok(Choice::Binary),
            "pairing" => Ok(Choice::Pairing),
            _ => Err(anyhow!("the queue is `binary` or `pairing`")),
        }
    }
}

// The queue that the first argument names, or the binary heap where there is no argument.
fn chosen_queue(rt: &HostRuntime) -> anyhow::Result<Choice> {
    match env::args(rt)?.nth(1) {
        Some(word) => word.parse(),
        None => Ok(Choice::Binary),
    }
}

// How many lines the sheet has.
const LINES: usize = MOST_TICKETS;

// The report on a script, from a sheet over a binary heap.
fn over_binary_heap(heap: Global, script: &[u8]) -> Result<String, AllocError>
    ensures { IfOk result (λ text. Watched 64 script.now (string_bytes text)) }
{
    let mut cells = [Cell {
        key: None,
        slot: 0,
        ticket: 0,
        slot_key: 0,
    }; LINES];
    let queue: BinaryHeap<u32> = BinaryHeap::new(&mut cells);
    let mut sheet = CallSheet::new(queue);
    stand_watch(heap, &mut sheet, script)
}

// The report on a script, from a sheet over a pairing heap.
fn over_pairing_heap(heap: Global, script: &[u8]) -> Result<String, AllocError>
    ensures { IfOk result (λ text. Watched 64 script.now (string_bytes text)) }
{
    let mut cells = [Node {
        key: None,
        child: None,
        next: None,
        back: None,
    }; LINES];
    let queue: PairingHeap<u32> = PairingHeap::new(&mut cells);
    let mut sheet = CallSheet::new(queue);
    stand_watch(heap, &mut sheet, script)
}

// Reads a script on standard input, and writes the report on it.
fn run(rt: &HostRuntime) -> anyhow::Result<()> {
    let heap = rt.alloc();
    let chosen = chosen_queue(rt)?;
    let mut script = Vec::new(heap);
    rt.stdin().read_to_end(&mut script)?;
    let report = match chosen {
        Choice::Binary => over_binary_heap(heap, script.as_slice())?,
        Choice::Pairing => over_pairing_heap(heap, script.as_slice())?,
    };
    rt.print(report)?;
    Ok(())
}

fn main(rt: HostRuntime) -> anyhow::Result<()> {
    run(&rt)
}
