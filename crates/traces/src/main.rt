#![tactic(auto)]

use anyhow::anyhow;
use std::env;
use std::io::{Read, Write};
use std::process::ExitCode;
use std::str::FromStr;
use trace::fault::Stop;
use trace::whole::ReadError;
use trace_text::convert::{text_of_trace, trace_of_text};
use trace_text::text::TextError;

// What is done with standard input.
#[derive(Drop)]
enum Task {
    // a text is read, and its trace written
    Write,
    // a trace is read, and its text written
    Read,
}

impl FromStr for Task {
    type Err = anyhow::Error;

    fn from_str(word: &str) -> anyhow::Result<Task> {
        match word {
            "write" => Ok(Task::Write),
            "read" => Ok(Task::Read),
            _ => Err(anyhow!("the task is `write` or `read`")),
        }
    }
}

// The task that the first argument names.
fn chosen_task(rt: &HostRuntime) -> anyhow::Result<Task> {
    match env::args(rt)?.nth(1) {
        Some(word) => word.parse(),
        None => Err(anyhow!("the task is `write` or `read`")),
    }
}

// Writes the trace of a text to standard output.
fn write(rt: &HostRuntime, text: &[u8]) -> anyhow::Result<()> {
    match trace_of_text(rt.alloc(), text) {
        Ok(trace) => Ok(rt.stdout().write_all(trace.as_slice())?),
        Err(TextError::Unreadable(number)) => Err(anyhow!(
            "line {number}: no record is written so"
        )),
        Err(TextError::Memory) => Err(anyhow!("memory is wanting")),
    }
}

// Writes the text of a trace to standard output.
fn read(rt: &HostRuntime, trace: &[u8]) -> anyhow::Result<()> {
    match text_of_trace(rt.alloc(), trace) {
        Ok(text) => Ok(rt.print(text)?),
        Err(ReadError::Stopped(Stop { fault, place })) => {
            let number = u8::from(fault);
            Err(anyhow!("fault {number} at place {place}"))
        }
        Err(ReadError::Memory) => Err(anyhow!("memory is wanting")),
    }
}

// Does the task with standard input.
fn run(rt: &HostRuntime) -> anyhow::Result<()> {
    let task = chosen_task(rt)?;
    let mut input = Vec::new(rt.alloc());
    rt.stdin().read_to_end(&mut input)?;
    match task {
        Task::Write => write(rt, input.as_slice()),
        Task::Read => read(rt, input.as_slice()),
    }
}

fn main(rt: HostRuntime) -> anyhow::Result<ExitCode> {
    match run(&rt) {
        Ok(()) => Ok(ExitCode::SUCCESS),
        Err(e) => {
            eprintln!(rt; "{e}")?;
            Ok(ExitCode::FAILURE)
        }
    }
}
