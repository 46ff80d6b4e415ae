use crate::texts::{LineText, PassingText};
use board::call::{Line, Outcome, Row};
use std::io;

// How many rows an outcome has.
fn mends_of(outcome: Outcome) -> usize {
    match outcome {
        Outcome::Accepted { mends } => mends,
        Outcome::Refused { .. } => 0,
    }
}

// Prints the passings of an advance.
fn print_rows(rt: &impl Print, rows: &[Row]) -> io::Result<()> {
    for row in rows {
        let passing = PassingText(*row);
        println!(rt; "    {passing}")?;
    }
    Ok(())
}

// Prints what came of each line, and below it the passings of an advance, whose rows stand one after the other.
pub fn print_lines(rt: &impl Print, lines: &[Line], rows: &[Row]) -> io::Result<()> {
    let mut left = rows;
    for line in lines {
        let text = LineText(*line);
        println!(rt; "{text}")?;
        let (own, others) = left.split_at(mends_of(line.outcome).min(left.len()));
        print_rows(rt, own)?;
        left = others;
    }
    Ok(())
}
