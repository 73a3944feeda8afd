// What the program prints.
use crate::kind::Kind;
use crate::tally::{Counts, Tally};
use std::io;

pub fn write_difference(rt: &impl Print, kind: Kind, line: u64) -> io::Result<()> {
    println!(rt; "{kind}: line {line} differs")
}

pub fn write_not_understood(rt: &impl Print, line: u64) -> io::Result<()> {
    println!(rt; "line {line} is not understood")
}

// A line for each kind of call that the file has rows of.
fn write_kinds(rt: &impl Print, tally: &Tally) -> io::Result<()> {
    for (kind, counts) in Kind::ALL.iter().zip(&tally.counts) {
        let Counts { compared, differ } = *counts;
        if compared > 0 {
            println!(rt; "{kind}: {compared} compared, {differ} differ")?;
        }
    }
    Ok(())
}

pub fn write_tally(rt: &impl Print, tally: &Tally) -> io::Result<()> {
    write_kinds(rt, tally)?;
    println!(rt; "not understood: {}", tally.not_understood)
}
