// Compares stored answers with those of the library, and prints how many rows it compared and how many differ.
#![tactic(auto)]

mod buffer;
mod calls;
mod day_ranges;
mod fields;
mod hours;
mod items;
mod kind;
mod lists;
mod numbers;
mod reader;
mod report;
mod row;
mod sheets;
mod tally;

use reader::Reader;
use std::io::Read;
use std::rt::Files;
use std::{fs, io};

// How many bytes are read at once, at most.
const BUFFER_LENGTH: usize = 4096;

// Prints the file's name, the lines that differ or are not understood, and the counts.
fn replay(rt: &(impl Files + Print), path: &str) -> io::Result<()> {
    println!(rt; "{path}")?;
    let Ok(mut file) = fs::open(rt, path) else {
        return println!(rt; "cannot be opened");
    };
    let mut reader = Reader::default();
    let mut buffer = [0; BUFFER_LENGTH];
    // A proved loop has to end, and nothing says that a file does. No file uses up so many turns.
    for _ in 0..u64::MAX {
        let Ok(n) = file.read(&mut buffer) else {
            return println!(rt; "cannot be read");
        };
        if n == 0 {
            break;
        }
        reader.push_all(rt, &buffer[..n])?;
    }
    report::write_tally(rt, &reader.finish(rt)?)
}

fn main(rt: HostRuntime) -> io::Result<()> {
    for path in [
        "easter.txt",
        "weekdays.txt",
        "holidays.txt",
        "hours.txt",
        "neighbours.txt",
        "ranges.txt",
        "sheets.txt",
        "malformed.txt",
    ] {
        replay(&rt, path)?;
    }
    Ok(())
}
