// Prints the month sheet that standard input asks for, or the number of the error [sheet-program].
#![tactic(auto)]

mod input;
mod output;

use input::INPUT_LENGTH;
use output::OUTPUT_LENGTH;
use std::io;

fn main(rt: HostRuntime) -> io::Result<()> {
    let mut buffer = [0; INPUT_LENGTH];
    let n = input::read(&mut rt.stdin(), &mut buffer);
    let mut out = [0; OUTPUT_LENGTH];
    let count = output::of_input(&buffer, n, &mut out);
    rt.write_all(&out[..count])
}
