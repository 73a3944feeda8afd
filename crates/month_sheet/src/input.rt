// What is read of the input.
ghost use Rattle.std.specs.Prelude.{◌≡◌, ◌≤◌, length, take};

use std::io::Read;

// One byte more than the longest text of the form has: of a longer input so much is malformed, as the whole is.
pub const INPUT_LENGTH: usize = 49;

// Reads until the buffer is full or the input ends, and answers how many bytes were read; a read may bring fewer than there are. Where
// one fails the answer is 0, for no text: what came before the failure is never printed as a sheet.
// A number and no slice, since `ReadOf` speaks of the whole buffer. std has no call for the loop: `read_exact` refuses a shorter input.
pub fn read(input: &mut impl Read, buffer: &mut [u8]) -> usize
    ensures { (result ≤ length buffer.new) × (result ≡ length (take result buffer.new)) }
{
    let mut n = 0;
    while n < buffer.len() {
        let Ok(more) = input.read(&mut buffer[n..]) else {
            return 0;
        };
        if more == 0 {
            return n;
        }
        n += more;
    }
    n
}
