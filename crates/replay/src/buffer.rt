// Calls that write to a buffer.
use crate::fields::Fields;
use crate::numbers::Numbers;
use answers::counts::CountAnswer;

// How many bytes a buffer has at most: with the fields of the struct they are as many numbers as a row holds.
const LARGEST_ROOM: usize = 123;

// The answer of a call that is given a buffer with so much room, and all bytes of the buffer after it. None for more room than a row
// holds. The room becomes a `usize` by `as`, as `From` makes none from a `u32`.
pub fn with_buffer<F: FnOnce(&mut [u8]) -> CountAnswer>(
    room: u32,
    untouched: u8,
    call: F,
) -> Option<Numbers>
    requires { F.IsAlwaysCallable call }
{
    let mut bytes = [untouched; LARGEST_ROOM];
    let buffer = bytes.get_mut(..room as usize)?;
    let mut list = call(buffer).fields();
    list.extend(buffer.iter().map(|byte| u32::from(*byte)))
        .ok()?;
    Some(list)
}
