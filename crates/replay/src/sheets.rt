// Rows about month sheets: the room of the buffer and the bytes of the text; the fields of the C struct, in order, and the bytes of
// the buffer.
use crate::buffer::with_buffer;
use crate::numbers::{CAPACITY, Numbers};
use arrayvec::ArrayVec;
use trading_calendar::sheets::tc_month_sheet;

// What each byte of the buffer is before the call, so that a byte that was kept is seen: no sheet has it.
const UNTOUCHED: u8 = b'.';

// The numbers as bytes, if all of them are.
fn bytes_of(numbers: &[u32]) -> Option<ArrayVec<u8, CAPACITY>> {
    let mut bytes = ArrayVec::new();
    for number in numbers {
        bytes.try_push(u8::try_from(*number).ok()?).ok()?;
    }
    Some(bytes)
}

// The first input is the room, and all others are the text. None where one of them is no byte.
pub fn month_sheet(inputs: &[u32]) -> Option<Numbers> {
    let (room, text) = inputs.split_first()?;
    let text = bytes_of(text)?;
    with_buffer(
        *room,
        UNTOUCHED,
        |buffer| tc_month_sheet(text.as_slice(), buffer),
    )
}
