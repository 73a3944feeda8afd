// The text of the month sheet: how many bytes it has, and its writer. The count of days becomes a `u32` by `as`, as `From` makes none from
// a `usize`.
#![tactic(auto)]

ghost use Rattle.std.specs.Prelude.{◌≤◌, length};

mod length;
mod lines;

pub use length::sheet_length;
pub use lines::{write_line, write_lines};
use request::Request;

// What a sheet tells: the month of a market, and its trading days. A month has at most 31.
#[derive(Clone, Copy)]
pub struct Sheet<'a> {
    pub request: Request,
    pub days: &'a [u8],
    pub ghost short: { length days.now ≤ 31 },
}
