// An order sliced over the trading days of a date range, by their number [slice-order].
#![tactic(auto)]

ghost use Rattle.std.specs.Prelude.{◌≡◌, ◌+◌, ◌≤◌, ◌<◌, ◌^◌, length};
ghost use Rattle.buffers.specs.Buffers.{overwrite};
ghost use Rattle.orders.specs.Slices.{slices_of, slice_days, slice_result, slice_buffer};

use checks::checked_room;
use error::CalendarError;

// How many days the order is sliced over, the shares of each, and how many shares are left, of which the first days carry one each.
#[derive(Clone, Copy)]
pub struct Slicing {
    pub count: u32,
    pub per_day: u32,
    pub remainder: u32,
}

// Errors 11 and 9, or the number of days.
#[tactic(auto, unfolding(crate::specs::Slices::slice_days))]
fn slice_days(count: u32, room: usize) -> Result<u32, CalendarError>
    ensures { result ≡ slice_days count room }
{
    if count == 0 {
        return Err(CalendarError::NoTradingDayInRange);
    }
    checked_room(count as usize, room)
}

// [slices]: each entry is written once, and without a division.
fn write_slices(per_day: u32, remainder: usize, count: usize, out: &mut [u32])
    requires { (remainder < count) × (count ≤ length out.old) × (per_day + remainder < 2 ^ 32) }
    ensures { out.new ≡ overwrite (slices_of per_day remainder count) out.old }
{
    let more = if 0 < remainder { per_day + 1 } else { per_day };
    buffers::fill(more, &mut out[0..remainder]);
    buffers::fill(per_day, &mut out[remainder..count]);
}

// [slice-order], over the days counted: error 11 or 9; or the slices are at the start of the buffer, the rest of which stays.
pub fn slice_order(quantity: u32, count: u32, out: &mut [u32]) -> Result<Slicing, CalendarError>
    ensures { (result ≡ slice_result quantity count out.old)
        × (out.new ≡ slice_buffer quantity count out.old) }
{
    let days = slice_days(count, out.len())?;
    let per_day = quantity / days;
    let remainder = quantity % days;
    write_slices(per_day, remainder as usize, days as usize, out);
    Ok(Slicing {
        count: days,
        per_day,
        remainder,
    })
}
