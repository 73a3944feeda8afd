// The calls of src/calendar.rs about the days of a month and of a range.
ghost use Rattle.std.specs.Prelude.{◌≡◌, true, length};
ghost use Rattle.gregorian.specs.Calendar.{is_date};
ghost use Rattle.trading_days.specs.Month.{month_list};
ghost use Rattle.checks.specs.Checks.{checked_room, final_buffer};
ghost use Rattle.range_calls.specs.RangeCalls.{trading_days_in_month_result, trading_days_in_month_buffer, count_trading_days_result};

use checks::{checked_month, checked_range, checked_room};
use error::CalendarError;
use gregorian::{Date, day_number, is_date};
use trading_days::LONGEST_MONTH;

// The list of a month that is past its check: how many days were written, or error 9. Market, year and month come from C as numbers, which
// nothing ties together before the check; the bytes are of the longest month, as trading_days::month_days says.
fn write_days(market: u32, year: u32, month: u32, out: &mut [u8]) -> Result<u32, CalendarError>
    requires { is_date year month 1 ≡ true }
    ensures { (result ≡ checked_room (length (month_list market year month)) (length out.old))
        × (out.new ≡ final_buffer result (month_list market year month) out.old) }
{
    let mut days = [0; LONGEST_MONTH];
    let count = trading_days::month_days(market, year, month, &mut days);
    let n = checked_room(count, out.len())?;
    buffers::write(&days[..count], out);
    Ok(n)
}

// [month-list]: how many days were written, or the first of errors 8, 1, 2 and 9 that applies.
#[tactic(auto, unfolding(crate::specs::RangeCalls::trading_days_in_month_result))]
pub fn trading_days_in_month(
    market: u32,
    year: u32,
    month: u32,
    out: &mut [u8],
) -> Result<u32, CalendarError>
    ensures { (result ≡ trading_days_in_month_result market year month out.old)
        × (out.new ≡ trading_days_in_month_buffer market year month out.old) }
{
    checked_month(market, year, month)?;
    write_days(market, year, month, out)
}

// [count]: how many days trade from the start to the end, or the first of errors 8, 5 and 1 that applies.
pub fn count_trading_days(market: u32, start: Date, end: Date) -> Result<u32, CalendarError>
    ensures { result ≡ count_trading_days_result market start.year start.month start.day end.year end.month end.day }
{
    let is_market = markets::is_market(market);
    // The dates are asked about first, for the registers of the count; the order of the errors is that of the tests.
    let starts = is_date(start.year, start.month, start.day);
    let ends = is_date(end.year, end.month, end.day);
    if !is_market {
        return Err(CalendarError::UnknownMarket);
    }
    checked_range(starts, ends, start, end)?;
    let first = day_number(start.year, start.month, start.day);
    let last = day_number(end.year, end.month, end.day);
    Ok(trading_days::count(market, first, start, last))
}
