// The checks of the numbers that calls are given, each one ladder of tests: the first error of [errors] that applies decides.
#![tactic(auto)]

ghost use Rattle.std.specs.Prelude.{◌≡◌, ◌<◌, ◌^◌};
ghost use Rattle.gregorian.specs.Calendar.{is_date_of};
ghost use Rattle.error.specs.Errors.{result_and_then};
ghost use Rattle.checks.specs.Checks.{is_time, checked_day, supported_day, is_month, month_error_date, checked_month};
ghost use Rattle.checks.specs.Checks.{leaves_years, checked_range, checked_room};
ghost use Rattle.checks.specs.Inner.{check_of};

use error::CalendarError;
use gregorian::days::CalendarDay;
use gregorian::{Date, is_date};
use markets::is_market;
use markets::years::{MAX_YEAR, MIN_YEAR, is_supported};

// The last second of the day.
const LAST_TIME: u32 = 86399;

// [time]
#[tactic(auto, unfolding(crate::specs::Checks::is_time))]
pub fn is_time(time: u32) -> bool
    ensures { result ≡ is_time time }
{
    time <= LAST_TIME
}

// Errors 8 and 5, or the day.
#[tactic(auto, unfolding(crate::specs::Checks::checked_day))]
pub fn checked_day(market: u32, date: Date) -> Result<CalendarDay, CalendarError>
    ensures { result_and_then result (λ day. Ok day.number) ≡ checked_day market date.year date.month date.day }
{
    let is_market = is_market(market);
    let is_date = is_date(date.year, date.month, date.day);
    if !is_market {
        return Err(CalendarError::UnknownMarket);
    }
    if !is_date {
        return Err(CalendarError::InvalidDate);
    }
    Ok(CalendarDay::new(date))
}

// Errors 8, 5, 7 and 1, or the day. A call that takes no time has none out of range.
#[tactic(auto, unfolding(crate::specs::Checks::supported_day))]
pub fn supported_day(
    market: u32,
    date: Date,
    time_in_range: bool,
) -> Result<CalendarDay, CalendarError>
    ensures { result_and_then result (λ day. Ok day.number)
        ≡ supported_day market date.year date.month date.day time_in_range }
{
    let is_supported = is_supported(date.year);
    let day = checked_day(market, date)?;
    if !time_in_range {
        return Err(CalendarError::TimeOutOfRange);
    }
    if !is_supported {
        return Err(CalendarError::DateOutOfRange(date));
    }
    Ok(day)
}

#[tactic(auto, unfolding(crate::specs::Checks::is_month))]
fn is_month(month: u32) -> bool
    ensures { result ≡ is_month month }
{
    (1 <= month) & (month <= 12)
}

// [month-error-date]
#[tactic(auto, unfolding(crate::specs::Checks::month_error_date))]
fn month_error_date(year: u32, month: u32) -> Date
    ensures { result ≡ month_error_date year month }
{
    if is_date(year, month, 1) {
        Date {
            year,
            month,
            day: 1,
        }
    } else {
        Date {
            year: 1970,
            month: 1,
            day: 1,
        }
    }
}

// Errors 8, 1 and 2.
#[tactic(auto, unfolding(crate::specs::Checks::checked_month))]
pub fn checked_month(market: u32, year: u32, month: u32) -> Result<(), CalendarError>
    ensures { result ≡ checked_month market year month }
{
    let is_supported = is_supported(year);
    let is_month = is_month(month);
    if !is_market(market) {
        return Err(CalendarError::UnknownMarket);
    }
    if !is_supported {
        return Err(CalendarError::DateOutOfRange(month_error_date(year, month)));
    }
    if !is_month {
        return Err(CalendarError::InvalidDateCalculation);
    }
    Ok(())
}

// [count]: whether the start is before the supported years, or the end after them.
#[tactic(auto, unfolding(crate::specs::Checks::leaves_years))]
fn leaves_years(start_year: u32, end_year: u32) -> bool
    ensures { result ≡ leaves_years start_year end_year }
{
    (start_year < MIN_YEAR) | (MAX_YEAR < end_year)
}

// [count]: errors 5 for the start, 5 for the end, and 1 with the start. A market, or a set of them, is checked before. Whether start and
// end are dates is handed over, so that this is small enough to be inlined in each call.
#[tactic(auto, unfolding(crate::specs::Checks::checked_range))]
pub fn checked_range(starts: bool, ends: bool, start: Date, end: Date) -> Result<(), CalendarError>
    requires { (starts ≡ is_date_of start) × (ends ≡ is_date_of end) }
    ensures { result ≡ check_of (checked_range start end) }
{
    let leaves_years = leaves_years(start.year, end.year);
    if !starts {
        return Err(CalendarError::InvalidDate);
    }
    if !ends {
        return Err(CalendarError::InvalidDate);
    }
    if leaves_years {
        return Err(CalendarError::DateOutOfRange(start));
    }
    Ok(())
}

// Error 9, or how many entries are written.
#[tactic(auto, unfolding(crate::specs::Checks::checked_room))]
pub fn checked_room(needed: usize, room: usize) -> Result<u32, CalendarError>
    requires { needed < 2 ^ 32 }
    ensures { result ≡ checked_room needed room }
{
    if room < needed {
        return Err(CalendarError::BufferTooSmall(needed as u32));
    }
    Ok(needed as u32)
}
