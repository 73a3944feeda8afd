// The calls that a host in C or Rust makes, under their C names: each calls that of `trading_calendar` and states its contract again.
#![tactic(auto)]

mod common_days;
mod day_ranges;
mod neighbouring_days;
mod sheets;
mod slices;
mod trading_hours;

ghost use Rattle.std.specs.Prelude.{◌≡◌};
ghost use Rattle.utils.specs.Weekday.{nth_weekday_of_month, minus};
ghost use Rattle.utils.specs.Easter.{calculate_easter, calculate_good_friday, calculate_easter_monday};
ghost use Rattle.calendar.specs.CalendarCalls.{is_trading_day_result, is_holiday_result};
ghost use Rattle.answers.specs.Answers.{optional_date, bool_answer};

use answers::{BoolAnswer, OptionalDate};

// [nth-weekday]: from the end of the month where nth is below 0. None for nth = 0 and beyond 255 either way, for every nth below 0 in
// December 9999, and for a weekday, a month, a year or an answer out of range.
#[unsafe(no_mangle)]
pub extern "C" fn tc_nth_weekday_of_month(
    year: u32,
    month: u32,
    weekday: u32,
    nth: i32,
) -> OptionalDate
    ensures { result ≡ optional_date (nth_weekday_of_month year month weekday nth) }
{
    trading_calendar::tc_nth_weekday_of_month(year, month, weekday, nth)
}

// [last-weekday]: nth = -1.
#[unsafe(no_mangle)]
pub extern "C" fn tc_last_weekday_of_month(year: u32, month: u32, weekday: u32) -> OptionalDate
    ensures { result ≡ optional_date (nth_weekday_of_month year month weekday (minus 1)) }
{
    trading_calendar::tc_last_weekday_of_month(year, month, weekday)
}

// [easter]: none outside years 1 to 9999.
#[unsafe(no_mangle)]
pub extern "C" fn tc_calculate_easter(year: u32) -> OptionalDate
    ensures { result ≡ optional_date (calculate_easter year) }
{
    trading_calendar::tc_calculate_easter(year)
}

// [good-friday]: none outside years 1 to 9999.
#[unsafe(no_mangle)]
pub extern "C" fn tc_calculate_good_friday(year: u32) -> OptionalDate
    ensures { result ≡ optional_date (calculate_good_friday year) }
{
    trading_calendar::tc_calculate_good_friday(year)
}

// [easter-monday]: none outside years 1 to 9999.
#[unsafe(no_mangle)]
pub extern "C" fn tc_calculate_easter_monday(year: u32) -> OptionalDate
    ensures { result ≡ optional_date (calculate_easter_monday year) }
{
    trading_calendar::tc_calculate_easter_monday(year)
}

// [trading-day]: yes or no, or the first of errors 8, 5 and 1 that applies.
#[unsafe(no_mangle)]
pub extern "C" fn tc_is_trading_day(market: u32, year: u32, month: u32, day: u32) -> BoolAnswer
    ensures { result ≡ bool_answer (is_trading_day_result market year month day) }
{
    trading_calendar::tc_is_trading_day(market, year, month, day)
}

// [is-holiday]: yes or no, or the first of errors 8, 5 and 1 that applies.
#[unsafe(no_mangle)]
pub extern "C" fn tc_is_holiday(market: u32, year: u32, month: u32, day: u32) -> BoolAnswer
    ensures { result ≡ bool_answer (is_holiday_result market year month day) }
{
    trading_calendar::tc_is_holiday(market, year, month, day)
}
