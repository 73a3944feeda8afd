// The library's answer to the inputs of a row, by the kind of its call. Calls that take the same inputs are handed to one function; rows
// about lists, hours, ranges and sheets are in modules of their own.
use crate::fields::Fields;
use crate::kind::Kind;
use crate::numbers::Numbers;
use crate::{day_ranges, hours, lists, sheets};
use trading_calendar::neighbouring_days::{tc_next_trading_day, tc_previous_trading_day};
use trading_calendar::trading_hours::{
    tc_is_early_close, tc_is_open_at, tc_market_close, tc_trading_hours, tc_with_early_close,
};
use trading_calendar::{
    tc_calculate_easter, tc_calculate_easter_monday, tc_calculate_good_friday, tc_is_holiday,
    tc_is_trading_day, tc_last_weekday_of_month, tc_nth_weekday_of_month,
};

// The numbers of the library's answer. None where the kind takes no such inputs: every answer of a call has a number, and no list that
// is stored is empty.
pub fn answer(kind: Kind, inputs: &[u32]) -> Option<Numbers> {
    match kind {
        Kind::NthWeekdayOfMonth => nth_weekday_of_month(inputs),
        Kind::LastWeekdayOfMonth => last_weekday_of_month(inputs),
        Kind::CalculateEaster => of_year(inputs, tc_calculate_easter),
        Kind::CalculateGoodFriday => of_year(inputs, tc_calculate_good_friday),
        Kind::CalculateEasterMonday => of_year(inputs, tc_calculate_easter_monday),
        Kind::IsTradingDay => of_day(inputs, tc_is_trading_day),
        Kind::IsHoliday => of_day(inputs, tc_is_holiday),
        Kind::Holidays => lists::holidays(inputs, lists::is_holiday),
        Kind::HolidaysAnyYear => lists::holidays(inputs, lists::is_holiday_in_any_year),
        Kind::TradingDays => lists::trading_days(inputs),
        Kind::TradingHours => of_day(inputs, tc_trading_hours),
        Kind::IsOpen => hours::is_open(inputs),
        Kind::SessionNew => hours::session_new(inputs),
        Kind::SessionContains => hours::session_contains(inputs),
        Kind::TradingHoursNew => hours::trading_hours_new(inputs),
        Kind::WithEarlyClose => hours::at_time(inputs, tc_with_early_close),
        Kind::IsEarlyClose => hours::of_hours(inputs, tc_is_early_close),
        Kind::MarketClose => hours::of_hours(inputs, tc_market_close),
        Kind::IsOpenAt => hours::at_time(inputs, tc_is_open_at),
        Kind::NextTradingDay => of_day(inputs, tc_next_trading_day),
        Kind::PreviousTradingDay => of_day(inputs, tc_previous_trading_day),
        Kind::TradingDaysInMonth => day_ranges::trading_days_in_month(inputs),
        Kind::CountTradingDays => day_ranges::count_trading_days(inputs),
        Kind::MonthSheet => sheets::month_sheet(inputs),
    }
}

// The answer about a year.
fn of_year<A: Fields, F: Fn(u32) -> A>(inputs: &[u32], call: F) -> Option<Numbers>
    requires { F.IsAlwaysCallable call }
{
    let &[year] = inputs else { return None };
    Some(call(year).fields())
}

// The answer about a market's day.
fn of_day<A: Fields, F: Fn(u32, u32, u32, u32) -> A>(inputs: &[u32], call: F) -> Option<Numbers>
    requires { F.IsAlwaysCallable call }
{
    let &[market, year, month, day] = inputs else {
        return None;
    };
    Some(call(market, year, month, day).fields())
}

// None for an nth above 255.
fn nth_weekday_of_month(inputs: &[u32]) -> Option<Numbers> {
    let &[year, month, weekday, nth] = inputs else {
        return None;
    };
    let nth = u8::try_from(nth).ok()?;
    Some(tc_nth_weekday_of_month(year, month, weekday, i32::from(nth)).fields())
}

fn last_weekday_of_month(inputs: &[u32]) -> Option<Numbers> {
    let &[year, month, weekday] = inputs else {
        return None;
    };
    Some(tc_last_weekday_of_month(year, month, weekday).fields())
}
