// Rows that list the days of a year or of a month for which a call answers yes. There is no list where it answers so on none, as with
// an error on every day.
use crate::numbers::Numbers;
use all_years::all_years_day;
use trading_calendar::{tc_is_holiday, tc_is_trading_day};

// By the library's call, in 2020 to 2030.
pub fn is_holiday(market: u32, year: u32, month: u32, day: u32) -> bool {
    tc_is_holiday(market, year, month, day).value == 1
}

// By the call for any year.
pub fn is_holiday_in_any_year(market: u32, year: u32, month: u32, day: u32) -> bool {
    all_years_day(market, year, month, day).holiday
}

// Each holiday of the year as month * 100 + day. Those that are no date are no holidays.
pub fn holidays<F: Fn(u32, u32, u32, u32) -> bool>(inputs: &[u32], is_holiday: F) -> Option<Numbers>
    requires { F.IsAlwaysCallable is_holiday }
{
    let &[market, year] = inputs else { return None };
    let mut list = Numbers::new();
    list.extend((101..1232).filter(|n| is_holiday(market, year, n / 100, n % 100)))
        .ok()?;
    Some(list).filter(|list| !list.is_empty())
}

// The trading days of the month.
pub fn trading_days(inputs: &[u32]) -> Option<Numbers> {
    let &[market, year, month] = inputs else {
        return None;
    };
    let mut list = Numbers::new();
    list.extend((1..32).filter(|day| tc_is_trading_day(market, year, month, *day).value == 1))
        .ok()?;
    Some(list).filter(|list| !list.is_empty())
}
