// Which days trade, as src/markets of the Rust has it; the holidays of TSE are those of the crate `japan`.
#![tactic(auto)]

pub mod canada;
pub mod uk;
pub mod us;
pub mod years;

ghost use Rattle.std.specs.Prelude.{◌≡◌, ◌≤◌};
ghost use Rattle.gregorian.specs.Calendar.{last_day, date, date_of};
ghost use Rattle.rule_days.specs.Inner.{any_of};
ghost use Rattle.markets.specs.Markets.{is_market, is_weekend, is_holiday, is_trading_day};
ghost use Rattle.markets.specs.Inner.{rules};

use canada::holidays::is_canada_holiday;
use gregorian::days::CalendarDay;
use gregorian::{Date, SATURDAY, SUNDAY};
use japan::holidays::is_japan_holiday;
use uk::holidays::is_uk_holiday;
use us::holidays::is_us_holiday;

// [markets]. No enum: C hands a market as a number, and the functions of one promise an answer for every number.
pub const NYSE: u32 = 0;

pub const NASDAQ: u32 = 1;

pub const LSE: u32 = 2;

pub const TSE: u32 = 3;

pub const TSX: u32 = 4;

pub const LAST_MARKET: u32 = TSX;

pub fn is_market(market: u32) -> bool
    ensures { result ≡ is_market market }
{
    market <= LAST_MARKET
}

pub fn is_weekend(n: u32) -> bool
    ensures { result ≡ is_weekend n }
{
    let weekday = gregorian::weekday(n);
    (weekday == SATURDAY) | (weekday == SUNDAY)
}

// [month-first]: by the rules of the market that can fall in the month. A code that is no market's has none. It stays a call, and is
// given the parts of the day one by one: a struct would go through memory.
fn is_holiday_on(market: u32, number: u32, year: u32, month: u32, d: u32) -> bool
    requires { (1 ≤ number) × (number ≤ last_day) × (date year month d ≡ date_of number) }
    ensures { result ≡ any_of month (rules market year number) }
{
    let date = Date {
        year,
        month,
        day: d,
    };
    let day = CalendarDay { number, date };
    match market {
        NYSE | NASDAQ => is_us_holiday(day),
        LSE => is_uk_holiday(day),
        TSE => is_japan_holiday(day),
        TSX => is_canada_holiday(day),
        _ => false,
    }
}

// [is-holiday]
pub fn is_holiday(market: u32, day: CalendarDay) -> bool
    ensures { result ≡ is_holiday market day.number }
{
    is_holiday_on(
        market,
        day.number,
        day.date.year,
        day.date.month,
        day.date.day,
    )
}

// [trading-day]
pub fn is_trading_day(market: u32, day: CalendarDay) -> bool
    ensures { result ≡ is_trading_day market day.number }
{
    let n = day.number;
    let date = day.date;
    !is_weekend(n) && !is_holiday_on(market, n, date.year, date.month, date.day)
}
