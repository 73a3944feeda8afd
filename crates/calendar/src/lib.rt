// The calls of src/calendar.rs of the Rust on a market, by its code, and a date. Those about ranges of days are in the crate
// range_calls.
#![tactic(auto)]

ghost use Rattle.std.specs.Prelude.{◌≡◌};
ghost use Rattle.calendar.specs.CalendarCalls.{is_trading_day_result, is_holiday_result, trading_hours_result, is_open_result};

use checks::{checked_day, is_time, supported_day};
use error::CalendarError;
use gregorian::Date;
use schedule::TradingHours;

// [trading-day]
pub fn is_trading_day(market: u32, date: Date) -> Result<bool, CalendarError>
    ensures { result ≡ is_trading_day_result market date.year date.month date.day }
{
    let day = supported_day(market, date, true)?;
    Ok(markets::is_trading_day(market, day))
}

// [is-holiday]
pub fn is_holiday(market: u32, date: Date) -> Result<bool, CalendarError>
    ensures { result ≡ is_holiday_result market date.year date.month date.day }
{
    let day = supported_day(market, date, true)?;
    Ok(markets::is_holiday(market, day))
}

// [trading-hours]: in any year, on a trading day or not.
pub fn trading_hours(market: u32, date: Date) -> Result<TradingHours, CalendarError>
    ensures { result ≡ trading_hours_result market date.year date.month date.day }
{
    checked_day(market, date)?;
    Ok(schedule::trading_hours(market, date))
}

// [is-open]
pub fn is_open(market: u32, date: Date, time: u32) -> Result<bool, CalendarError>
    ensures { result ≡ is_open_result market date.year date.month date.day time }
{
    let day = supported_day(market, date, is_time(time))?;
    Ok(markets::is_trading_day(market, day) & schedule::is_market_open_at(market, time))
}
