// The calls of src/calendar.rs of the Rust about ranges of days, on numbers: here those about the neighbouring trading days.
#![tactic(auto)]

pub mod counts;

ghost use Rattle.std.specs.Prelude.{◌≡◌, option_map};
ghost use Rattle.range_calls.specs.RangeCalls.{distance_of, trading_day_result, next_trading_day_result, previous_trading_day_result};

use checks::checked_day;
use error::CalendarError;
use gregorian::Date;
use gregorian::days::CalendarDay;
use markets::years::is_supported;

// The answer of next and previous: its distance in days from the date given [distance], and whether either date is outside 2020
// to 2030 [outside].
#[derive(Clone, Copy)]
pub struct TradingDay {
    pub date: Date,
    pub distance: u32,
    pub outside: bool,
}

// [distance]. By hand, as two edits change one direction each.
#[tactic(auto, unfolding(crate::specs::RangeCalls::distance_of))]
fn distance(n: u32, m: u32) -> u32
    ensures { result ≡ distance_of n m }
{
    if n < m { m - n } else { n - m }
}

// The answer to a call on a day: its neighbour that trades, or error 6 where none was found.
#[tactic(auto, unfolding(crate::specs::RangeCalls::trading_day_result, crate::specs::RangeCalls::trading_day))]
fn trading_day_result(
    year: u32,
    n: u32,
    neighbour: Option<CalendarDay>,
) -> Result<TradingDay, CalendarError>
    ensures { result ≡ trading_day_result year n (option_map (λ day. day.number) neighbour) }
{
    let day = neighbour.ok_or(CalendarError::NoTradingDayFound)?;
    Ok(TradingDay {
        date: day.date,
        distance: distance(n, day.number),
        outside: !is_supported(year) | !is_supported(day.date.year),
    })
}

// [next]. It and the next one share what they answer; the search as an argument would need a contract longer than both bodies.
pub fn next_trading_day(market: u32, date: Date) -> Result<TradingDay, CalendarError>
    ensures { result ≡ next_trading_day_result market date.year date.month date.day }
{
    let day = checked_day(market, date)?;
    let next = neighbours::next_trading_day(market, day);
    trading_day_result(date.year, day.number, next)
}

// [previous]
pub fn previous_trading_day(market: u32, date: Date) -> Result<TradingDay, CalendarError>
    ensures { result ≡ previous_trading_day_result market date.year date.month date.day }
{
    let day = checked_day(market, date)?;
    let previous = neighbours::previous_trading_day(market, day);
    trading_day_result(date.year, day.number, previous)
}
