// The calls of src/schedule.rs of the Rust, with the checks of the numbers that a session or an hours record holds.
#![tactic(auto)]

ghost use Rattle.std.specs.Prelude.{◌≡◌};
ghost use Rattle.hours_calls.specs.HoursCalls.{session_in_range, hours_in_range, checked_hours};
ghost use Rattle.hours_calls.specs.HoursCalls.{session_new_result, session_contains_result, trading_hours_new_result, with_early_close_result};
ghost use Rattle.hours_calls.specs.HoursCalls.{is_early_close_result, market_close_result, is_open_at_result};

use checks::is_time;
use error::CalendarError;
use gregorian::Date;
use schedule::{Session, TradingHours};

// Whether each number is a time.
fn session_in_range(session: Session) -> bool
    ensures { result ≡ session_in_range session }
{
    is_time(session.start) & is_time(session.end)
}

// The same of a record, of which an absent part has none.
#[tactic(auto, unfolding(crate::specs::HoursCalls::hours_in_range))]
fn hours_in_range(hours: TradingHours) -> bool
    ensures { result ≡ hours_in_range hours }
{
    hours.pre_market.is_none_or(session_in_range)
        & session_in_range(hours.regular)
        & hours.after_hours.is_none_or(session_in_range)
        & hours.early_close.is_none_or(is_time)
}

// [errors]: the first of 5 and 7 that applies, or the hours. A call that takes no time has none out of range.
#[tactic(auto, unfolding(crate::specs::HoursCalls::checked_hours))]
fn checked_hours(hours: TradingHours, time_in_range: bool) -> Result<TradingHours, CalendarError>
    ensures { result ≡ checked_hours hours time_in_range }
{
    let date = hours.date;
    let is_date = gregorian::is_date(date.year, date.month, date.day);
    let hours_in_range = hours_in_range(hours) & time_in_range;
    if !is_date {
        return Err(CalendarError::InvalidDate);
    }
    if !hours_in_range {
        return Err(CalendarError::TimeOutOfRange);
    }
    Ok(hours)
}

// [session-new]
#[tactic(auto, unfolding(crate::specs::HoursCalls::session_new_result))]
pub fn session_new(start: u32, end: u32) -> Result<Session, CalendarError>
    ensures { result ≡ session_new_result start end }
{
    if !session_in_range(Session { start, end }) {
        return Err(CalendarError::TimeOutOfRange);
    }
    Session::new(start, end)
}

// [contains]
#[tactic(auto, unfolding(crate::specs::HoursCalls::session_contains_result))]
pub fn session_contains(session: Session, time: u32) -> Result<bool, CalendarError>
    ensures { result ≡ session_contains_result session time }
{
    if !(session_in_range(session) & is_time(time)) {
        return Err(CalendarError::TimeOutOfRange);
    }
    Ok(session.contains(time))
}

// [hours-new]
pub fn trading_hours_new(
    date: Date,
    regular: Session,
    pre_market: Option<Session>,
    after_hours: Option<Session>,
) -> Result<TradingHours, CalendarError>
    ensures { result ≡ trading_hours_new_result date regular pre_market after_hours }
{
    checked_hours(
        TradingHours::new(date, regular, pre_market, after_hours),
        true,
    )
}

// [with-early-close]
pub fn with_early_close(hours: TradingHours, time: u32) -> Result<TradingHours, CalendarError>
    ensures { result ≡ with_early_close_result hours time }
{
    checked_hours(hours, is_time(time))?.with_early_close(time)
}

// [is-early-close]
pub fn is_early_close(hours: TradingHours) -> Result<bool, CalendarError>
    ensures { result ≡ is_early_close_result hours }
{
    Ok(checked_hours(hours, true)?.is_early_close())
}

// [market-close]
pub fn market_close(hours: TradingHours) -> Result<u32, CalendarError>
    ensures { result ≡ market_close_result hours }
{
    Ok(checked_hours(hours, true)?.market_close())
}

// [is-open-at]
pub fn is_open_at(hours: TradingHours, time: u32) -> Result<bool, CalendarError>
    ensures { result ≡ is_open_at_result hours time }
{
    Ok(checked_hours(hours, is_time(time))?.is_open_at(time))
}
