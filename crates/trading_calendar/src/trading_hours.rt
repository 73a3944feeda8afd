// The calls about hours that a host makes.
ghost use Rattle.std.specs.Prelude.{◌≡◌};
ghost use Rattle.gregorian.specs.Calendar.{date};
ghost use Rattle.calendar.specs.CalendarCalls.{trading_hours_result, is_open_result};
ghost use Rattle.hours_calls.specs.HoursCalls.{session_new_result, session_contains_result, trading_hours_new_result, with_early_close_result};
ghost use Rattle.hours_calls.specs.HoursCalls.{is_early_close_result, market_close_result, is_open_at_result};
ghost use Rattle.answers.specs.Records.{optional, trading_hours_of};
ghost use Rattle.answers.specs.Answers.{bool_answer, time_answer, session_answer, hours_answer};

use answers::BoolAnswer;
use answers::records::{Hours, optional};
use answers::trading_hours::{HoursAnswer, SessionAnswer, TimeAnswer};
use gregorian::Date;
use schedule::{Session, TradingHours};

// [trading-hours]: the hours of the date, in any year, or the first of errors 8 and 5 that applies.
pub fn tc_trading_hours(market: u32, year: u32, month: u32, day: u32) -> HoursAnswer
    ensures { result ≡ hours_answer (trading_hours_result market year month day) }
{
    HoursAnswer::from(calendar::trading_hours(market, Date { year, month, day }))
}

// [is-open]: yes or no, or the first of errors 8, 5, 7 and 1 that applies.
pub fn tc_is_open(market: u32, year: u32, month: u32, day: u32, time: u32) -> BoolAnswer
    ensures { result ≡ bool_answer (is_open_result market year month day time) }
{
    BoolAnswer::from(calendar::is_open(market, Date { year, month, day }, time))
}

// [session-new]: the session, or the first of errors 7 and 3 that applies.
pub fn tc_session_new(start: u32, end: u32) -> SessionAnswer
    ensures { result ≡ session_answer (session_new_result start end) }
{
    SessionAnswer::from(hours_calls::session_new(start, end))
}

// [contains]: yes or no, or error 7.
pub fn tc_session_contains(session: Session, time: u32) -> BoolAnswer
    ensures { result ≡ bool_answer (session_contains_result session time) }
{
    BoolAnswer::from(hours_calls::session_contains(session, time))
}

// [hours-new]: the hours, without an early close, or the first of errors 5 and 7 that applies.
pub fn tc_trading_hours_new(
    year: u32,
    month: u32,
    day: u32,
    regular: Session,
    has_pre_market: u32,
    pre_market: Session,
    has_after_hours: u32,
    after_hours: Session,
) -> HoursAnswer
    ensures { result ≡ hours_answer (trading_hours_new_result (date year month day) regular
        (optional has_pre_market pre_market) (optional has_after_hours after_hours)) }
{
    HoursAnswer::from(hours_calls::trading_hours_new(
        Date { year, month, day },
        regular,
        optional(has_pre_market, pre_market),
        optional(has_after_hours, after_hours),
    ))
}

// [with-early-close]: the hours with the early close, or the first of errors 5, 7 and 4 that applies.
pub fn tc_with_early_close(hours: Hours, time: u32) -> HoursAnswer
    ensures { result ≡ hours_answer (with_early_close_result (trading_hours_of hours) time) }
{
    HoursAnswer::from(hours_calls::with_early_close(TradingHours::from(hours), time))
}

// [is-early-close]: yes or no, or the first of errors 5 and 7 that applies.
pub fn tc_is_early_close(hours: Hours) -> BoolAnswer
    ensures { result ≡ bool_answer (is_early_close_result (trading_hours_of hours)) }
{
    BoolAnswer::from(hours_calls::is_early_close(TradingHours::from(hours)))
}

// [market-close]: the time, or the first of errors 5 and 7 that applies.
pub fn tc_market_close(hours: Hours) -> TimeAnswer
    ensures { result ≡ time_answer (market_close_result (trading_hours_of hours)) }
{
    TimeAnswer::from(hours_calls::market_close(TradingHours::from(hours)))
}

// [is-open-at]: yes or no, or the first of errors 5 and 7 that applies.
pub fn tc_is_open_at(hours: Hours, time: u32) -> BoolAnswer
    ensures { result ≡ bool_answer (is_open_at_result (trading_hours_of hours) time) }
{
    BoolAnswer::from(hours_calls::is_open_at(TradingHours::from(hours), time))
}
