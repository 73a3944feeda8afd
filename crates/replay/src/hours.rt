// Rows about hours.
use crate::fields::Fields;
use crate::numbers::Numbers;
use answers::records::Hours;
use gregorian::Date;
use schedule::Session;
use trading_calendar::trading_hours::{
    tc_is_open, tc_session_contains, tc_session_new, tc_trading_hours_new,
};

pub fn is_open(inputs: &[u32]) -> Option<Numbers> {
    let &[market, year, month, day, time] = inputs else {
        return None;
    };
    Some(tc_is_open(market, year, month, day, time).fields())
}

pub fn session_new(inputs: &[u32]) -> Option<Numbers> {
    let &[start, end] = inputs else { return None };
    Some(tc_session_new(start, end).fields())
}

pub fn session_contains(inputs: &[u32]) -> Option<Numbers> {
    let &[start, end, time] = inputs else {
        return None;
    };
    Some(tc_session_contains(Session { start, end }, time).fields())
}

fn session(start: u32, end: u32) -> Session {
    Session { start, end }
}

pub fn trading_hours_new(inputs: &[u32]) -> Option<Numbers> {
    let &[
        year,
        month,
        day,
        start,
        end,
        has_pre,
        pre_start,
        pre_end,
        has_after,
        after_start,
        after_end,
    ] = inputs
    else {
        return None;
    };
    let regular = session(start, end);
    let pre_market = session(pre_start, pre_end);
    let after_hours = session(after_start, after_end);
    let hours = tc_trading_hours_new(
        year,
        month,
        day,
        regular,
        has_pre,
        pre_market,
        has_after,
        after_hours,
    );
    Some(hours.fields())
}

// The hours record of thirteen numbers.
fn record(inputs: &[u32]) -> Option<Hours> {
    let &[
        year,
        month,
        day,
        has_pre_market,
        pre_start,
        pre_end,
        start,
        end,
        has_after_hours,
        after_start,
        after_end,
        has_early_close,
        early_close,
    ] = inputs
    else {
        return None;
    };
    Some(Hours {
        date: Date { year, month, day },
        has_pre_market,
        pre_market: session(pre_start, pre_end),
        regular: session(start, end),
        has_after_hours,
        after_hours: session(after_start, after_end),
        has_early_close,
        early_close,
    })
}

// The answer about an hours record.
pub fn of_hours<A: Fields, F: Fn(Hours) -> A>(inputs: &[u32], call: F) -> Option<Numbers>
    requires { F.IsAlwaysCallable call }
{
    Some(call(record(inputs)?).fields())
}

// The same for the record and a time after it.
pub fn at_time<A: Fields, F: Fn(Hours, u32) -> A>(inputs: &[u32], call: F) -> Option<Numbers>
    requires { F.IsAlwaysCallable call }
{
    let (time, hours) = inputs.split_last()?;
    Some(call(record(hours)?, *time).fields())
}
