// Rows about the trading days of a month and of a range.
use crate::buffer::with_buffer;
use crate::fields::Fields;
use crate::numbers::Numbers;
use trading_calendar::day_ranges::{tc_count_trading_days, tc_trading_days_in_month};

// What each byte of the buffer is before the call, so that a byte that was kept is seen.
const UNTOUCHED: u8 = 255;

// The last input is the room of the buffer.
pub fn trading_days_in_month(inputs: &[u32]) -> Option<Numbers> {
    let &[market, year, month, room] = inputs else {
        return None;
    };
    with_buffer(room, UNTOUCHED, |buffer| {
        tc_trading_days_in_month(market, year, month, buffer)
    })
}

// The count from the first three numbers after the market to the last three.
pub fn count_trading_days(inputs: &[u32]) -> Option<Numbers> {
    let &[
        market,
        start_year,
        start_month,
        start_day,
        end_year,
        end_month,
        end_day,
    ] = inputs
    else {
        return None;
    };
    let answer = tc_count_trading_days(
        market,
        start_year,
        start_month,
        start_day,
        end_year,
        end_month,
        end_day,
    );
    Some(answer.fields())
}
