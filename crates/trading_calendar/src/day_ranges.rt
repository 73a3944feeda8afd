// The calls about the trading days of a month and of a range.
ghost use Rattle.std.specs.Prelude.{◌≡◌};
ghost use Rattle.range_calls.specs.RangeCalls.{trading_days_in_month_result, trading_days_in_month_buffer, count_trading_days_result};
ghost use Rattle.answers.specs.Answers.{count_answer};

use answers::counts::CountAnswer;
use gregorian::Date;

// [month-list]: how many days were written to the buffer, one byte for each, or the first of errors 8, 1, 2 and 9 that applies, with
// which nothing is written [error-writes-nothing].
pub fn tc_trading_days_in_month(market: u32, year: u32, month: u32, out: &mut [u8]) -> CountAnswer
    ensures { (result ≡ count_answer (trading_days_in_month_result market year month out.old))
        × (out.new ≡ trading_days_in_month_buffer market year month out.old) }
{
    CountAnswer::from(range_calls::counts::trading_days_in_month(market, year, month, out))
}

// [count]: how many days trade from the start to the end, both included, or the first of errors 8, 5 and 1 that applies.
// Here, and in the other call of a range, two dates are put together from C's numbers: a function for it would take and give as many.
pub fn tc_count_trading_days(
    market: u32,
    start_year: u32,
    start_month: u32,
    start_day: u32,
    end_year: u32,
    end_month: u32,
    end_day: u32,
) -> CountAnswer
    ensures { result ≡ count_answer (count_trading_days_result market start_year start_month start_day
        end_year end_month end_day) }
{
    let start = Date {
        year: start_year,
        month: start_month,
        day: start_day,
    };
    let end = Date {
        year: end_year,
        month: end_month,
        day: end_day,
    };
    CountAnswer::from(range_calls::counts::count_trading_days(market, start, end))
}
