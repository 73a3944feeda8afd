// The call for a day on which several markets trade.
ghost use Rattle.gregorian.specs.Calendar.{date};
ghost use Rattle.answers.specs.CommonDayCall.{CommonTradingDay};

use answers::optional_dates::OptionalDateAnswer;
use gregorian::Date;

// [common-day]: a day from the start to the end, both included, on which every market of the set trades, or none exactly if there is no
// such day; or the first of errors 12, 5 and 1 that applies. Which of several days it is, the contract leaves free, and nothing else.
pub fn tc_common_trading_day(
    markets: u8,
    start_year: u32,
    start_month: u32,
    start_day: u32,
    end_year: u32,
    end_month: u32,
    end_day: u32,
) -> OptionalDateAnswer
    ensures { CommonTradingDay markets (date start_year start_month start_day)
        (date end_year end_month end_day) result }
{
    let start = Date {
        year: start_year,
        month: start_month,
        day: start_day,
    };
    let end = Date {
        year: end_year,
        month: end_month,
        day: end_day,
    };
    OptionalDateAnswer::from(market_sets::common_trading_day(markets, start, end))
}
