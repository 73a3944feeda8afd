// Sets of markets, and the days on which all markets of a set trade.
#![tactic(auto)]

ghost use Rattle.std.specs.Prelude.{◌≡◌, ◌≤◌, ◌<◌, option_map};
ghost use Rattle.gregorian.specs.Calendar.{last_day, date_of};
ghost use Rattle.ranges.specs.Ranges.{days, find};
ghost use Rattle.market_sets.specs.MarketSets.{has_market, is_market_set, is_common_trading_day};
ghost use Rattle.market_sets.specs.Inner.{first_common_day_result};

use checks::checked_range;
use error::CalendarError;
use gregorian::days::CalendarDay;
use gregorian::{Date, day_number, is_date};
use markets::{LAST_MARKET, is_trading_day};
use ranges::Days;

// One more than the set of all markets. A set is a byte, as C hands it.
const SETS_END: u8 = 1 << (LAST_MARKET + 1);

// [market-set]
#[tactic(auto, unfolding(crate::specs::MarketSets::is_market_set))]
fn is_market_set(markets: u8) -> bool
    ensures { result ≡ is_market_set markets }
{
    (1 <= markets) & (markets < SETS_END)
}

// [market-set]: whether the bit of the market is 1.
#[tactic(auto, unfolding(crate::specs::MarketSets::has_market))]
fn has_market(markets: u8, market: u32) -> bool
    requires { market < 8 }
    ensures { result ≡ has_market markets market }
{
    (markets >> market) % 2 == 1
}

// [common-day]: whether every market of the set trades on the day. The first that does not decides.
fn is_common_trading_day(markets: u8, day: CalendarDay) -> bool
    ensures { result ≡ is_common_trading_day markets day.number }
{
    for market in 0..LAST_MARKET + 1 {
        if has_market(markets, market) && !is_trading_day(market, day) {
            return false;
        }
    }
    true
}

// [common-day]: the first such day from the first to the last, both included.
fn first_common_day(markets: u8, first: CalendarDay, last: u32) -> Option<CalendarDay>
    requires { last ≤ last_day }
    ensures { option_map (λ day. day.number) result ≡ find (is_common_trading_day markets) (days first.number last) }
{
    Days::new(first, last).find(|day| is_common_trading_day(markets, *day))
}

fn date_of_found(day: Option<CalendarDay>) -> Option<Date>
    ensures { result ≡ option_map date_of (option_map (λ day. day.number) day) }
{
    Some(day?.date)
}

// [common-day]: the first such day from the start to the end, or the first of errors 12, 5 and 1 that applies.
pub fn common_trading_day(
    markets: u8,
    start: Date,
    end: Date,
) -> Result<Option<Date>, CalendarError>
    ensures { result ≡ first_common_day_result markets start end }
{
    let is_set = is_market_set(markets);
    // The dates are asked about first; the order of the errors is that of the tests.
    let starts = is_date(start.year, start.month, start.day);
    let ends = is_date(end.year, end.month, end.day);
    if !is_set {
        return Err(CalendarError::InvalidMarketSet);
    }
    checked_range(starts, ends, start, end)?;
    let first = CalendarDay::new(start);
    let last = day_number(end.year, end.month, end.day);
    Ok(date_of_found(first_common_day(markets, first, last)))
}
