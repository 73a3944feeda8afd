// The hours and early closes of NYSE and NASDAQ, as src/markets/us/mod.rs of the Rust.
ghost use Rattle.std.specs.Prelude.{◌≡◌, true};
ghost use Rattle.gregorian.specs.Calendar.{is_date_of};
ghost use Rattle.rule_days.specs.Days.{is_day};
ghost use Rattle.schedule.specs.MarketHours.{black_friday, is_early_close_day, us_trading_hours};

use crate::constants::USMarket;
use crate::{Session, TradingHours};
use gregorian::Date;
use markets::is_weekend;
use markets::us::holidays::thanksgiving_day;

// The day after Thanksgiving.
fn is_black_friday(year: u32, n: u32) -> bool
    ensures { result ≡ is_day (black_friday year) n }
{
    let Some(thanksgiving) = thanksgiving_day(year) else {
        return false;
    };
    n == thanksgiving + 1
}

// [early-close]: also 3 July before a weekday, and 24 December on one.
#[tactic(auto, unfolding(crate::specs::MarketHours::is_early_close_day))]
fn is_early_close_day(date: Date) -> bool
    requires { is_date_of date ≡ true }
    ensures { result ≡ is_early_close_day date }
{
    let n = gregorian::day_number(date.year, date.month, date.day);
    is_black_friday(date.year, n)
        | ((date.month == 7) & (date.day == 3) & !is_weekend(n + 1))
        | ((date.month == 12) & (date.day == 24) & !is_weekend(n))
}

// [trading-hours], [early-close]: on an early close the after-hours begin with it.
#[tactic(auto, unfolding(crate::specs::MarketHours::us_trading_hours))]
pub fn trading_hours(date: Date) -> TradingHours
    requires { is_date_of date ≡ true }
    ensures { result ≡ us_trading_hours date }
{
    let regular = Session {
        start: USMarket::REGULAR_OPEN,
        end: USMarket::REGULAR_CLOSE,
    };
    let pre_market = Some(Session {
        start: USMarket::PREMARKET_OPEN,
        end: USMarket::REGULAR_OPEN,
    });
    if is_early_close_day(date) {
        return TradingHours {
            date,
            pre_market,
            regular,
            after_hours: Some(Session {
                start: USMarket::EARLY_CLOSE,
                end: USMarket::AFTERHOURS_CLOSE,
            }),
            early_close: Some(USMarket::EARLY_CLOSE),
        };
    }
    let after_hours = Some(Session {
        start: USMarket::REGULAR_CLOSE,
        end: USMarket::AFTERHOURS_CLOSE,
    });
    TradingHours::new(date, regular, pre_market, after_hours)
}
