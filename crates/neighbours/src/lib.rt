// The neighbouring trading days, as the methods of `MarketImpl` in src/markets/mod.rs of the Rust find them.
#![tactic(auto)]

ghost use Rattle.std.specs.Prelude.{◌≡◌};
ghost use Rattle.std.specs.Option.{option_map};
ghost use Rattle.markets.specs.Markets.{is_trading_day};
ghost use Rattle.markets.specs.Years.{first_day_of, last_day_of};
ghost use Rattle.ranges.specs.Ranges.{next_trading_day, previous_trading_day};

use gregorian::days::CalendarDay;
use markets::is_trading_day;
use markets::years::{first_day_of, last_day_of};
use ranges::{Days, DaysBefore};

// [next]: none if no day after it trades, up to the last that is looked at.
pub fn next_trading_day(market: u32, day: CalendarDay) -> Option<CalendarDay>
    ensures { option_map (λ found. found.number) result ≡ next_trading_day (is_trading_day market) (last_day_of market) day.number }
{
    Days::after(day, last_day_of(market)).find(|next| is_trading_day(market, *next))
}

// [previous]: none if no day before it trades, down to the first that is looked at.
pub fn previous_trading_day(market: u32, day: CalendarDay) -> Option<CalendarDay>
    ensures { option_map (λ found. found.number) result ≡ previous_trading_day (is_trading_day market) (first_day_of market) day.number }
{
    DaysBefore::new(day, first_day_of(market)).find(|previous| is_trading_day(market, *previous))
}
