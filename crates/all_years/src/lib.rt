// Trading days and holidays in any of years 1 to 9999. It is no part of the library, whose calls answer for 2020
// to 2030. The comparison with the Rust, whose markets answer in every year, and the stored holidays of other years ask it.
#![tactic(auto)]

ghost use Rattle.std.specs.Prelude.{◌≡◌, option_map};
ghost use Rattle.all_years.specs.AllYears.{known_day, day_answer};

use gregorian::Date;
use gregorian::days::CalendarDay;

// Where there is no such market or no such date, every field is false. A C struct, so a flag and no Option.
#[repr(C)]
#[derive(Clone, Copy)]
pub struct DayAnswer {
    pub known: bool,
    pub holiday: bool,
    pub trades: bool,
}

// The day, if there are such a market and such a date.
#[tactic(auto, unfolding(crate::specs::AllYears::known_day))]
fn known_day(market: u32, year: u32, month: u32, day: u32) -> Option<CalendarDay>
    ensures { option_map (λ known. known.number) result ≡ known_day market year month day }
{
    if !markets::is_market(market) {
        return None;
    }
    if gregorian::is_date(year, month, day) {
        Some(CalendarDay::new(Date { year, month, day }))
    } else {
        None
    }
}

// [is-holiday], [trading-day]
pub fn all_years_day(market: u32, year: u32, month: u32, day: u32) -> DayAnswer
    ensures { result ≡ day_answer market (known_day market year month day) }
{
    match known_day(market, year, month, day) {
        Some(day) => DayAnswer {
            known: true,
            holiday: markets::is_holiday(market, day),
            trades: markets::is_trading_day(market, day),
        },
        None => DayAnswer {
            known: false,
            holiday: false,
            trades: false,
        },
    }
}
