// The day of any year as a C function, for the comparison with the Rust: it calls that of `all_years` and states its contract again.
#![tactic(auto)]

ghost use Rattle.std.specs.Prelude.{◌≡◌};
ghost use Rattle.all_years.specs.AllYears.{known_day, day_answer};

use all_years::DayAnswer;

// [is-holiday], [trading-day]
#[unsafe(no_mangle)]
pub extern "C" fn all_years_day(market: u32, year: u32, month: u32, day: u32) -> DayAnswer
    ensures { result ≡ day_answer market (known_day market year month day) }
{
    all_years::all_years_day(market, year, month, day)
}
