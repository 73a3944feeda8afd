// The holidays of LSE, as src/markets/uk/holidays.rs has them: docs/SCOPE.md [lse-holidays]. The month comes first [month-first]: an
// arm computes the holidays that can fall in it alone.
ghost use Rattle.std.specs.Prelude.{◌≡◌, ◌≤◌, pos};
ghost use Rattle.gregorian.specs.Calendar.{monday, last_day};
ghost use Rattle.utils.specs.Weekday.{nth_weekday_of_month, minus};
ghost use Rattle.utils.specs.Easter.{calculate_easter_monday};
ghost use Rattle.rule_days.specs.Days.{is_day};
ghost use Rattle.rule_days.specs.Inner.{any_of};
ghost use Rattle.markets.specs.Inner.{is_christmas_or_boxing_day, uk_rules};

use gregorian::days::CalendarDay;
use gregorian::{FRIDAY, MONDAY, SATURDAY, SUNDAY};
use rule_days::{
    fixed_day, is_around_easter, is_good_friday, is_observed, is_within, nth_weekday_for,
};
use utils::easter::calculate_easter_monday;

// Whether a day is a holiday of its year. On Monday if on a weekend: 1 January.
pub fn is_uk_holiday(day: CalendarDay) -> bool
    ensures { result ≡ any_of day.date.month (uk_rules day.date.year day.number) }
{
    let month = day.date.month;
    match month {
        1 => is_observed(day, 1, 1),
        3 | 4 => is_good_friday(day) | is_easter_monday(day),
        5 => is_early_may_bank_holiday(day) | is_spring_bank_holiday(day),
        8 => is_summer_bank_holiday(day),
        12 => is_christmas_or_boxing_day(day),
        _ => false,
    }
}

fn is_easter_monday(day: CalendarDay) -> bool
    ensures { result ≡ is_day (calculate_easter_monday day.date.year) day.number }
{
    is_around_easter(day.date) && calculate_easter_monday(day.date.year) == Some(day.number)
}

// The 1st Monday of May.
fn is_early_may_bank_holiday(day: CalendarDay) -> bool
    ensures { result ≡ is_day (nth_weekday_of_month day.date.year 5 monday (pos 1)) day.number }
{
    let Some(early_may) = nth_weekday_for(day.number, day.date.year, 5, MONDAY, 1) else {
        return false;
    };
    day.number == early_may
}

// The last Monday of May.
fn is_spring_bank_holiday(day: CalendarDay) -> bool
    ensures { result ≡ is_day (nth_weekday_of_month day.date.year 5 monday (minus 1)) day.number }
{
    let Some(spring) = nth_weekday_for(day.number, day.date.year, 5, MONDAY, -1) else {
        return false;
    };
    day.number == spring
}

// The last Monday of August.
fn is_summer_bank_holiday(day: CalendarDay) -> bool
    ensures { result ≡ is_day (nth_weekday_of_month day.date.year 8 monday (minus 1)) day.number }
{
    let Some(summer) = nth_weekday_for(day.number, day.date.year, 8, MONDAY, -1) else {
        return false;
    };
    day.number == summer
}

// Two days: 25 and 28 December if Christmas Day is a Friday, 27 and 28 if a Saturday, 26 and 27 if a Sunday, else 25 and 26.
// Only these four are compared.
fn is_christmas_or_boxing_day(day: CalendarDay) -> bool
    requires { day.date.month ≡ 12 }
    ensures { result ≡ is_christmas_or_boxing_day day.date.year day.number }
{
    if !is_within(day.date, 12, 25, 3) {
        return false;
    }
    let n = day.number;
    let christmas = fixed_day(day, 12, 25);
    match gregorian::weekday(christmas) {
        FRIDAY => (n == christmas) | (n == christmas + 3),
        SATURDAY => (n == christmas + 2) | (n == christmas + 3),
        SUNDAY => (n == christmas + 1) | (n == christmas + 2),
        _ => (n == christmas) | (n == christmas + 1),
    }
}
