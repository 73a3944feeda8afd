// The holidays of TSX, as src/markets/canada/holidays.rs has them: docs/SCOPE.md [tsx-holidays]. The month comes first
// [month-first]: an arm computes the holidays that can fall in it alone.
ghost use Rattle.std.specs.Prelude.{◌≡◌, ◌≤◌, eqb, pos};
ghost use Rattle.gregorian.specs.Calendar.{monday, last_day};
ghost use Rattle.utils.specs.Weekday.{nth_weekday_of_month};
ghost use Rattle.rule_days.specs.Days.{is_day};
ghost use Rattle.rule_days.specs.Inner.{any_of};
ghost use Rattle.markets.specs.Canada.{family_day, victoria_day, boxing_day};
ghost use Rattle.markets.specs.Inner.{canada_rules};

use gregorian::days::CalendarDay;
use gregorian::{MONDAY, SATURDAY, SUNDAY};
use rule_days::{fixed_day, is_good_friday, is_observed, is_within, nth_weekday_for};

// Whether a day is a holiday of its year. On Monday if on a weekend: 1 January, 1 July and 25 December.
pub fn is_canada_holiday(day: CalendarDay) -> bool
    ensures { result ≡ any_of day.date.month (canada_rules day.date.year day.number) }
{
    let n = day.number;
    let month = day.date.month;
    match month {
        1 => is_observed(day, 1, 1),
        2 => is_family_day(day),
        3 | 4 => is_good_friday(day),
        5 => n == victoria_day(day),
        7 => is_observed(day, 7, 1),
        9 => is_labour_day(day),
        10 => is_thanksgiving(day),
        12 => is_observed(day, 12, 25) | is_boxing_day(day),
        _ => false,
    }
}

// The 3rd Monday of February, from 2008 on.
fn is_family_day(day: CalendarDay) -> bool
    ensures { result ≡ is_day (family_day day.date.year) day.number }
{
    let year = day.date.year;
    if year < 2008 {
        return false;
    }
    let Some(family_day) = nth_weekday_for(day.number, day.date.year, 2, MONDAY, 3) else {
        return false;
    };
    day.number == family_day
}

// The Monday on or before 24 May.
fn victoria_day(day: CalendarDay) -> u32
    requires { day.date.month ≡ 5 }
    ensures { result ≡ victoria_day day.date.year }
{
    utils::last_up_to(MONDAY, fixed_day(day, 5, 24))
}

// The 1st Monday of September.
fn is_labour_day(day: CalendarDay) -> bool
    ensures { result ≡ is_day (nth_weekday_of_month day.date.year 9 monday (pos 1)) day.number }
{
    let Some(labour_day) = nth_weekday_for(day.number, day.date.year, 9, MONDAY, 1) else {
        return false;
    };
    day.number == labour_day
}

// The 2nd Monday of October.
fn is_thanksgiving(day: CalendarDay) -> bool
    ensures { result ≡ is_day (nth_weekday_of_month day.date.year 10 monday (pos 2)) day.number }
{
    let Some(thanksgiving) = nth_weekday_for(day.number, day.date.year, 10, MONDAY, 2) else {
        return false;
    };
    day.number == thanksgiving
}

// 26 December, two days later if on a weekend.
fn boxing_day(day: CalendarDay) -> u32
    requires { day.date.month ≡ 12 }
    ensures { result ≡ boxing_day day.date.year }
{
    let boxing = fixed_day(day, 12, 26);
    match gregorian::weekday(boxing) {
        SATURDAY => boxing + 2,
        SUNDAY => boxing + 2,
        _ => boxing,
    }
}

// Only 26 December and the two days after it are compared.
fn is_boxing_day(day: CalendarDay) -> bool
    requires { day.date.month ≡ 12 }
    ensures { result ≡ eqb day.number (boxing_day day.date.year) }
{
    if !is_within(day.date, 12, 26, 2) {
        return false;
    }
    day.number == boxing_day(day)
}
