// The holidays of TSE, as src/markets/japan/holidays.rs has them: docs/SCOPE.md [tse-holidays]. The month comes first [month-first]:
// an arm computes the holidays that can fall in it alone. A substitute is always the next day: the Rust places it before any later
// holiday is in its set.
ghost use Rattle.std.specs.Prelude.{◌≡◌, true, ◌+◌, ◌≤◌, pos};
ghost use Rattle.gregorian.specs.Calendar.{monday, last_day, day_number};
ghost use Rattle.utils.specs.Weekday.{nth_weekday_of_month};
ghost use Rattle.rule_days.specs.Days.{is_day};
ghost use Rattle.rule_days.specs.Inner.{any_of, every_between};
ghost use Rattle.japan.specs.Japan.{equinox};
ghost use Rattle.japan.specs.Inner.{is_with_substitute, is_day_with_substitute, is_bridge_day, japan_rules};

use gregorian::days::CalendarDay;
use gregorian::{MONDAY, SUNDAY, THURSDAY, TUESDAY};
use rule_days::{fixed_day, is_within, nth_weekday_for};

// [tse-equinox]: the days of March and of September in the years 2020 to 2030.
const VERNAL_DAYS: [u32; 11] = [20, 20, 21, 21, 20, 20, 20, 21, 20, 20, 20];

const AUTUMNAL_DAYS: [u32; 11] = [22, 23, 23, 23, 22, 23, 23, 23, 22, 23, 23];

// Whether a day is a holiday of its year.
pub fn is_japan_holiday(day: CalendarDay) -> bool
    ensures { result ≡ any_of day.date.month (japan_rules day.date.year day.number) }
{
    let n = day.number;
    let month = day.date.month;
    match month {
        1 => {
            is_fixed_holiday(day, 1, 1)
                | is_fixed_holiday(day, 1, 2)
                | is_fixed_holiday(day, 1, 3)
                | is_coming_of_age_day(day)
        }
        2 => is_fixed_holiday(day, 2, 11) | is_fixed_holiday(day, 2, 23),
        3 => is_equinox(VERNAL_DAYS, day, 3),
        4 => is_fixed_holiday(day, 4, 29),
        5 => {
            is_fixed_holiday(day, 5, 3)
                | is_fixed_holiday(day, 5, 5)
                | (n == fixed_day(day, 5, 4))
                | is_bridge_day(day)
        }
        7 => is_marine_day(day),
        8 => is_fixed_holiday(day, 8, 11),
        9 => is_respect_for_aged_day(day) | is_equinox(AUTUMNAL_DAYS, day, 9),
        10 => is_health_and_sports_day(day),
        11 => is_fixed_holiday(day, 11, 3) | is_fixed_holiday(day, 11, 23),
        12 => n == fixed_day(day, 12, 31),
        _ => false,
    }
}

// A day of the month, or its substitute.
fn is_fixed_holiday(day: CalendarDay, month: u32, d: u32) -> bool
    requires { (day.date.month ≡ month) × (d ≤ 31) }
    ensures { result ≡ is_with_substitute (day_number day.date.year month d) day.number }
{
    is_with_substitute(fixed_day(day, month, d), day.number)
}

// [tse-substitute]: the date or, if that is a Sunday, the day after it.
fn is_with_substitute(date: u32, n: u32) -> bool
    requires { date ≤ last_day + 31 }
    ensures { result ≡ is_with_substitute date n }
{
    let substitute = date + 1;
    if n == substitute {
        return gregorian::weekday(date) == SUNDAY;
    }
    n == date
}

// The equinox of the year, by its days in 2020 to 2030, or its substitute. The years are tested as the definition does.
fn is_equinox(days: [u32; 11], day: CalendarDay, month: u32) -> bool
    requires { (day.date.month ≡ month) × (every_between 1 28 days 11 ≡ true) }
    ensures { result ≡ is_day_with_substitute (equinox days day.date.year month) day.number }
{
    let year = day.date.year;
    if year < 2020 {
        return false;
    }
    if 2030 < year {
        return false;
    }
    let d = days[(year - 2020) as usize];
    is_fixed_holiday(day, month, d)
}

// [tse-golden-week]. Only 2 to 6 May are compared.
fn is_bridge_day(day: CalendarDay) -> bool
    requires { day.date.month ≡ 5 }
    ensures { result ≡ is_bridge_day day.date.year day.number }
{
    let n = day.number;
    if !is_within(day.date, 5, 2, 4) {
        return false;
    }
    let may_2 = fixed_day(day, 5, 2);
    let may_3 = fixed_day(day, 5, 3);
    let may_4 = fixed_day(day, 5, 4);
    let may_5 = fixed_day(day, 5, 5);
    let may_6 = fixed_day(day, 5, 6);
    ((gregorian::weekday(may_3) == TUESDAY) & (n == may_2))
        | ((gregorian::weekday(may_5) == THURSDAY) & (n == may_6))
        | ((gregorian::weekday(may_4) == SUNDAY) & (n == may_6))
}

// The 2nd Monday of January.
fn is_coming_of_age_day(day: CalendarDay) -> bool
    ensures { result ≡ is_day (nth_weekday_of_month day.date.year 1 monday (pos 2)) day.number }
{
    let Some(coming_of_age_day) = nth_weekday_for(day.number, day.date.year, 1, MONDAY, 2) else {
        return false;
    };
    day.number == coming_of_age_day
}

// The 3rd Monday of July.
fn is_marine_day(day: CalendarDay) -> bool
    ensures { result ≡ is_day (nth_weekday_of_month day.date.year 7 monday (pos 3)) day.number }
{
    let Some(marine_day) = nth_weekday_for(day.number, day.date.year, 7, MONDAY, 3) else {
        return false;
    };
    day.number == marine_day
}

// The 3rd Monday of September.
fn is_respect_for_aged_day(day: CalendarDay) -> bool
    ensures { result ≡ is_day (nth_weekday_of_month day.date.year 9 monday (pos 3)) day.number }
{
    let Some(respect_for_aged_day) = nth_weekday_for(day.number, day.date.year, 9, MONDAY, 3) else {
        return false;
    };
    day.number == respect_for_aged_day
}

// The 2nd Monday of October.
fn is_health_and_sports_day(day: CalendarDay) -> bool
    ensures { result ≡ is_day (nth_weekday_of_month day.date.year 10 monday (pos 2)) day.number }
{
    let Some(sports_day) = nth_weekday_for(day.number, day.date.year, 10, MONDAY, 2) else {
        return false;
    };
    day.number == sports_day
}
