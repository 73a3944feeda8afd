// The holidays of NYSE and NASDAQ, as src/markets/us/holidays.rs has them: docs/SCOPE.md [us-holidays]. The month comes first
// [month-first]: an arm computes the holidays that can fall in it alone.
ghost use Rattle.std.specs.Prelude.{◌≡◌, ◌&&◌, ◌≤◌, leb, eqb};
ghost use Rattle.gregorian.specs.Calendar.{last_day};
ghost use Rattle.rule_days.specs.Days.{is_day};
ghost use Rattle.rule_days.specs.Inner.{any_of};
ghost use Rattle.markets.specs.Us.{mlk_day, presidents_day, memorial_day, independence_day, labor_day, thanksgiving_day, juneteenth};
ghost use Rattle.markets.specs.Inner.{us_rules};

use gregorian::days::CalendarDay;
use gregorian::{MONDAY, SATURDAY, SUNDAY, THURSDAY};
use rule_days::{fixed_day, is_good_friday, is_observed, is_within, nth_weekday_for};
use utils::nth_weekday_of_month;

// Whether a day is a holiday of its year. On Monday if on a weekend: 1 January and 25 December.
pub fn is_us_holiday(day: CalendarDay) -> bool
    ensures { result ≡ any_of day.date.month (us_rules day.date.year day.number) }
{
    let month = day.date.month;
    match month {
        1 => is_observed(day, 1, 1) | is_mlk_day(day),
        2 => is_presidents_day(day),
        3 | 4 => is_good_friday(day),
        5 => is_memorial_day(day),
        6 => is_juneteenth(day),
        7 => is_independence_day(day),
        9 => is_labor_day(day),
        11 => is_thanksgiving_day(day),
        12 => is_observed(day, 12, 25),
        _ => false,
    }
}

// Martin Luther King Jr. Day: the 3rd Monday of January.
fn is_mlk_day(day: CalendarDay) -> bool
    ensures { result ≡ is_day (mlk_day day.date.year) day.number }
{
    let Some(mlk_day) = nth_weekday_for(day.number, day.date.year, 1, MONDAY, 3) else {
        return false;
    };
    day.number == mlk_day
}

// The 3rd Monday of February.
fn is_presidents_day(day: CalendarDay) -> bool
    ensures { result ≡ is_day (presidents_day day.date.year) day.number }
{
    let Some(presidents_day) = nth_weekday_for(day.number, day.date.year, 2, MONDAY, 3) else {
        return false;
    };
    day.number == presidents_day
}

// The last Monday of May.
fn is_memorial_day(day: CalendarDay) -> bool
    ensures { result ≡ is_day (memorial_day day.date.year) day.number }
{
    let Some(memorial_day) = nth_weekday_for(day.number, day.date.year, 5, MONDAY, -1) else {
        return false;
    };
    day.number == memorial_day
}

// 19 June, on Monday if on a weekend, from 2021 on.
fn is_juneteenth(day: CalendarDay) -> bool
    requires { day.date.month ≡ 6 }
    ensures { result ≡ (leb 2021 day.date.year && eqb day.number (juneteenth day.date.year)) }
{
    let year = day.date.year;
    if year < 2021 {
        return false;
    }
    is_observed(day, 6, 19)
}

// 4 July, on Friday if on a Saturday and on Monday if on a Sunday.
fn independence_day(day: CalendarDay) -> u32
    requires { day.date.month ≡ 7 }
    ensures { result ≡ independence_day day.date.year }
{
    let july_4 = fixed_day(day, 7, 4);
    match gregorian::weekday(july_4) {
        SATURDAY => july_4 - 1,
        SUNDAY => july_4 + 1,
        _ => july_4,
    }
}

// Only 4 July and the days beside it are compared.
fn is_independence_day(day: CalendarDay) -> bool
    requires { day.date.month ≡ 7 }
    ensures { result ≡ eqb day.number (independence_day day.date.year) }
{
    if !is_within(day.date, 7, 3, 2) {
        return false;
    }
    day.number == independence_day(day)
}

// The 1st Monday of September.
fn is_labor_day(day: CalendarDay) -> bool
    ensures { result ≡ is_day (labor_day day.date.year) day.number }
{
    let Some(labor_day) = nth_weekday_for(day.number, day.date.year, 9, MONDAY, 1) else {
        return false;
    };
    day.number == labor_day
}

// The 4th Thursday of November.
pub fn thanksgiving_day(year: u32) -> Option<u32>
    ensures { result ≡ thanksgiving_day year }
{
    nth_weekday_of_month(year, 11, THURSDAY, 4)
}

fn is_thanksgiving_day(day: CalendarDay) -> bool
    ensures { result ≡ is_day (thanksgiving_day day.date.year) day.number }
{
    if gregorian::weekday(day.number) != THURSDAY {
        return false;
    }
    let Some(thanksgiving) = thanksgiving_day(day.date.year) else {
        return false;
    };
    day.number == thanksgiving
}
