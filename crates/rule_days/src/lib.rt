// Days that the rules of several markets share, each asked about a day of its own month: a day of the month, one that moves to Monday,
// Good Friday. The month is written out for the reader, and required to be that of the day.
#![tactic(auto)]

ghost use Rattle.std.specs.Prelude.{◌≡◌, ◌+◌, ◌≤◌, eqb};
ghost use Rattle.gregorian.specs.Calendar.{number, last_day, day_number};
ghost use Rattle.utils.specs.Weekday.{nth_weekday_of_month};
ghost use Rattle.utils.specs.Easter.{calculate_good_friday};
ghost use Rattle.rule_days.specs.Days.{is_day, adjust_for_weekend};
ghost use Rattle.rule_days.specs.Inner.{is_between, is_around_easter};

use gregorian::days::CalendarDay;
use gregorian::{Date, SATURDAY, SUNDAY};
use utils::easter::calculate_good_friday;
use utils::nth_weekday_of_month;

// Day d of the month.
pub fn fixed_day(day: CalendarDay, month: u32, d: u32) -> u32
    requires { (day.date.month ≡ month) × (d ≤ 31) }
    ensures { (result ≡ day_number day.date.year month d) × (d ≤ result) × (result ≤ last_day + 31) }
{
    day.number - day.date.day + d
}

// [weekend-moves]: on Monday if on a weekend.
fn adjust_for_weekend(n: u32) -> u32
    requires { n ≤ last_day + 31 }
    ensures { result ≡ adjust_for_weekend n }
{
    match gregorian::weekday(n) {
        SATURDAY => n + 2,
        SUNDAY => n + 1,
        _ => n,
    }
}

// Whether a date is day `first` of the month or one of the k days after it.
pub fn is_within(date: Date, month: u32, first: u32, k: u32) -> bool
    requires { (date.month ≡ month) × (first ≤ 31) × (k ≤ 31) }
    ensures { let from = day_number date.year month first in result ≡ is_between from (from + k) (number date) }
{
    (first <= date.day) & (date.day <= first + k)
}

// Whether a day is day d of the month or, from a weekend, the Monday that it moves to. Only that day and the two after it are
// compared.
pub fn is_observed(day: CalendarDay, month: u32, d: u32) -> bool
    requires { (day.date.month ≡ month) × (d ≤ 31) }
    ensures { result ≡ eqb day.number (adjust_for_weekend (day_number day.date.year month d)) }
{
    if !is_within(day.date, month, d, 2) {
        return false;
    }
    day.number == adjust_for_weekend(fixed_day(day, month, d))
}

// The nth weekday of a month of the year, from its end where nth is below 0, for day n if that is on the weekday. For another it is not
// computed, and none. Each rule that asks keeps the early return on none, `let Some(..) else`, as [forms] has it.
pub fn nth_weekday_for(n: u32, year: u32, month: u32, weekday: u32, nth: i32) -> Option<u32>
    ensures { is_day result n ≡ is_day (nth_weekday_of_month year month weekday nth) n }
{
    if gregorian::weekday(n) != weekday {
        return None;
    }
    nth_weekday_of_month(year, month, weekday, nth)
}

// From 20 March to 26 April. Easter is from 22 March to 25 April, so on other days it need not be computed.
pub fn is_around_easter(date: Date) -> bool
    ensures { result ≡ is_around_easter date }
{
    ((date.month == 3) & (20 <= date.day)) | ((date.month == 4) & (date.day <= 26))
}

pub fn is_good_friday(day: CalendarDay) -> bool
    ensures { result ≡ is_day (calculate_good_friday day.date.year) day.number }
{
    is_around_easter(day.date) && calculate_good_friday(day.date.year) == Some(day.number)
}
