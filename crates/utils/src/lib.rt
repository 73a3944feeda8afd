// The nth weekday of a month, from its start or from its end, and Easter, as src/utils of the Rust has them.
#![tactic(auto)]

pub mod easter;
mod month_weekday;

ghost use Rattle.std.specs.Prelude.{◌≡◌, true, ℕ, ◌+◌, ◌≤◌, ◌<◌, eqb, pos, negsuc};
ghost use Rattle.gregorian.specs.Calendar.{day_number, last_day, is_date};
ghost use Rattle.utils.specs.Weekday.{if_in_month, next_month, next_year, last_up_to, weeks_before, most_nth, nth_weekday_of_month};
ghost use Rattle.utils.specs.Inner.{InYears, day_of_nth, NthInYears};

use gregorian::Date;
use month_weekday::MonthWeekday;
use signed::Signed;

// The nth weekday: a day of the month that was asked about, or a day by its number.
#[derive(Clone, Copy)]
pub enum NthWeekday {
    InMonth(u32),
    DayNumber(u32),
}

// The last such weekday up to day n: one of the seven days that end there.
pub fn last_up_to(weekday: u32, n: u32) -> u32
    requires { (weekday ≤ 6) × (7 ≤ n) × (n ≤ last_day + 31) }
    ensures { result ≡ last_up_to weekday n }
{
    n - (n + 13 - weekday) % 7
}

// The year is not compared.
fn has_same_month_number(a: Date, b: Date) -> bool
    ensures { result ≡ eqb a.month b.month }
{
    a.month == b.month
}

// The target if it is in a month of the same number as the first day.
fn if_in_month(first_day: Date, target: u32) -> Option<u32>
    requires { 1 ≤ target }
    ensures { result ≡ if_in_month first_day.month target }
{
    if gregorian::LAST_DAY < target {
        return None;
    }
    if has_same_month_number(gregorian::date_of(target), first_day) {
        Some(target)
    } else {
        None
    }
}

fn by_number(day: Option<u32>) -> Option<NthWeekday>
    requires { InYears day }
    ensures { (y m : ℕ) → (day_of_nth y m result ≡ day) × NthInYears y m result }
{
    Some(NthWeekday::DayNumber(day?))
}

// k weeks before a day, if that is in a month of the same number as the first day.
fn weeks_before(first_day: Date, k: u32, day: u32) -> Option<u32>
    requires { k < most_nth }
    ensures { result ≡ weeks_before first_day.month k day }
{
    let days = 7 * k;
    if day <= days {
        return None;
    }
    if_in_month(first_day, day - days)
}

// [nth-weekday], [last-weekday]
pub fn find_nth_weekday(year: u32, month: u32, weekday: u32, nth: i32) -> Option<NthWeekday>
    ensures { (day_of_nth year month result ≡ nth_weekday_of_month year month weekday nth) × NthInYears year month result }
{
    if !gregorian::is_date(year, month, 1) {
        return None;
    }
    if 6 < weekday {
        return None;
    }
    let asked = MonthWeekday {
        year,
        month,
        weekday,
    };
    match Signed::from(nth) {
        Signed::NotNegative(n) => asked.nth_from_start(n),
        Signed::Negative(k) => asked.nth_from_end(k),
    }
}

// The same as a day number, for the rules.
pub fn nth_weekday_of_month(year: u32, month: u32, weekday: u32, nth: i32) -> Option<u32>
    ensures { result ≡ nth_weekday_of_month year month weekday nth }
{
    match find_nth_weekday(year, month, weekday, nth)? {
        NthWeekday::InMonth(day) => Some(gregorian::day_number(year, month, day)),
        NthWeekday::DayNumber(n) => Some(n),
    }
}
