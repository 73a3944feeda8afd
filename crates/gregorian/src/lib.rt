// The Gregorian calendar: leap years, month lengths, dates, day numbers and weekdays, in closed
// arithmetic. A date inside the library is its day number, a u32: 0001-01-01 is 1. Searches carry both, as `days` has them.
#![tactic(auto)]

pub mod days;

ghost use Rattle.std.specs.Prelude.{◌≡◌, true, ◌≤◌};
ghost use Rattle.gregorian.specs.Calendar.{leap, month_length, year_length, total, day_number, last_year, last_day, is_date, date_of, weekday_of};
ghost use Rattle.gregorian.specs.Inner.{Within};

pub const LAST_YEAR: u32 = 9999;

// The day numbers of 0001-01-01 and 9999-12-31.
pub const FIRST_DAY: u32 = 1;

pub const LAST_DAY: u32 = 3652059;

// The numbers of weekdays, 0 Monday to 6 Sunday; those that are asked for by name. No enum, as the C calls hand and answer numbers.
pub const MONDAY: u32 = 0;

pub const TUESDAY: u32 = 1;

pub const THURSDAY: u32 = 3;

pub const FRIDAY: u32 = 4;

pub const SATURDAY: u32 = 5;

pub const SUNDAY: u32 = 6;

#[repr(C)]
#[derive(Clone, Copy)]
pub struct Date {
    pub year: u32,
    pub month: u32,
    pub day: u32,
}

// No date, where an answer has none: no Option, as the C structs hold a date.
pub const NO_DATE: Date = Date {
    year: 0,
    month: 0,
    day: 0,
};

// Of the years that 4 divides, 100 divides those that 25 does, and 400 those that 25 and 16 do. Without a branch, so that where it is
// asked for several times it is computed once.
pub fn is_leap(year: u32) -> bool
    ensures { result ≡ leap year }
{
    (year % 4 == 0) & ((year % 25 != 0) | (year % 16 == 0))
}

// The months but February have 31 and 30 days by turns, and anew from August on. 0 where there is no such month.
pub fn days_in_month(year: u32, month: u32) -> u32
    ensures { result ≡ month_length year month }
{
    if month == 2 {
        if is_leap(year) { 29 } else { 28 }
    } else if month < 1 {
        0
    } else if month < 13 {
        30 + (month + month / 8) % 2
    } else {
        0
    }
}

// Of three numbers, as C hands them, which are no date yet. Every month has 28 days, and its length is asked for only past them.
pub fn is_date(year: u32, month: u32, day: u32) -> bool
    ensures { result ≡ is_date year month day }
{
    if year < 1 {
        return false;
    }
    if LAST_YEAR < year {
        return false;
    }
    if month < 1 {
        return false;
    }
    if 12 < month {
        return false;
    }
    if day < 1 {
        return false;
    }
    if day < 29 {
        return true;
    }
    day <= days_in_month(year, month)
}

// The days of the years 1 to k.
fn days_in_years(k: u32) -> u32
    requires { k ≤ 10000 }
    ensures { result ≡ total year_length k }
{
    365 * k + k / 4 - k / 100 + k / 400
}

// The days of the months 1 to k: 367 / 12 a month, as if February had 30, less the days that it lacks.
fn days_in_months(year: u32, k: u32) -> u32
    requires { k ≤ 12 }
    ensures { result ≡ total (month_length year) k }
{
    let days = (367 * k + 5) / 12;
    if k < 2 {
        return days;
    }
    if is_leap(year) { days - 1 } else { days - 2 }
}

// By years that begin in March: February is then their last month, and its length does not matter. Five months from March on have
// 153 days, and the ten from March to December 306.
pub fn day_number(year: u32, month: u32, day: u32) -> u32
    requires { is_date year month day ≡ true }
    ensures { result ≡ day_number year month day }
{
    let march_year = if month < 3 { year - 1 } else { year };
    let march_month = if month < 3 { month + 9 } else { month - 3 };
    days_in_years(march_year) + (153 * march_month + 2) / 5 + day - 306
}

// By the mean length of a year, 146097 / 400 days, which gives the year's place or one too low.
fn year_of(n: u32) -> u32
    requires { (1 ≤ n) × (n ≤ last_day) }
    ensures { (result ≡ (date_of n).year) × Within year_length last_year n result }
{
    let k = (n - 1) * 400 / 146097;
    if days_in_years(k + 1) < n {
        k + 2
    } else {
        k + 1
    }
}

// The month of day n of a year: by the length of a long month, which gives its place or one too low. No function that takes the sum as a
// closure, for `year_of` and this, as its contract would be no plainer than these lines.
fn month_of(year: u32, n: u32) -> u32
    requires { (1 ≤ n) × (n ≤ year_length year) }
    ensures { Within (month_length year) 12 n result }
{
    let k = (n - 1) / 31;
    if days_in_months(year, k + 1) < n {
        k + 2
    } else {
        k + 1
    }
}

pub fn date_of(n: u32) -> Date
    requires { (1 ≤ n) × (n ≤ last_day) }
    ensures { result ≡ date_of n }
{
    let year = year_of(n);
    let rest = n - days_in_years(year - 1);
    let month = month_of(year, rest);
    Date {
        year,
        month,
        day: rest - days_in_months(year, month - 1),
    }
}

// The date of a day of March, counted on into April.
pub fn march_date(year: u32, day: u32) -> Date
    requires { (1 ≤ year) × (year ≤ last_year) × (1 ≤ day) × (day ≤ 61) }
    ensures { result ≡ date_of (day_number year 3 day) }
{
    if day < 32 {
        Date {
            year,
            month: 3,
            day,
        }
    } else {
        Date {
            year,
            month: 4,
            day: day - 31,
        }
    }
}

// 0 Monday to 6 Sunday.
pub fn weekday(n: u32) -> u32
    ensures { result ≡ weekday_of n }
{
    (n % 7 + 6) % 7
}
