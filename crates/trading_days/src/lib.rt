// The trading days of a range and of a month, as src/calendar.rs of the Rust finds them past its checks.
#![tactic(auto)]

ghost use Rattle.std.specs.Prelude.{◌≡◌, true, ◌≤◌, length, take};
ghost use Rattle.gregorian.specs.Calendar.{last_day, is_date, date_of};
ghost use Rattle.markets.specs.Markets.{is_trading_day};
ghost use Rattle.ranges.specs.Ranges.{count_trading_days};
ghost use Rattle.trading_days.specs.Month.{month_list};

use gregorian::Date;
use gregorian::days::CalendarDay;
use markets::is_trading_day;

// How many days a month has at most.
pub const LONGEST_MONTH: usize = 31;

// [count]: from the first day to the last, both included; 0 if the last is before the first. The first day by its number and its date and
// no `CalendarDay`, as it may be after all days. By hand, as a `for` over the days took 1.08 of the instructions, and so did `filter` with
// `count`.
pub fn count(market: u32, first: u32, first_date: Date, last: u32) -> u32
    requires { (1 ≤ first) × (first_date ≡ date_of first) × (last ≤ last_day) }
    ensures { result ≡ count_trading_days (is_trading_day market) first last }
{
    let mut count = 0;
    let mut number = first;
    let mut date = first_date;
    while number <= last {
        let day = CalendarDay { number, date };
        if is_trading_day(market, day) {
            count += 1;
        }
        let next = day.day_after();
        number = next.0;
        date = next.1;
    }
    count
}

// [month-list]: how many days of the month trade. The first so many bytes are then these days, by their numbers in the month. Each day
// is asked for once. The caller lends the bytes: the library has no heap, and a list answered in a struct was copied, and slower.
// A day becomes a byte by `as`: `From` makes none from a `u32`.
pub fn month_days(market: u32, year: u32, month: u32, days: &mut [u8]) -> usize
    requires { (is_date year month 1 ≡ true) × (length days.old ≡ 31) }
    ensures { (take result days.new ≡ month_list market year month) × (result ≤ 31) }
{
    let mut count = 0;
    let before = gregorian::day_number(year, month, 1) - 1;
    for day in 1..=gregorian::days_in_month(year, month) {
        let date = Date { year, month, day };
        let number = before + day;
        if is_trading_day(market, CalendarDay { number, date }) {
            days[count] = day as u8;
            count += 1;
        }
    }
    count
}
