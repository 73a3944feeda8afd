// A day as searches carry it: its day number and its date together, stepped to the day after and the day before without a conversion.
ghost use Rattle.std.specs.Prelude.{◌≡◌, true, ◌+◌, ◌-◌, ◌≤◌, ltb};
ghost use Rattle.gregorian.specs.Calendar.{month_length, last_day, is_date_of, date_of, number, day_after, day_before};

use crate::{Date, day_number, days_in_month};

#[derive(Clone, Copy)]
pub struct CalendarDay {
    pub number: u32,
    pub date: Date,
    pub ghost low: { 1 ≤ number },
    pub ghost high: { number ≤ last_day },
    pub ghost same: { date ≡ date_of number },
}

impl CalendarDay {
    pub fn new(date: Date) -> Self
        requires { is_date_of date ≡ true }
        ensures { result.number ≡ number date }
    {
        CalendarDay {
            number: day_number(date.year, date.month, date.day),
            date,
        }
    }

    // The number and the date of the day after. Of 9999-12-31 too, whose day after is no day of these years.
    pub fn day_after(self) -> (u32, Date)
        ensures { (result.0 ≡ self.number + 1) × (result.1 ≡ date_of (self.number + 1)) }
    {
        (self.number + 1, date_after(self.date))
    }

    pub fn next_day(self) -> Self
        requires { self.number + 1 ≤ last_day }
        ensures { result.number ≡ self.number + 1 }
    {
        let (number, date) = self.day_after();
        CalendarDay { number, date }
    }

    pub fn previous_day(self) -> Self
        requires { 2 ≤ self.number }
        ensures { result.number ≡ self.number - 1 }
    {
        CalendarDay {
            number: self.number - 1,
            date: date_before(self.date),
        }
    }
}

// Whether a later day of the month follows. Every month has 28 days, and its length is asked for only past them.
fn month_goes_on(date: Date) -> bool
    requires { is_date_of date ≡ true }
    ensures { result ≡ ltb date.day (month_length date.year date.month) }
{
    date.day < 28 || date.day < days_in_month(date.year, date.month)
}

pub fn date_after(date: Date) -> Date
    requires { is_date_of date ≡ true }
    ensures { result ≡ day_after date }
{
    if month_goes_on(date) {
        return Date {
            day: date.day + 1,
            ..date
        };
    }
    if date.month < 12 {
        return Date {
            month: date.month + 1,
            day: 1,
            ..date
        };
    }
    Date {
        year: date.year + 1,
        month: 1,
        day: 1,
    }
}

fn date_before(date: Date) -> Date
    requires { (is_date_of date ≡ true) × (2 ≤ number date) }
    ensures { result ≡ day_before date }
{
    if 1 < date.day {
        return Date {
            day: date.day - 1,
            ..date
        };
    }
    if 1 < date.month {
        return Date {
            month: date.month - 1,
            day: days_in_month(date.year, date.month - 1),
            ..date
        };
    }
    Date {
        year: date.year - 1,
        month: 12,
        day: 31,
    }
}
