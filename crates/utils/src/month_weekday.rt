// A weekday of a month of years 1 to 9999, and its nth day: counted from the start of the month, or from its end.
ghost use Rattle.std.specs.Prelude.{◌≡◌, true, ◌+◌, ◌≤◌, pos, negsuc};
ghost use Rattle.gregorian.specs.Calendar.{day_number, is_date};
ghost use Rattle.utils.specs.Weekday.{next_month, next_year, last_up_to, nth_weekday_of_month};
ghost use Rattle.utils.specs.Inner.{day_of_nth, NthInYears};

use crate::{NthWeekday, by_number, if_in_month, last_up_to, weeks_before};
use gregorian::Date;

// How far n goes either way.
const MOST_NTH: u32 = 255;

#[derive(Clone, Copy)]
pub struct MonthWeekday {
    pub year: u32,
    pub month: u32,
    pub weekday: u32,
    pub ghost is_month: { is_date year month 1 ≡ true },
    pub ghost is_weekday: { weekday ≤ 6 },
}

impl MonthWeekday {
    // Of the seven days that end with a day of the month, the one that is such a weekday, as a day of the month.
    fn up_to(self, day: u32) -> u32
        requires { (is_date self.year self.month day ≡ true) × (7 ≤ day) }
        ensures { (day_number self.year self.month result ≡ last_up_to self.weekday (day_number self.year self.month day))
            × (result ≤ day) × (day ≤ result + 6) }
    {
        let n = gregorian::day_number(self.year, self.month, day);
        day - (n - last_up_to(self.weekday, n))
    }

    // n - 1 weeks after the first one. The first four are always in the month: the nth is among the seven days up to 7 * n.
    pub fn nth_from_start(self, n: u32) -> Option<NthWeekday>
        ensures { (day_of_nth self.year self.month result ≡ nth_weekday_of_month self.year self.month self.weekday (pos n))
            × NthInYears self.year self.month result }
    {
        if n < 1 {
            return None;
        }
        if n < 5 {
            return Some(NthWeekday::InMonth(self.up_to(7 * n)));
        }
        if MOST_NTH < n {
            return None;
        }
        let first = self.up_to(7);
        let first_day = Date {
            year: self.year,
            month: self.month,
            day: 1,
        };
        let target = gregorian::day_number(self.year, self.month, first) + 7 * (n - 1);
        by_number(if_in_month(first_day, target))
    }

    // Every month but December 9999 has a next one.
    fn has_next_month(self) -> bool
        ensures { result ≡ is_date (next_year self.year self.month) (next_month self.month) 1 }
    {
        (self.month < 12) | (self.year < gregorian::LAST_YEAR)
    }

    // k weeks before the last one. The last four are always in the month: that one is among the seven days up to length - 7 * k.
    pub fn nth_from_end(self, k: u32) -> Option<NthWeekday>
        ensures { (day_of_nth self.year self.month result ≡ nth_weekday_of_month self.year self.month self.weekday (negsuc k))
            × NthInYears self.year self.month result }
    {
        if !self.has_next_month() {
            return None;
        }
        let length = gregorian::days_in_month(self.year, self.month);
        if k < 4 {
            return Some(NthWeekday::InMonth(self.up_to(length - 7 * k)));
        }
        if MOST_NTH <= k {
            return None;
        }
        let last = self.up_to(length);
        let first_day = Date {
            year: self.year,
            month: self.month,
            day: 1,
        };
        let last_day = gregorian::day_number(self.year, self.month, last);
        by_number(weeks_before(first_day, k, last_day))
    }
}
