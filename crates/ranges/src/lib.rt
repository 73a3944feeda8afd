// The trading days of a date range, over any rule of which days trade: definitions and theorems, and the days of a range one by one.
#![tactic(auto)]

ghost use Rattle.std.specs.Prelude.{◌≡◌, suc, ◌-◌, ◌≤◌, reverse};
ghost use Rattle.std.specs.Iterator.{YieldsFirstBy, item_count};
ghost use Rattle.gregorian.specs.Calendar.{last_day};
ghost use Rattle.ranges.specs.Ranges.{days};

use gregorian::days::CalendarDay;

// The days from day number `next` to `last`, both included. `day` is the day before `next` or, at first, that day itself: so a step is
// one compare and `next_day`, and none goes beyond `last`.
#[derive(Drop)]
pub struct Days {
    pub day: CalendarDay,
    pub next: u32,
    pub last: u32,
    pub ghost near: { (day.number ≤ next) × (next ≤ suc day.number) },
    pub ghost high: { last ≤ last_day },
}

impl Iterator for Days {
    type Item = CalendarDay;

    ghost next_gives = { YieldsFirstBy (λ day. day.number) (λ s. days s.next s.last) };

    ghost remaining = { item_count (λ s. days s.next s.last) };

    fn next(&mut self) -> Option<CalendarDay> {
        if self.last < self.next {
            return None;
        }
        let day = if self.day.number < self.next {
            self.day.next_day()
        } else {
            self.day
        };
        self.day = day;
        self.next = day.number + 1;
        Some(day)
    }
}

impl Days {
    // From that day on.
    pub fn new(first: CalendarDay, last: u32) -> Days
        requires { last ≤ last_day }
        ensures { (result.next ≡ first.number) × (result.last ≡ last) }
    {
        Days {
            day: first,
            next: first.number,
            last,
        }
    }

    // From the day after it on.
    pub fn after(day: CalendarDay, last: u32) -> Days
        requires { last ≤ last_day }
        ensures { (result.next ≡ suc day.number) × (result.last ≡ last) }
    {
        Days {
            day,
            next: day.number + 1,
            last,
        }
    }
}

// The days before `day`, down to `first`.
#[derive(Drop)]
pub struct DaysBefore {
    pub day: CalendarDay,
    pub first: u32,
    pub ghost low: { 1 ≤ first },
}

impl Iterator for DaysBefore {
    type Item = CalendarDay;

    ghost next_gives = { YieldsFirstBy (λ day. day.number) (λ s. reverse (days s.first (s.day.number - 1))) };

    ghost remaining = { item_count (λ s. reverse (days s.first (s.day.number - 1))) };

    fn next(&mut self) -> Option<CalendarDay> {
        if self.day.number <= self.first {
            return None;
        }
        self.day = self.day.previous_day();
        Some(self.day)
    }
}

impl DaysBefore {
    pub fn new(day: CalendarDay, first: u32) -> DaysBefore
        requires { 1 ≤ first }
        ensures { (result.day ≡ day) × (result.first ≡ first) }
    {
        DaysBefore { day, first }
    }
}
