// The kinds of calls that rows store. A new kind is a variant here, its place in ALL, a name, and a call of the library in `calls`. Kinds
// in the plural list days.
use std::fmt;

#[derive(Clone, Copy, PartialEq, Eq)]
pub enum Kind {
    NthWeekdayOfMonth,
    LastWeekdayOfMonth,
    CalculateEaster,
    CalculateGoodFriday,
    CalculateEasterMonday,
    IsTradingDay,
    IsHoliday,
    Holidays,
    HolidaysAnyYear,
    TradingDays,
    TradingHours,
    IsOpen,
    SessionNew,
    SessionContains,
    TradingHoursNew,
    WithEarlyClose,
    IsEarlyClose,
    MarketClose,
    IsOpenAt,
    NextTradingDay,
    PreviousTradingDay,
    TradingDaysInMonth,
    CountTradingDays,
    MonthSheet,
}

impl Kind {
    // How many kinds there are.
    pub const COUNT: usize = 24;

    // Every kind, in the order in which the counts are printed.
    pub const ALL: [Kind; Kind::COUNT] = [
        Kind::NthWeekdayOfMonth,
        Kind::LastWeekdayOfMonth,
        Kind::CalculateEaster,
        Kind::CalculateGoodFriday,
        Kind::CalculateEasterMonday,
        Kind::IsTradingDay,
        Kind::IsHoliday,
        Kind::Holidays,
        Kind::HolidaysAnyYear,
        Kind::TradingDays,
        Kind::TradingHours,
        Kind::IsOpen,
        Kind::SessionNew,
        Kind::SessionContains,
        Kind::TradingHoursNew,
        Kind::WithEarlyClose,
        Kind::IsEarlyClose,
        Kind::MarketClose,
        Kind::IsOpenAt,
        Kind::NextTradingDay,
        Kind::PreviousTradingDay,
        Kind::TradingDaysInMonth,
        Kind::CountTradingDays,
        Kind::MonthSheet,
    ];

    pub fn name(self) -> &'static str {
        match self {
            Kind::NthWeekdayOfMonth => "nth_weekday_of_month",
            Kind::LastWeekdayOfMonth => "last_weekday_of_month",
            Kind::CalculateEaster => "calculate_easter",
            Kind::CalculateGoodFriday => "calculate_good_friday",
            Kind::CalculateEasterMonday => "calculate_easter_monday",
            Kind::IsTradingDay => "is_trading_day",
            Kind::IsHoliday => "is_holiday",
            Kind::Holidays => "holidays",
            Kind::HolidaysAnyYear => "holidays_any_year",
            Kind::TradingDays => "trading_days",
            Kind::TradingHours => "trading_hours",
            Kind::IsOpen => "is_open",
            Kind::SessionNew => "session_new",
            Kind::SessionContains => "session_contains",
            Kind::TradingHoursNew => "trading_hours_new",
            Kind::WithEarlyClose => "with_early_close",
            Kind::IsEarlyClose => "is_early_close",
            Kind::MarketClose => "market_close",
            Kind::IsOpenAt => "is_open_at",
            Kind::NextTradingDay => "next_trading_day",
            Kind::PreviousTradingDay => "previous_trading_day",
            Kind::TradingDaysInMonth => "trading_days_in_month",
            Kind::CountTradingDays => "count_trading_days",
            Kind::MonthSheet => "month_sheet",
        }
    }

    // The kind of call with the name.
    pub fn of(name: &[u8]) -> Option<Kind> {
        Kind::ALL
            .iter()
            .copied()
            .find(|kind| kind.name().as_bytes() == name)
    }

    // Whether the answers of the kind are days, as many as there are, and not the fields of a struct.
    pub fn is_list(self) -> bool {
        matches!(
            self,
            Kind::Holidays | Kind::HolidaysAnyYear | Kind::TradingDays
        )
    }
}

impl fmt::Display for Kind {
    fn fmt<W: fmt::Write>(&self, f: &mut fmt::Formatter<W>) -> fmt::Result {
        f.write_str(self.name())
    }
}
