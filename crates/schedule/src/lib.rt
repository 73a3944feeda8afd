// Sessions and trading hours, as src/schedule.rs of the Rust, and the hours of each market. A time is a second of the day, and any
// other number is taken too.
#![tactic(auto)]

pub mod constants;
pub mod us;

ghost use Rattle.std.specs.Prelude.{◌≡◌, true, ◌&&◌, ltb, leb};
ghost use Rattle.gregorian.specs.declared.Date.{Date};
ghost use Rattle.gregorian.specs.Calendar.{is_date_of};
ghost use Rattle.schedule.specs.Schedule.{session_new, contains};
ghost use Rattle.schedule.specs.Schedule.{hours_new, with_early_close, is_early_close, market_close, is_open_at};
ghost use Rattle.schedule.specs.MarketHours.{regular_hours, trading_hours};

use constants::{LSEMarket, TSEMarket, TSXMarket, USMarket};
use error::CalendarError;
use gregorian::Date;
use markets::{LSE, NASDAQ, NYSE, TSE, TSX};

#[repr(C)]
#[derive(Clone, Copy)]
pub struct Session {
    pub start: u32,
    pub end: u32,
}

impl Session {
    // [session-new]: an end before the start means a session over midnight.
    #[tactic(auto, unfolding(crate::specs::Schedule::session_new))]
    pub fn new(start: u32, end: u32) -> Result<Self, CalendarError>
        ensures { result ≡ session_new start end }
    {
        if end == start {
            return Err(CalendarError::InvalidSession);
        }
        Ok(Session { start, end })
    }

    // [contains]
    #[tactic(auto, unfolding(crate::specs::Schedule::contains))]
    pub fn contains(self, time: u32) -> bool
        ensures { result ≡ contains self time }
    {
        if self.start < self.end {
            (self.start <= time) & (time < self.end)
        } else {
            (self.start <= time) | (time < self.end)
        }
    }
}

// [hours-record]
#[derive(Clone, Copy)]
pub struct TradingHours {
    pub date: Date,
    pub pre_market: Option<Session>,
    pub regular: Session,
    pub after_hours: Option<Session>,
    pub early_close: Option<u32>,
}

impl TradingHours {
    // [hours-new]
    pub fn new(
        date: Date,
        regular: Session,
        pre_market: Option<Session>,
        after_hours: Option<Session>,
    ) -> Self
        ensures { result ≡ hours_new date regular pre_market after_hours }
    {
        TradingHours {
            date,
            pre_market,
            regular,
            after_hours,
            early_close: None,
        }
    }

    // [with-early-close]
    #[tactic(auto, unfolding(crate::specs::Schedule::with_early_close))]
    pub fn with_early_close(self, early_close: u32) -> Result<Self, CalendarError>
        ensures { result ≡ with_early_close self early_close }
    {
        if self.regular.end <= early_close {
            return Err(CalendarError::InvalidTime);
        }
        Ok(TradingHours {
            early_close: Some(early_close),
            ..self
        })
    }

    // [is-early-close]
    pub fn is_early_close(self) -> bool
        ensures { result ≡ is_early_close self }
    {
        self.early_close.is_some()
    }

    // [market-close]
    pub fn market_close(self) -> u32
        ensures { result ≡ market_close self }
    {
        self.early_close.unwrap_or(self.regular.end)
    }

    // [is-open-at]: the regular hours are not tested by `contains`.
    #[tactic(auto, unfolding(crate::specs::Schedule::is_open_at))]
    pub fn is_open_at(self, time: u32) -> bool
        ensures { result ≡ is_open_at self time }
    {
        let is_pre_market = self.pre_market.is_some_and(|s| s.contains(time));
        let is_after_hours = self.after_hours.is_some_and(|s| s.contains(time));
        let is_reached = self.early_close.is_none_or(|close| close <= time);
        is_pre_market
            | ((self.regular.start <= time) & (time < self.market_close()))
            | (is_after_hours & is_reached)
    }
}

// LSE, TSE and TSX: no session before or after, no early close.
fn regular_hours(date: Date, start: u32, end: u32) -> TradingHours
    ensures { result ≡ regular_hours start end date }
{
    TradingHours::new(date, Session { start, end }, None, None)
}

// Whether the time is from the start to before the end.
fn is_within(start: u32, end: u32, time: u32) -> bool
    ensures { result ≡ (leb start time && ltb time end) }
{
    (start <= time) & (time < end)
}

// [is-open-at] of the market's hours, which are open at the same seconds on every date: the sessions of the US meet, also where an
// early close is the end of one and the start of the next. A code that is no market's is never open.
pub fn is_market_open_at(market: u32, time: u32) -> bool
    ensures { (date : Date) → result ≡ is_open_at (trading_hours market date) time }
{
    match market {
        NYSE | NASDAQ => is_within(USMarket::PREMARKET_OPEN, USMarket::AFTERHOURS_CLOSE, time),
        LSE => is_within(LSEMarket::REGULAR_OPEN, LSEMarket::REGULAR_CLOSE, time),
        TSE => is_within(TSEMarket::REGULAR_OPEN, TSEMarket::REGULAR_CLOSE, time),
        TSX => is_within(TSXMarket::REGULAR_OPEN, TSXMarket::REGULAR_CLOSE, time),
        _ => false,
    }
}

// [trading-hours]: a code that is no market's has the hours 0 to 0. Of a date and no `CalendarDay`, here and in `us`, as the hours of LSE,
// TSE and TSX ask for no day number.
pub fn trading_hours(market: u32, date: Date) -> TradingHours
    requires { is_date_of date ≡ true }
    ensures { result ≡ trading_hours market date }
{
    match market {
        NYSE | NASDAQ => us::trading_hours(date),
        LSE => regular_hours(date, LSEMarket::REGULAR_OPEN, LSEMarket::REGULAR_CLOSE),
        TSE => regular_hours(date, TSEMarket::REGULAR_OPEN, TSEMarket::REGULAR_CLOSE),
        TSX => regular_hours(date, TSXMarket::REGULAR_OPEN, TSXMarket::REGULAR_CLOSE),
        _ => regular_hours(date, 0, 0),
    }
}
