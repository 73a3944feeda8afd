// The errors of the calls, as src/error.rs of the Rust.
#![tactic(auto)]

ghost use Rattle.std.specs.Prelude.{◌≡◌};
ghost use Rattle.error.specs.Errors.{only_number, error_fields};

use gregorian::{Date, NO_DATE};

// In the order of [errors]. The first five are added, as the Rust has no month sheet and no sets of markets, and its types no such
// market, date or time; so are NoTradingDayInRange, as it slices no orders, and BufferTooSmall, which holds the number of entries that
// the answer takes.
#[derive(Clone, Copy)]
pub enum CalendarError {
    MalformedText,
    UnknownMarket,
    InvalidMarketSet,
    InvalidDate,
    TimeOutOfRange,
    DateOutOfRange(Date),
    InvalidDateCalculation,
    NoTradingDayFound,
    NoTradingDayInRange,
    BufferTooSmall(u32),
    InvalidSession,
    InvalidTime,
}

// [errors]: the number of an error, the number of entries returned with error 9, and the date returned with error 1; 0 and no date
// where nothing is returned [reading-nothing].
#[derive(Clone, Copy)]
pub struct ErrorFields {
    pub number: u32,
    pub count: u32,
    pub date: Date,
}

// An error with which nothing is returned.
fn only_number(number: u32) -> ErrorFields
    ensures { result ≡ only_number number }
{
    ErrorFields {
        number,
        count: 0,
        date: NO_DATE,
    }
}

impl From<CalendarError> for ErrorFields {
    ghost from_gives = { λ e fields. fields ≡ error_fields e };

    #[tactic(auto, unfolding(crate::specs::Errors::error_fields))]
    fn from(e: CalendarError) -> Self {
        match e {
            CalendarError::MalformedText => only_number(10),
            CalendarError::UnknownMarket => only_number(8),
            CalendarError::InvalidMarketSet => only_number(12),
            CalendarError::InvalidDate => only_number(5),
            CalendarError::TimeOutOfRange => only_number(7),
            CalendarError::DateOutOfRange(date) => ErrorFields {
                number: 1,
                count: 0,
                date,
            },
            CalendarError::InvalidDateCalculation => only_number(2),
            CalendarError::NoTradingDayFound => only_number(6),
            CalendarError::NoTradingDayInRange => only_number(11),
            CalendarError::BufferTooSmall(needed) => ErrorFields {
                number: 9,
                count: needed,
                date: NO_DATE,
            },
            CalendarError::InvalidSession => only_number(3),
            CalendarError::InvalidTime => only_number(4),
        }
    }
}
