// The hours record of the header, tc_hours, and what it is inside: there a part that may be absent is an `Option`.
ghost use Rattle.std.specs.Prelude.{◌≡◌};
ghost use Rattle.answers.specs.Records.{optional, has_part, trading_hours_of, hours_of};

use gregorian::{Date, NO_DATE};
use schedule::{Session, TradingHours};

// tc_hours of the header, [host-answers]: a part is absent if its has_ field is 0, whatever its numbers are. In an answer a has_
// field is 0 or 1, and the numbers of an absent part are 0.
#[repr(C)]
#[derive(Clone, Copy)]
pub struct Hours {
    pub date: Date,
    pub has_pre_market: u32,
    pub pre_market: Session,
    pub regular: Session,
    pub has_after_hours: u32,
    pub after_hours: Session,
    pub has_early_close: u32,
    pub early_close: u32,
}

// No session, where an answer has none.
pub const NO_SESSION: Session = Session { start: 0, end: 0 };

pub const NO_HOURS: Hours = Hours {
    date: NO_DATE,
    has_pre_market: 0,
    pre_market: NO_SESSION,
    regular: NO_SESSION,
    has_after_hours: 0,
    after_hours: NO_SESSION,
    has_early_close: 0,
    early_close: 0,
};

// A part that the host hands in, by its has_ field.
#[tactic(auto, unfolding(crate::specs::Records::optional))]
pub fn optional<T: Drop>(has: u32, part: T) -> Option<T>
    ensures { result ≡ optional has part }
{
    if has == 0 { None } else { Some(part) }
}

// The has_ field of a part that comes back.
fn has_part<T>(part: &Option<T>) -> u32
    ensures { result ≡ has_part part.now }
{
    u32::from(part.is_some())
}

// What the host hands in.
impl From<Hours> for TradingHours {
    ghost from_gives = { λ hours inner. inner ≡ trading_hours_of hours };

    fn from(hours: Hours) -> Self {
        TradingHours {
            date: hours.date,
            pre_market: optional(hours.has_pre_market, hours.pre_market),
            regular: hours.regular,
            after_hours: optional(hours.has_after_hours, hours.after_hours),
            early_close: optional(hours.has_early_close, hours.early_close),
        }
    }
}

// What comes back to the host.
impl From<TradingHours> for Hours {
    ghost from_gives = { λ inner hours. hours ≡ hours_of inner };

    fn from(hours: TradingHours) -> Self {
        Hours {
            date: hours.date,
            has_pre_market: has_part(&hours.pre_market),
            pre_market: hours.pre_market.unwrap_or(NO_SESSION),
            regular: hours.regular,
            has_after_hours: has_part(&hours.after_hours),
            after_hours: hours.after_hours.unwrap_or(NO_SESSION),
            has_early_close: has_part(&hours.early_close),
            early_close: hours.early_close.unwrap_or(0),
        }
    }
}
