// The answer of next and previous.
ghost use Rattle.std.specs.Prelude.{◌≡◌};
ghost use Rattle.answers.specs.Answers.{trading_day_answer};

use crate::flag;
use error::{CalendarError, ErrorFields};
use gregorian::Date;
use range_calls::TradingDay;

// tc_trading_day_result of the header, [host-answers]: error is 0 and the rest is the answer; or error is a number of [errors], and
// every other field is 0 [reading-nothing] [reading-error-6].
#[repr(C)]
#[derive(Clone, Copy)]
pub struct TradingDayAnswer {
    pub error: u32,
    pub date: Date,
    pub distance: u32,
    pub outside: u32,
}

impl From<Result<TradingDay, CalendarError>> for TradingDayAnswer {
    ghost from_gives = { λ answer struct. struct ≡ trading_day_answer answer };

    #[tactic(auto, unfolding(crate::specs::Answers::trading_day_answer))]
    fn from(answer: Result<TradingDay, CalendarError>) -> Self {
        match answer {
            Ok(day) => TradingDayAnswer {
                error: 0,
                date: day.date,
                distance: day.distance,
                outside: flag(day.outside),
            },
            Err(e) => {
                let fields = ErrorFields::from(e);
                TradingDayAnswer {
                    error: fields.number,
                    date: fields.date,
                    distance: 0,
                    outside: 0,
                }
            }
        }
    }
}
