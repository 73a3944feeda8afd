// The answers about hours.
ghost use Rattle.std.specs.Prelude.{◌≡◌};
ghost use Rattle.answers.specs.Answers.{time_answer, session_answer, hours_answer};

use crate::records::{Hours, NO_HOURS, NO_SESSION};
use error::{CalendarError, ErrorFields};
use schedule::{Session, TradingHours};

// tc_time_result, tc_session_result and tc_hours_result of the header, [host-answers]: error is 0 and the other field is the
// answer; or error is a number of [errors], and every other field is 0.
#[repr(C)]
#[derive(Clone, Copy)]
pub struct TimeAnswer {
    pub error: u32,
    pub seconds: u32,
}

#[repr(C)]
#[derive(Clone, Copy)]
pub struct SessionAnswer {
    pub error: u32,
    pub session: Session,
}

#[repr(C)]
#[derive(Clone, Copy)]
pub struct HoursAnswer {
    pub error: u32,
    pub hours: Hours,
}

impl From<Result<u32, CalendarError>> for TimeAnswer {
    ghost from_gives = { λ answer struct. struct ≡ time_answer answer };

    #[tactic(auto, unfolding(crate::specs::Answers::time_answer))]
    fn from(answer: Result<u32, CalendarError>) -> Self {
        match answer {
            Ok(seconds) => TimeAnswer { error: 0, seconds },
            Err(e) => {
                let fields = ErrorFields::from(e);
                TimeAnswer {
                    error: fields.number,
                    seconds: 0,
                }
            }
        }
    }
}

impl From<Result<Session, CalendarError>> for SessionAnswer {
    ghost from_gives = { λ answer struct. struct ≡ session_answer answer };

    #[tactic(auto, unfolding(crate::specs::Answers::session_answer))]
    fn from(answer: Result<Session, CalendarError>) -> Self {
        match answer {
            Ok(session) => SessionAnswer { error: 0, session },
            Err(e) => {
                let fields = ErrorFields::from(e);
                SessionAnswer {
                    error: fields.number,
                    session: NO_SESSION,
                }
            }
        }
    }
}

impl From<Result<TradingHours, CalendarError>> for HoursAnswer {
    ghost from_gives = { λ answer struct. struct ≡ hours_answer answer };

    #[tactic(auto, unfolding(crate::specs::Answers::hours_answer))]
    fn from(answer: Result<TradingHours, CalendarError>) -> Self {
        match answer {
            Ok(hours) => HoursAnswer {
                error: 0,
                hours: Hours::from(hours),
            },
            Err(e) => {
                let fields = ErrorFields::from(e);
                HoursAnswer {
                    error: fields.number,
                    hours: NO_HOURS,
                }
            }
        }
    }
}
