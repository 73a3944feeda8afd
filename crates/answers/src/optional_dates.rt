// The answer of a search for a day that may find none.
ghost use Rattle.std.specs.Prelude.{◌≡◌};
ghost use Rattle.answers.specs.Answers.{optional_date_answer};

use error::{CalendarError, ErrorFields};
use gregorian::{Date, NO_DATE};

// tc_optional_date_result of the header, [host-answers]: error is 0, and found is 1 and date is the answer, or both are 0; or error is a
// number of [errors], and date what error 1 returns.
#[repr(C)]
#[derive(Clone, Copy)]
pub struct OptionalDateAnswer {
    pub error: u32,
    pub found: u32,
    pub date: Date,
}

impl From<Result<Option<Date>, CalendarError>> for OptionalDateAnswer {
    ghost from_gives = { λ answer struct. struct ≡ optional_date_answer answer };

    #[tactic(auto, unfolding(crate::specs::Answers::optional_date_answer))]
    fn from(answer: Result<Option<Date>, CalendarError>) -> Self {
        match answer {
            Ok(Some(date)) => OptionalDateAnswer {
                error: 0,
                found: 1,
                date,
            },
            Ok(None) => OptionalDateAnswer {
                error: 0,
                found: 0,
                date: NO_DATE,
            },
            Err(e) => {
                let fields = ErrorFields::from(e);
                OptionalDateAnswer {
                    error: fields.number,
                    found: 0,
                    date: fields.date,
                }
            }
        }
    }
}
