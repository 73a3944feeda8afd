// The answer of the month list and of the count.
ghost use Rattle.std.specs.Prelude.{◌≡◌};
ghost use Rattle.answers.specs.Answers.{count_answer};

use error::{CalendarError, ErrorFields};
use gregorian::{Date, NO_DATE};

// tc_count_result of the header, [host-answers]: error is 0 and count is the answer; or error is a number of [errors], count the
// number of entries that error 9 returns, and date what error 1 returns.
#[repr(C)]
#[derive(Clone, Copy)]
pub struct CountAnswer {
    pub error: u32,
    pub count: u32,
    pub date: Date,
}

impl From<Result<u32, CalendarError>> for CountAnswer {
    ghost from_gives = { λ answer struct. struct ≡ count_answer answer };

    #[tactic(auto, unfolding(crate::specs::Answers::count_answer))]
    fn from(answer: Result<u32, CalendarError>) -> Self {
        match answer {
            Ok(count) => CountAnswer {
                error: 0,
                count,
                date: NO_DATE,
            },
            Err(e) => {
                let fields = ErrorFields::from(e);
                CountAnswer {
                    error: fields.number,
                    count: fields.count,
                    date: fields.date,
                }
            }
        }
    }
}
