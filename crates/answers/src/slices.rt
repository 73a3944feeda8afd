// The answer of an order sliced over its days.
ghost use Rattle.std.specs.Prelude.{◌≡◌};
ghost use Rattle.answers.specs.Answers.{slice_answer};
ghost use Rattle.answers.specs.SliceCall.{slice_order_answer, slice_order_buffer};

use crate::counts::CountAnswer;
use error::{CalendarError, ErrorFields};
use gregorian::{Date, NO_DATE};
use orders::Slicing;

// tc_slice_result of the header, [host-answers]: error is 0 and the next three are the answer; or error is a number of [errors], count
// the number of entries that error 9 returns, and date what error 1 returns.
#[repr(C)]
#[derive(Clone, Copy)]
pub struct SliceAnswer {
    pub error: u32,
    pub count: u32,
    pub per_day: u32,
    pub remainder: u32,
    pub date: Date,
}

impl From<Result<Slicing, CalendarError>> for SliceAnswer {
    ghost from_gives = { λ answer struct. struct ≡ slice_answer answer };

    #[tactic(auto, unfolding(crate::specs::Answers::slice_answer))]
    fn from(answer: Result<Slicing, CalendarError>) -> Self {
        match answer {
            Ok(slicing) => SliceAnswer {
                error: 0,
                count: slicing.count,
                per_day: slicing.per_day,
                remainder: slicing.remainder,
                date: NO_DATE,
            },
            Err(e) => {
                let fields = ErrorFields::from(e);
                SliceAnswer {
                    error: fields.number,
                    count: fields.count,
                    per_day: 0,
                    remainder: 0,
                    date: fields.date,
                }
            }
        }
    }
}

// [slice-order], by what the count call returned: its error, with what comes with it, or the order over the days counted. The struct is
// C's, and its error a number: slice_order_answer of specs/ speaks of it, whatever its fields.
#[tactic(auto, unfolding(crate::specs::SliceCall::slice_order_answer, crate::specs::SliceCall::slice_order_buffer))]
pub fn slice_order_answer(quantity: u32, counted: CountAnswer, out: &mut [u32]) -> SliceAnswer
    ensures { (result ≡ slice_order_answer quantity counted out.old)
        × (out.new ≡ slice_order_buffer quantity counted out.old) }
{
    if 0 < counted.error {
        return SliceAnswer {
            error: counted.error,
            count: counted.count,
            per_day: 0,
            remainder: 0,
            date: counted.date,
        };
    }
    SliceAnswer::from(orders::slice_order(quantity, counted.count, out))
}
