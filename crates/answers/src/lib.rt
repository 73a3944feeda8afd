// The C structs of the answers, and how each result becomes one; the nth weekday and Easter, whose dates are not made from a day
// number; an order sliced by the struct that the count call returned.
#![tactic(auto)]

pub mod counts;
pub mod neighbouring_days;
pub mod optional_dates;
pub mod records;
pub mod slices;
pub mod trading_hours;

ghost use Rattle.std.specs.Prelude.{◌≡◌, ◌+◌, ◌-◌, ◌≤◌, option_map};
ghost use Rattle.utils.specs.Inner.{day_of_nth, NthInYears};
ghost use Rattle.utils.specs.Easter.{calculate_easter};
ghost use Rattle.answers.specs.Answers.{optional_date, flag_of, bool_answer};

use error::{CalendarError, ErrorFields};
use gregorian::{Date, NO_DATE};
use utils::NthWeekday;
use utils::easter::easter_days;

// tc_optional_date of the header, [host-answers]: found is 1 and date is the answer, or every field is 0.
#[repr(C)]
#[derive(Clone, Copy)]
pub struct OptionalDate {
    pub found: u32,
    pub date: Date,
}

// Put together here and in the two functions below, each of which finds a date in a way of its own; none has an `Option<Date>` to convert.
const NO_OPTIONAL_DATE: OptionalDate = OptionalDate {
    found: 0,
    date: NO_DATE,
};

// The date of an nth weekday, asked about a month: a day of that month is not converted.
#[tactic(auto, unfolding(crate::specs::Answers::optional_date))]
pub fn nth_weekday_answer(year: u32, month: u32, answer: Option<NthWeekday>) -> OptionalDate
    requires { NthInYears year month answer }
    ensures { result ≡ optional_date (day_of_nth year month answer) }
{
    match answer {
        Some(NthWeekday::InMonth(day)) => OptionalDate {
            found: 1,
            date: Date { year, month, day },
        },
        Some(NthWeekday::DayNumber(n)) => OptionalDate {
            found: 1,
            date: gregorian::date_of(n),
        },
        None => NO_OPTIONAL_DATE,
    }
}

// Easter Sunday, or a day before or after it, by the day of March on which it is at the earliest, as Easter on the 22nd.
#[tactic(auto, unfolding(crate::specs::Answers::optional_date, utils::specs::Easter::calculate_easter))]
pub fn easter_answer(year: u32, march_day: u32) -> OptionalDate
    requires { (1 ≤ march_day) × (march_day ≤ 27) }
    ensures { result ≡ optional_date (option_map (λ n. n + march_day - 22) (calculate_easter year)) }
{
    if year < 1 {
        return NO_OPTIONAL_DATE;
    }
    if gregorian::LAST_YEAR < year {
        return NO_OPTIONAL_DATE;
    }
    OptionalDate {
        found: 1,
        date: gregorian::march_date(year, march_day + easter_days(year)),
    }
}

// tc_bool_result of the header, [host-answers]: error is 0 and value is yes or no; or error is a number of [errors], and date
// is what is returned with it.
#[repr(C)]
#[derive(Clone, Copy)]
pub struct BoolAnswer {
    pub error: u32,
    pub value: u32,
    pub date: Date,
}

// [host-answers]: yes is 1 and no is 0. A function, since its contract is the definition by which claims speak of the struct.
#[tactic(auto, unfolding(crate::specs::Answers::flag_of))]
fn flag(yes: bool) -> u32
    ensures { result ≡ flag_of yes }
{
    u32::from(yes)
}

// Each answer has its own fields beside those of an error, so the arm of `Err` stands in each `from`, with what is common in `ErrorFields`.
impl From<Result<bool, CalendarError>> for BoolAnswer {
    ghost from_gives = { λ answer struct. struct ≡ bool_answer answer };

    #[tactic(auto, unfolding(crate::specs::Answers::bool_answer))]
    fn from(answer: Result<bool, CalendarError>) -> Self {
        match answer {
            Ok(yes) => BoolAnswer {
                error: 0,
                value: flag(yes),
                date: NO_DATE,
            },
            Err(e) => {
                let fields = ErrorFields::from(e);
                BoolAnswer {
                    error: fields.number,
                    value: 0,
                    date: fields.date,
                }
            }
        }
    }
}
