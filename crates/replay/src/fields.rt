// The answer of a call as numbers: the fields of the C struct, in order.
use crate::numbers::{Numbers, numbers};
use answers::counts::CountAnswer;
use answers::neighbouring_days::TradingDayAnswer;
use answers::trading_hours::{HoursAnswer, SessionAnswer, TimeAnswer};
use answers::{BoolAnswer, OptionalDate};
use gregorian::Date;

pub trait Fields {
    fn fields(self) -> Numbers;
}

impl Fields for OptionalDate {
    fn fields(self) -> Numbers {
        let Date { year, month, day } = self.date;
        numbers(&[self.found, year, month, day])
    }
}

impl Fields for BoolAnswer {
    fn fields(self) -> Numbers {
        let Date { year, month, day } = self.date;
        numbers(&[self.error, self.value, year, month, day])
    }
}

impl Fields for TradingDayAnswer {
    fn fields(self) -> Numbers {
        let Date { year, month, day } = self.date;
        numbers(&[self.error, year, month, day, self.distance, self.outside])
    }
}

impl Fields for CountAnswer {
    fn fields(self) -> Numbers {
        let Date { year, month, day } = self.date;
        numbers(&[self.error, self.count, year, month, day])
    }
}

impl Fields for TimeAnswer {
    fn fields(self) -> Numbers {
        numbers(&[self.error, self.seconds])
    }
}

impl Fields for SessionAnswer {
    fn fields(self) -> Numbers {
        numbers(&[self.error, self.session.start, self.session.end])
    }
}

impl Fields for HoursAnswer {
    fn fields(self) -> Numbers {
        let hours = self.hours;
        let Date { year, month, day } = hours.date;
        numbers(&[
            self.error,
            year,
            month,
            day,
            hours.has_pre_market,
            hours.pre_market.start,
            hours.pre_market.end,
            hours.regular.start,
            hours.regular.end,
            hours.has_after_hours,
            hours.after_hours.start,
            hours.after_hours.end,
            hours.has_early_close,
            hours.early_close,
        ])
    }
}
