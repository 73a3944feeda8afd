// The call that slices an order over its days.
ghost use Rattle.std.specs.Prelude.{◌≡◌};
ghost use Rattle.range_calls.specs.RangeCalls.{count_trading_days_result};
ghost use Rattle.answers.specs.Answers.{count_answer};
ghost use Rattle.answers.specs.SliceCall.{slice_order_answer, slice_order_buffer};

use crate::day_ranges::tc_count_trading_days;
use answers::slices::{SliceAnswer, slice_order_answer};

// [slice-order]: over how many days, the shares of each and the remainder, with the slices at the start of the buffer, one number for
// each day; or the first of errors 8, 5, 1, 11 and 9 that applies, with which nothing is written [error-writes-nothing].
pub fn tc_slice_order(
    market: u32,
    quantity: u32,
    start_year: u32,
    start_month: u32,
    start_day: u32,
    end_year: u32,
    end_month: u32,
    end_day: u32,
    out: &mut [u32],
) -> SliceAnswer
    ensures { let counted = count_answer (count_trading_days_result market start_year start_month start_day
        end_year end_month end_day) in
        (result ≡ slice_order_answer quantity counted out.old)
        × (out.new ≡ slice_order_buffer quantity counted out.old) }
{
    let counted = tc_count_trading_days(
        market,
        start_year,
        start_month,
        start_day,
        end_year,
        end_month,
        end_day,
    );
    slice_order_answer(quantity, counted, out)
}
