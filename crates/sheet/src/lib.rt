// The call for a month sheet: a text that names a month of a market, and the sheet of its trading days.
#![tactic(auto)]

ghost use Rattle.std.specs.Prelude.{◌≡◌, length};
ghost use Rattle.checks.specs.Checks.{checked_room, final_buffer};
ghost use Rattle.sheet_lines.specs.Inner.{text};
ghost use Rattle.sheet.specs.SheetCall.{sheet_of_month, sheet_written, sheet_buffer, month_sheet_result, month_sheet_buffer};

use checks::{checked_month, checked_room};
use error::CalendarError;
use request::{Request, read_request};
use sheet_lines::{Sheet, sheet_length, write_lines};
use trading_days::LONGEST_MONTH;

// How many bytes were written; error 9 where the sheet does not fit.
fn write_fitting(sheet: &Sheet, out: &mut [u8]) -> Result<u32, CalendarError>
    ensures { (result ≡ checked_room (length (text sheet.now)) (length out.old))
        × (out.new ≡ final_buffer result (text sheet.now) out.old) }
{
    let n = checked_room(sheet_length(sheet), out.len())?;
    write_lines(0, sheet, out);
    Ok(n)
}

// The first of errors 8, 1, 2 and 9 that applies, or the sheet with the days of the month list.
#[tactic(auto, unfolding(crate::specs::SheetCall::sheet_of_month))]
fn sheet_of_month(request: Request, out: &mut [u8]) -> Result<u32, CalendarError>
    ensures { (result ≡ sheet_written (sheet_of_month request.market request.year request.month) out.old)
        × (out.new ≡ sheet_buffer (sheet_of_month request.market request.year request.month) out.old) }
{
    let Request {
        market,
        year,
        month,
    } = request;
    checked_month(market, year, month)?;
    let mut days = [0; LONGEST_MONTH];
    let count = trading_days::month_days(market, year, month, &mut days);
    let sheet = Sheet {
        request,
        days: &days[..count],
    };
    write_fitting(&sheet, out)
}

// [sheet-return]: how many bytes of the sheet were written, or the first of errors 10, 8, 1, 2 and 9 that applies.
pub fn month_sheet(text: &[u8], out: &mut [u8]) -> Result<u32, CalendarError>
    ensures { (result ≡ month_sheet_result text.now out.old)
        × (out.new ≡ month_sheet_buffer text.now out.old) }
{
    let request = read_request(text).ok_or(CalendarError::MalformedText)?;
    sheet_of_month(request, out)
}
