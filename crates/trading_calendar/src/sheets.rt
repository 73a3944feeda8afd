// The call for a month sheet.
ghost use Rattle.std.specs.Prelude.{◌≡◌};
ghost use Rattle.sheet.specs.SheetCall.{month_sheet_result, month_sheet_buffer};
ghost use Rattle.answers.specs.Answers.{count_answer};

use answers::counts::CountAnswer;

// [sheet-output], [sheet-return]: how many bytes of the sheet were written to the buffer, or the first of errors 10, 8, 1, 2 and 9 that
// applies, with which nothing is written [error-writes-nothing].
pub fn tc_month_sheet(text: &[u8], out: &mut [u8]) -> CountAnswer
    ensures { (result ≡ count_answer (month_sheet_result text.now out.old))
        × (out.new ≡ month_sheet_buffer text.now out.old) }
{
    CountAnswer::from(sheet::month_sheet(text, out))
}
