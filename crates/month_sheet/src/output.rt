// What is printed.
ghost use Rattle.std.specs.Prelude.{◌≡◌, List, ℕ, ◌≤◌, length, take};
ghost use Rattle.buffers.specs.Buffers.{overwrite};
ghost use Rattle.month_sheet.specs.Printed.{printed, ReadOf};

use crate::input::INPUT_LENGTH;
use sheet_lines::write_line;
use trading_calendar::sheets::tc_month_sheet;

// So many bytes are proved to be enough for every sheet; the longest has 104.
pub const OUTPUT_LENGTH: usize = 136;

// [sheet-program]: writes what is printed for the text to the start of the buffer, and answers how many bytes that is. With an error the
// call has written nothing. A number and no slice, since the clause speaks of the whole buffer, which a slice would still borrow;
// the error is a number, as the struct is C's, and the count a `usize` by `as`, which `From` does not make.
fn of_text(text: &[u8], out: &mut [u8; OUTPUT_LENGTH]) -> usize
    ensures { (result ≡ length (printed text.now))
        × (out.new ≡ overwrite (printed text.now) out.old) }
{
    let answer = tc_month_sheet(text, out);
    if answer.error == 0 {
        return answer.count as usize;
    }
    write_line(b"refused=", answer.error, out)
}

// The same for an input of which the first n bytes of the buffer were read. They are printed as the whole input would be.
pub fn of_input(buffer: &[u8; INPUT_LENGTH], n: usize, out: &mut [u8; OUTPUT_LENGTH]) -> usize
    requires { n ≤ length buffer.now }
    ensures by_index { (input : List ℕ) → ReadOf input buffer.now n
        → (result ≡ length (printed input)) × (out.new ≡ overwrite (printed input) out.old) }
    ensures prefix_len { (result ≤ length out.new) × (result ≡ length (take result out.new)) }
{
    of_text(&buffer[..n], out)
}
