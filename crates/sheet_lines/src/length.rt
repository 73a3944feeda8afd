// How many bytes the sheet has, which is known before one is written.
ghost use Rattle.std.specs.Prelude.{◌≡◌, ◌++◌, ◌+◌, ◌*◌, ◌≤◌, length};
ghost use Rattle.request.specs.Text.{ascii};
ghost use Rattle.sheet_lines.specs.Sheet.{comma_separated};
ghost use Rattle.sheet_lines.specs.Inner.{text};

use crate::Sheet;

// The names of the five lines, and the line feeds of the first four.
const NAMES_AND_LINE_FEEDS: usize = 33;

// The numbers with commas between, and a line feed: a byte after each number, and without one the line feed.
fn numbers_length(numbers: &[u8]) -> usize
    requires { length numbers.now ≤ 31 }
    ensures { (result ≡ length (comma_separated numbers.now ++ ascii "\n")) × (result ≤ 11 * length numbers.now + 1) }
{
    let mut n = 0;
    for number in numbers {
        n += decimal::digits(u32::from(*number)) + 1;
    }
    n.max(1)
}

// All five lines.
pub fn sheet_length(sheet: &Sheet) -> usize
    ensures { (result ≡ length (text sheet.now)) × (result ≤ 415) }
{
    let request = sheet.request;
    let first = decimal::digits(request.market)
        + decimal::digits(request.year)
        + decimal::digits(request.month);
    let count = decimal::digits(sheet.days.len() as u32);
    NAMES_AND_LINE_FEEDS + first + count + numbers_length(sheet.days)
}
