// The writer of the sheet [sheet-output]. All functions answer how many bytes they wrote.
ghost use Rattle.std.specs.Prelude.{◌≡◌, [], ◌∷◌, ◌++◌, ◌≤◌, ◌<◌, length};
ghost use Rattle.buffers.specs.Buffers.{overwrite};
ghost use Rattle.decimal.specs.Decimal.{decimal};
ghost use Rattle.request.specs.Text.{ascii};
ghost use Rattle.sheet_lines.specs.Sheet.{comma_separated};
ghost use Rattle.sheet_lines.specs.Inner.{sheet_line, sheet_from};

use crate::Sheet;

// A number, and the byte that ends it.
fn write_number(number: u32, end: u8, out: &mut [u8]) -> usize
    requires { length (decimal number ++ (end ∷ [])) ≤ length out.old }
    ensures { (result ≡ length (decimal number ++ (end ∷ [])))
        × (out.new ≡ overwrite (decimal number ++ (end ∷ [])) out.old) }
{
    let n = decimal::write(number, out);
    out[n] = end;
    n + 1
}

// A line: its name, a number and a line feed.
pub fn write_line(name: &[u8], number: u32, out: &mut [u8]) -> usize
    requires { length (name.now ++ (decimal number ++ ascii "\n")) ≤ length out.old }
    ensures { (result ≡ length (name.now ++ (decimal number ++ ascii "\n")))
        × (out.new ≡ overwrite (name.now ++ (decimal number ++ ascii "\n")) out.old) }
{
    let n = buffers::write(name, out);
    n + write_number(number, b'\n', &mut out[n..])
}

// The numbers with commas between, and a line feed. After each number what is left of the buffer is lent on for the others.
fn write_numbers(numbers: &[u8], out: &mut [u8]) -> usize
    requires { length (comma_separated numbers.now ++ ascii "\n") ≤ length out.old }
    ensures { (result ≡ length (comma_separated numbers.now ++ ascii "\n"))
        × (out.new ≡ overwrite (comma_separated numbers.now ++ ascii "\n") out.old) }
{
    match numbers {
        [] => buffers::write(b"\n", out),
        [last] => write_number(u32::from(*last), b'\n', out),
        [first, others @ ..] => {
            let n = write_number(u32::from(*first), b',', out);
            n + write_numbers(others, &mut out[n..])
        }
    }
}

// The last line.
fn write_days(days: &[u8], out: &mut [u8]) -> usize
    requires { length (ascii "days=" ++ (comma_separated days.now ++ ascii "\n")) ≤ length out.old }
    ensures { (result ≡ length (ascii "days=" ++ (comma_separated days.now ++ ascii "\n")))
        × (out.new ≡ overwrite (ascii "days=" ++ (comma_separated days.now ++ ascii "\n")) out.old) }
{
    let n = buffers::write(b"days=", out);
    n + write_numbers(days, &mut out[n..])
}

// One of the first four lines, by its number.
fn write_field(line: u32, sheet: &Sheet, out: &mut [u8]) -> usize
    requires { (line < 4) × (length (sheet_line line sheet.now) ≤ length out.old) }
    ensures { (result ≡ length (sheet_line line sheet.now)) × (out.new ≡ overwrite (sheet_line line sheet.now) out.old) }
{
    match line {
        0 => write_line(b"market=", sheet.request.market, out),
        1 => write_line(b"year=", sheet.request.year, out),
        2 => write_line(b"month=", sheet.request.month, out),
        _ => write_line(b"count=", sheet.days.len() as u32, out),
    }
}

// [sheet-output]: the lines from this number on, of which the first has number 0. What is left of the buffer after a line is lent on for
// the next. By a number, as docs/CLAUSES.md [forms] names this function, which promises the text from each line on.
pub fn write_lines(line: u32, sheet: &Sheet, out: &mut [u8]) -> usize
    requires { (line ≤ 4) × (length (sheet_from line sheet.now) ≤ length out.old) }
    ensures { (result ≡ length (sheet_from line sheet.now)) × (out.new ≡ overwrite (sheet_from line sheet.now) out.old) }
{
    if line == 4 {
        return write_days(sheet.days, out);
    }
    let n = write_field(line, sheet, out);
    n + write_lines(line + 1, sheet, &mut out[n..])
}
