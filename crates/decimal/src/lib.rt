// Numbers in decimal, as ASCII bytes.
#![tactic(auto)]

ghost use Rattle.std.specs.Prelude.{◌≡◌, ◌≤◌, length};
ghost use Rattle.buffers.specs.Buffers.{overwrite};
ghost use Rattle.decimal.specs.Decimal.{decimal, leading_digits, value_of};

// How many digits the number has. It recurses as the printer below does, which is plainer here than a loop that divides.
pub fn digits(value: u32) -> usize
    ensures { (result ≡ length (decimal value)) × (result ≤ 10) }
{
    if value >= 10 {
        digits(value / 10) + 1
    } else {
        1
    }
}

// [sheet-numbers]: writes the number to the start of the buffer, and answers how many digits it has. The digits of a tenth of it
// come first, and then the last one. It recurses as docs/SCOPE.md [forms] asks of the printer.
#[tactic(auto, using(crate::proofs::DecimalLaws::written))]
pub fn write(value: u32, out: &mut [u8]) -> usize
    requires { length (decimal value) ≤ length out.old }
    ensures { (result ≡ length (decimal value)) × (out.new ≡ overwrite (decimal value) out.old) }
{
    if value < 10 {
        out[0] = b'0' + value as u8;
        1
    } else {
        let n = write(value / 10, out);
        out[n] = b'0' + (value % 10) as u8;
        n + 1
    }
}

// How many digits the text starts with.
#[tactic(auto, unfolding(crate::specs::Decimal::leading_digits))]
pub fn leading_digits(text: &[u8]) -> usize
    ensures { result ≡ leading_digits text.now }
{
    text.iter().take_while(|byte| byte.is_ascii_digit()).count()
}

// The value of at most nine digits.
pub fn value(digits: &[u8]) -> u32
    requires { (leading_digits digits.now ≡ length digits.now) × (length digits.now ≤ 9) }
    ensures { result ≡ value_of digits.now }
{
    let mut value = 0;
    for byte in digits {
        value = value * 10 + u32::from(*byte - b'0');
    }
    value
}
