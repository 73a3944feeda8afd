// Decimal numbers, and lists of them.
ghost use Rattle.std.specs.Prelude.{◌≡◌, ◌<◌, ◌≤◌, length};
ghost use Rattle.replay.specs.Numbers.{appended};

use arrayvec::ArrayVec;

// How many numbers a list holds at most. A row with more on one side of its `=` is malformed.
pub const CAPACITY: usize = 128;

pub type Numbers = ArrayVec<u32, CAPACITY>;

// The list, which a row can hold.
pub fn numbers(list: &[u32]) -> Numbers
    requires { length list.now ≤ CAPACITY }
    ensures { result.items ≡ list.now }
{
    Numbers::try_from(list).unwrap()
}

// What a number is with one decimal digit more at its end, where 32 bits hold it.
pub fn append_digit(value: u32, digit: u8) -> Option<u32>
    requires { digit < 10 }
    ensures { result ≡ appended value digit }
{
    value.checked_mul(10)?.checked_add(u32::from(digit))
}
