// The years that are answered, and the days at which a search for a neighbour ends.
ghost use Rattle.std.specs.Prelude.{◌≡◌};
ghost use Rattle.markets.specs.Years.{is_supported, first_day_of, last_day_of};

use gregorian::{FIRST_DAY, LAST_DAY};

pub const MIN_YEAR: u32 = 2020;

pub const MAX_YEAR: u32 = 2030;

// [year-check]
pub fn is_supported(year: u32) -> bool
    ensures { result ≡ is_supported year }
{
    MIN_YEAR <= year && year <= MAX_YEAR
}

// [previous]: the first day that a search looks at.
pub fn first_day_of(market: u32) -> u32
    ensures { result ≡ first_day_of market }
{
    FIRST_DAY
}

// [next]: the last day that a search looks at.
pub fn last_day_of(market: u32) -> u32
    ensures { result ≡ last_day_of market }
{
    LAST_DAY
}
