// Easter by the Anonymous Gregorian algorithm, Good Friday and Easter Monday: docs/SCOPE.md [easter], [good-friday],
// [easter-monday].
ghost use Rattle.std.specs.Prelude.{◌≡◌, ◌+◌, ◌≤◌};
ghost use Rattle.gregorian.specs.Calendar.{last_year, day_number};
ghost use Rattle.utils.specs.Easter.{moon_days, easter, calculate_easter, calculate_good_friday, calculate_easter_monday};

// The days of March on which Easter and the two days beside it are at the earliest.
pub const EARLIEST_GOOD_FRIDAY: u32 = 20;

pub const EARLIEST_EASTER: u32 = 22;

pub const EARLIEST_EASTER_MONDAY: u32 = 23;

// h of the algorithm, from its a and b.
fn moon_days(a: u32, b: u32) -> u32
    requires { (a ≤ 18) × (b ≤ 99) }
    ensures { (result ≡ moon_days a b) × (result ≤ 29) }
{
    let d = b / 4;
    let f = (b + 8) / 25;
    let g = (b - f + 1) / 3;
    (19 * a + b - d - g + 15) % 30
}

// How many days Easter Sunday is after 22 March: the month and the day that the algorithm makes of h + l - 7 * m are those of the
// day so many days later.
pub fn easter_days(year: u32) -> u32
    requires { (1 ≤ year) × (year ≤ last_year) }
    ensures { (easter year ≡ day_number year 3 22 + result) × (result ≤ 34) }
{
    let a = year % 19;
    let b = year / 100;
    let c = year % 100;
    let e = b % 4;
    let h = moon_days(a, b);
    let i = c / 4;
    let k = c % 4;
    let l = (32 + 2 * e + 2 * i - h - k) % 7;
    let m = (a + 11 * h + 22 * l) / 451;
    h + l - 7 * m
}

pub fn calculate_easter(year: u32) -> Option<u32>
    ensures { result ≡ calculate_easter year }
{
    if year < 1 {
        return None;
    }
    if gregorian::LAST_YEAR < year {
        return None;
    }
    let easter = gregorian::day_number(year, 3, EARLIEST_EASTER) + easter_days(year);
    Some(easter)
}

#[tactic(auto, unfolding(crate::specs::Easter::calculate_good_friday))]
pub fn calculate_good_friday(year: u32) -> Option<u32>
    ensures { result ≡ calculate_good_friday year }
{
    let easter = calculate_easter(year)?;
    Some(easter - 2)
}

#[tactic(auto, unfolding(crate::specs::Easter::calculate_easter_monday))]
pub fn calculate_easter_monday(year: u32) -> Option<u32>
    ensures { result ≡ calculate_easter_monday year }
{
    let easter = calculate_easter(year)?;
    Some(easter + 1)
}
