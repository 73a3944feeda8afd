// Signed numbers, taken apart by their sign: past that a proof stays with numbers from 0 on.
#![tactic(auto)]

ghost use Rattle.std.specs.Prelude.{◌≡◌};
ghost use Rattle.signed.specs.Inner.{integer};

// Negative(k) is -(k + 1), as `negsuc k` is.
#[derive(Clone, Copy)]
pub enum Signed {
    NotNegative(u32),
    Negative(u32),
}

impl From<i32> for Signed {
    ghost from_gives = { λ n signed. integer signed ≡ n };

    // -1 - n has no overflow, where -n has one at -2^31.
    fn from(n: i32) -> Self {
        if n < 0 {
            let k = -1 - n;
            Signed::Negative(k as u32)
        } else {
            Signed::NotNegative(n as u32)
        }
    }
}
