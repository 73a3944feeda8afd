// The seconds of each market, as src/constants.rs of the Rust has them: docs/SCOPE.md [hours]. Each number belongs to the type of
// its market [forms]. No trait of markets: each of its impls would write a number twice, as a constant and for the clauses.

#[derive(Clone, Copy)]
pub struct USMarket;

impl USMarket {
    pub const REGULAR_OPEN: u32 = 34200;

    pub const REGULAR_CLOSE: u32 = 57600;

    pub const PREMARKET_OPEN: u32 = 14400;

    pub const AFTERHOURS_CLOSE: u32 = 72000;

    pub const EARLY_CLOSE: u32 = 46800;
}

#[derive(Clone, Copy)]
pub struct LSEMarket;

impl LSEMarket {
    pub const REGULAR_OPEN: u32 = 28800;

    pub const REGULAR_CLOSE: u32 = 59400;
}

#[derive(Clone, Copy)]
pub struct TSEMarket;

impl TSEMarket {
    pub const REGULAR_OPEN: u32 = 32400;

    pub const REGULAR_CLOSE: u32 = 54000;
}

#[derive(Clone, Copy)]
pub struct TSXMarket;

impl TSXMarket {
    pub const REGULAR_OPEN: u32 = 34200;

    pub const REGULAR_CLOSE: u32 = 57600;
}
