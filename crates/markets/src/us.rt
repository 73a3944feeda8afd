// NYSE and NASDAQ, as src/markets/us of the Rust.
pub mod holidays;
