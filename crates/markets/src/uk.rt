// LSE, as src/markets/uk of the Rust.
pub mod holidays;
