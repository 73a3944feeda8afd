// TSX, as src/markets/canada of the Rust.
pub mod holidays;
