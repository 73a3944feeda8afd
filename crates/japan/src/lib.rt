// TSE, as src/markets/japan of the Rust.
#![tactic(auto)]

pub mod holidays;
