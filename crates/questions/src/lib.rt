//! The parts of recorded questions: lines, words, decimal numbers and bytes in hexadecimal.
#![tactic(auto)]

mod hex;
mod numbers;
mod refused;
mod text;
mod words;

pub use hex::decode;
pub use numbers::decimal;
pub use refused::Refused;
pub use text::Lines;
pub use words::split_once;
