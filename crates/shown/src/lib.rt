//! Optional values in printed text.
#![tactic(auto)]

mod optional;

pub use optional::{After, Or};
