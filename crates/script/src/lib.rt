// Scripts: bytes that are UTF-8 and not too long, their places, and white space.
#![tactic(auto)]

mod places;
mod refusal;
mod script;
mod sequences;

pub use places::{white_end, white_len};
pub use refusal::{NoCharacter, Refusal};
pub use script::Script;
