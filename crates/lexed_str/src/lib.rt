// Token columns of a script: offered, tested once, and read.
#![tactic(auto)]

mod error;
mod lexed;
mod offer;
mod read;
mod refusal;

pub use error::LexError;
pub use lexed::LexedStr;
pub use refusal::Refusal;
