//! Lexing: cuts a script into tokens, in columns that the caller lends.
#![tactic(auto)]

mod complaint;
mod convert;
mod cut;
mod extend;
mod faults;
mod head;
mod hint;
mod kind;
mod lexing;
mod message;
mod messages;
mod progress;
mod refusal;
mod said;
mod single;

pub use lexing::{Counts, lex};
pub use message::{Message, UnknownMessage};
pub use refusal::Refusal;
pub use single::single_token;
