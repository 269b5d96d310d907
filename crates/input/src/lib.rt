// The parser's input: the tokens other than trivia, in columns that the caller lends.
#![tactic(auto)]

mod ask;
mod build;
mod columns;
mod marks;
mod push;
mod refusal;
mod token;

pub use build::to_input;
pub use columns::Input;
pub use refusal::Refusal;
