//! Tapes: a raw lexer's answers for one script, recorded beforehand.
#![tactic(auto)]

mod mark;
mod recording;
mod refusal;
mod rules;
mod source;
mod tape;

pub use mark::Mark;
pub use refusal::Refusal;
pub use tape::Tape;
