//! The kinds of tokens and nodes of Rust's syntax, as numbers, and the keywords of each edition.
#![tactic(auto)]

ghost use Rattle.std.specs.Prelude.{◌≡◌, Some};
ghost use Rattle.syntax_kind.specs.Refusals.{refusal_number, refusal_text};
ghost use Rattle.syntax_kind.specs.Trivia.{trivia_answer};

mod editions;
mod keywords;
pub mod kinds;
mod tables;

pub use editions::{Edition, UnknownEdition};
pub use keywords::{from_contextual_keyword, from_keyword};
use std::error::Error;
use std::fmt;

/// Why a call refuses to answer.
#[derive(Clone, Copy, Debug, PartialEq, Eq)]
pub enum Refusal {
    /// The edition is past that of `Edition::Edition2024`.
    Edition,
    /// The kind is past `kinds::__LAST`.
    Kind,
}

impl Refusal {
    /// The number that the refusal is reported by.
    pub fn number(self) -> u8
        ensures { result ≡ refusal_number self }
    {
        match self {
            Refusal::Edition => 3,
            Refusal::Kind => 4,
        }
    }
}

impl fmt::Display for Refusal {
    ghost output = { λ why. Some (refusal_text why) };

    fn fmt<W: fmt::Write>(&self, f: &mut fmt::Formatter<W>) -> fmt::Result {
        f.write_str(match self {
            Refusal::Edition => "the edition is past the last one",
            Refusal::Kind => "the kind is past the last one",
        })
    }
}

impl Error for Refusal {}

/// Whether the parser passes over tokens of this kind. Doc comments are tokens of their own, and no trivia.
pub fn is_trivia(kind: u16) -> Result<bool, Refusal>
    ensures { result ≡ trivia_answer kind }
{
    if kind > kinds::__LAST {
        return Err(Refusal::Kind);
    }
    Ok(matches!(kind, kinds::WHITESPACE | kinds::COMMENT))
}
