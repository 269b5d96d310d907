// The editions of Rust, and which texts are keywords in each.
ghost use Rattle.std.specs.Prelude.{◌≡◌, ℕ, Some, None, Ok};
ghost use Rattle.syntax_kind.specs.Editions.{edition_number, Decodes, unknown_text};
ghost use Rattle.syntax_kind.specs.Keywords.{Answer, look_up, strict, contextual};
ghost use Rattle.syntax_kind.specs.Named.{Named};

use crate::Refusal;
use crate::keywords::look_up;
use crate::tables::{CONTEXTUAL, STRICT};
use std::error::Error;
use std::fmt;

/// An edition of Rust, of those that there are, in their order.
#[derive(Clone, Copy, Debug, PartialEq, Eq, PartialOrd, Ord)]
pub enum Edition {
    Edition2015,
    Edition2018,
    Edition2021,
    Edition2024,
}

impl Edition {
    /// The number that the edition is asked by.
    pub fn number(self) -> u8
        ensures { result ≡ edition_number self }
    {
        match self {
            Edition::Edition2015 => 0,
            Edition::Edition2018 => 1,
            Edition::Edition2021 => 2,
            Edition::Edition2024 => 3,
        }
    }

    /// The kind of the strict keyword that `ident` is in this edition, if it is one.
    pub fn keyword(self, ident: &[u8]) -> Option<u16>
        ensures value { result ≡ look_up strict ident.now (edition_number self) }
        ensures named { Named strict ident.now (edition_number self) (Ok result) }
        ensures only { (a : Answer) → Named strict ident.now (edition_number self) a → a ≡ Ok result }
    {
        look_up(&STRICT, ident, self)
    }

    /// The kind of the contextual keyword that `ident` is in this edition, if it is one.
    pub fn contextual_keyword(self, ident: &[u8]) -> Option<u16>
        ensures value { result ≡ look_up contextual ident.now (edition_number self) }
        ensures named { Named contextual ident.now (edition_number self) (Ok result) }
        ensures only { (a : Answer) → Named contextual ident.now (edition_number self) a → a ≡ Ok result }
        ensures apart { (kind : ℕ) → result ≡ Some kind → look_up strict ident.now (edition_number self) ≡ None }
    {
        look_up(&CONTEXTUAL, ident, self)
    }
}

/// A number that no edition has.
#[derive(Clone, Copy, Debug, PartialEq, Eq)]
pub struct UnknownEdition(pub u8);

impl TryFrom<u8> for Edition {
    type Error = UnknownEdition;

    ghost try_from_gives = { Decodes };

    fn try_from(number: u8) -> Result<Edition, UnknownEdition> {
        match number {
            0 => Ok(Edition::Edition2015),
            1 => Ok(Edition::Edition2018),
            2 => Ok(Edition::Edition2021),
            3 => Ok(Edition::Edition2024),
            _ => Err(UnknownEdition(number)),
        }
    }
}

impl fmt::Display for UnknownEdition {
    ghost output = { λ e. Some (unknown_text e.0) };

    fn fmt<W: fmt::Write>(&self, f: &mut fmt::Formatter<W>) -> fmt::Result {
        write!(f, "no edition has the number {}", self.0)
    }
}

impl Error for UnknownEdition {}

impl From<UnknownEdition> for Refusal {
    ghost use Rattle.syntax_kind.specs.declared.Refusal.TheVariants as refusal;

    ghost from_gives = { λ _ r. r ≡ refusal.Edition };

    fn from(_unknown: UnknownEdition) -> Refusal {
        Refusal::Edition
    }
}
