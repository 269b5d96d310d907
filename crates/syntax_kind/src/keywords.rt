// Keywords by their text. The calls take an edition by its number, as callers have it, and refuse one that there is not.
ghost use Rattle.std.specs.Prelude.{◌≡◌, ℕ, Some, None, Ok};
ghost use Rattle.syntax_kind.specs.Editions.{edition_number};
ghost use Rattle.syntax_kind.specs.Keywords.{Answer, look_up, strict, contextual, keyword_answer, contextual_answer};
ghost use Rattle.syntax_kind.specs.Named.{Named};
ghost use Rattle.syntax_kind.specs.Tables.{entries_of};

use crate::tables::Keyword;
use crate::{Edition, Refusal};

/// The kind of the strict keyword that `ident` is in the edition, if it is one.
pub fn from_keyword(ident: &[u8], edition: u8) -> Result<Option<u16>, Refusal>
    ensures value { result ≡ keyword_answer ident.now edition }
    ensures named { Named strict ident.now edition result }
    ensures only { (a : Answer) → Named strict ident.now edition a → a ≡ result }
{
    let edition = Edition::try_from(edition)?;
    Ok(edition.keyword(ident))
}

/// The kind of the contextual keyword that `ident` is in the edition, if it is one.
pub fn from_contextual_keyword(ident: &[u8], edition: u8) -> Result<Option<u16>, Refusal>
    ensures value { result ≡ contextual_answer ident.now edition }
    ensures named { Named contextual ident.now edition result }
    ensures only { (a : Answer) → Named contextual ident.now edition a → a ≡ result }
    ensures apart { (kind : ℕ) → result ≡ Ok (Some kind) → keyword_answer ident.now edition ≡ Ok None }
{
    let edition = Edition::try_from(edition)?;
    Ok(edition.contextual_keyword(ident))
}

// The kind of the first keyword of the table that has this text in this edition.
pub fn look_up(table: &[Keyword], ident: &[u8], edition: Edition) -> Option<u16>
    ensures { result ≡ look_up (entries_of table.now) ident.now (edition_number edition) }
{
    table
        .iter()
        .find(|k| k.is_named(ident, edition))
        .map(|Keyword(_, kind, _)| *kind)
}
