// Lexing.
ghost use Rattle.std.specs.Prelude.{◌≡◌, ◌<◌, ◌≤◌, length, Ok};
ghost use Rattle.syntax_kind.specs.Editions.{edition_number};
ghost use Rattle.converter.specs.Columns.{over};
ghost use Rattle.converter.specs.Lexes.{Keeps, Only, Readable};
ghost use Rattle.converter.specs.Lexing.{lexed};
ghost use Rattle.converter.specs.Meaning.{means};
ghost use Rattle.converter.specs.Outcome.{outcome, written, kinds_of, starts_of};
ghost use Rattle.converter.specs.Refusals.{refusal};

use crate::convert::Converter;
use crate::refusal::Refusal;
use lexed_str::LexError;
use raw::RawSource;
use syntax_kind::Edition;

// How many tokens there are, the end's entry not counted, and how many errors.
#[derive(Clone, Copy, Debug, PartialEq, Eq)]
pub struct Counts {
    pub tokens: usize,
    pub errors: usize,
}

// Cuts the source's script into tokens, and writes their kinds, starts and errors over the fronts of the columns. The
// edition is asked by its number, and refused where there is none.
pub fn lex<S: RawSource>(
    source: &S,
    edition: u8,
    kinds: &mut [u16],
    starts: &mut [u32],
    errors: &mut [LexError],
) -> Result<Counts, Refusal>
    ensures answer { result ≡ outcome (refusal edition (length (S.RawSource.script source.now)) (length kinds.old) (length starts.old) (length errors.old)) (lexed (means S.RawSource source.now) edition) }
    ensures kinds { kinds.new ≡ written (refusal edition (length (S.RawSource.script source.now)) (length kinds.old) (length starts.old) (length errors.old)) (kinds_of (lexed (means S.RawSource source.now) edition)) kinds.old }
    ensures starts { starts.new ≡ written (refusal edition (length (S.RawSource.script source.now)) (length kinds.old) (length starts.old) (length errors.old)) (starts_of (lexed (means S.RawSource source.now) edition)) starts.old }
    ensures errors { errors.new ≡ written (refusal edition (length (S.RawSource.script source.now)) (length kinds.old) (length starts.old) (length errors.old)) (lexed (means S.RawSource source.now) edition).errors errors.old }
    ensures law { Keeps (means S.RawSource source.now) edition result kinds.new starts.new errors.new }
    ensures only { Only (means S.RawSource source.now) edition result kinds.new starts.new errors.new }
    ensures readable { Readable (means S.RawSource source.now) result kinds.new starts.new errors.new }
{
    let edition = Edition::try_from(edition)?;
    // Each byte may need a token and an error, and the end an entry.
    let len = source.script().bytes().len();
    if kinds.len() <= len || starts.len() <= len || errors.len() < len {
        return Err(Refusal::Columns);
    }
    let mut converter = Converter::new(source, edition, kinds, starts, errors);
    converter.extend_head();
    converter.extend_all();
    Ok(converter.finish())
}
