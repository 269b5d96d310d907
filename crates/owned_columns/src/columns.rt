// Token columns of their own, for one script.
ghost use Rattle.std.specs.Prelude.{◌≡◌, ◌+◌, ◌<◌, ◌≤◌, length, Ok, IfOk, vec_len};
ghost use Rattle.script.specs.Admission.{most};
ghost use Rattle.syntax_kind.specs.Editions.{edition_number};
ghost use Rattle.lexed_str.specs.Columns.{Columns};
ghost use Rattle.converter.specs.Lexes.{Keeps, Readable};
ghost use Rattle.converter.specs.Meaning.{means};
ghost use Rattle.owned_columns.specs.Holds.{Holds};

use converter::{Counts, lex};
use lexed_str::{LexError, LexedStr};
use raw::RawSource;
use script::Script;
use std::alloc::{AllocError, Global};
use syntax_kind::Edition;

#[derive(Drop)]
pub struct OwnedColumns<'a> {
    script: Script<'a>,
    kinds: Vec<u16>,
    starts: Vec<u32>,
    errors: Vec<LexError>,
    ghost fits: { Columns script.bytes.now kinds.items starts.items errors.items },
}

impl<'a> OwnedColumns<'a> {
    /// The columns of the source's script in the edition.
    pub fn lex<S: RawSource>(
        heap: Global,
        source: &'a S,
        edition: Edition,
    ) -> Result<OwnedColumns<'a>, AllocError>
        ensures script { IfOk result (λ c. c.script.bytes.now ≡ S.RawSource.script source.now) }
        ensures holds { IfOk result (λ c. Holds (means S.RawSource source.now) (edition_number edition) c.kinds.items c.starts.items c.errors.items) }
    {
        let script = source.script();
        let len = script.bytes().len();
        let mut kinds = vec![in heap; 0u16; len + 1]?;
        let mut starts = vec![in heap; 0u32; len + 1]?;
        let mut errors = vec![in heap; LexError { token: 0, code: 0 }; len]?;
        let counts = fill(
            source,
            edition,
            kinds.as_mut_slice(),
            starts.as_mut_slice(),
            errors.as_mut_slice(),
        );
        kinds.truncate(counts.tokens + 1);
        starts.truncate(counts.tokens + 1);
        errors.truncate(counts.errors);
        Ok(OwnedColumns {
            script,
            kinds,
            starts,
            errors,
        })
    }

    /// The columns, to be read.
    pub fn read(&self) -> LexedStr<'_>
        ensures script { result.script.bytes.now ≡ self.now.script.bytes.now }
        ensures kinds { result.kinds.now ≡ self.now.kinds.items }
        ensures starts { result.starts.now ≡ self.now.starts.items }
        ensures errors { result.errors.now ≡ self.now.errors.items }
    {
        let Ok(lexed) = LexedStr::of_script(
            self.script,
            self.kinds.as_slice(),
            self.starts.as_slice(),
            self.errors.as_slice(),
        ) else {
            unreachable()
        };
        lexed
    }
}

// Lexes the script into columns that have room for any script of its length.
fn fill<S: RawSource>(
    source: &S,
    edition: Edition,
    kinds: &mut [u16],
    starts: &mut [u32],
    errors: &mut [LexError],
) -> Counts
    requires { (length (S.RawSource.script source.now) < length kinds.old) × (length (S.RawSource.script source.now) < length starts.old) × (length (S.RawSource.script source.now) ≤ length errors.old) }
    ensures law { Keeps (means S.RawSource source.now) (edition_number edition) (Ok result) kinds.new starts.new errors.new }
    ensures fit { Readable (means S.RawSource source.now) (Ok result) kinds.new starts.new errors.new }
{
    let Ok(counts) = lex(source, edition.number(), kinds, starts, errors) else {
        unreachable()
    };
    counts
}
