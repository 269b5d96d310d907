// Where tokens begin, and the token of one character.
ghost use Rattle.std.specs.Prelude.{◌≡◌};
ghost use Rattle.raw.specs.Answers.{begins, token_answer, character};

use crate::{RawKind, RawToken, Refusal};
use script::Script;

// Whether a token begins at the place: at a character boundary before the end.
pub fn begins(script: &Script<'_>, place: usize) -> bool
    ensures { result ≡ begins script.now.bytes.now place }
{
    place < script.bytes().len() && script.is_boundary(place)
}

impl RawToken {
    // The character at the place, as a token of the kind.
    pub fn character(script: &Script<'_>, place: usize, kind: RawKind) -> Result<RawToken, Refusal>
        ensures { result ≡ token_answer script.now.bytes.now (character script.now.bytes.now kind) place }
    {
        let len = script.char_len(place)?;
        Ok(RawToken {
            kind,
            len: len as u32,
        })
    }
}
