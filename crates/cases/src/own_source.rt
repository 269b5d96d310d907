// A raw source that no other crate knows of: each character is a token of no known kind.
ghost use Rattle.std.specs.Prelude.{[]};
ghost use Rattle.raw.specs.Answers.{character};
ghost use Rattle.raw.specs.declared.kinds.RawKind.TheVariants.{Unknown};
ghost use Rattle.cases.specs.OwnSource.{characters_laws};

use raw::{EscapeError, RawKind, RawSource, RawToken, Refusal, begins};
use script::Script;

#[derive(Clone, Copy)]
pub struct Characters<'a> {
    pub script: Script<'a>,
}

impl<'a> RawSource for Characters<'a> {
    ghost script = { λ s. s.script.bytes.now };

    ghost token = { λ s. character s.script.bytes.now Unknown };

    ghost faults = { λ s p. [] };

    ghost shebang = { λ s. 0 };

    ghost laws = { characters_laws };

    fn script(&self) -> Script<'_> {
        self.script
    }

    fn token_at(&self, place: usize) -> Result<RawToken, Refusal> {
        RawToken::character(&self.script, place, RawKind::Unknown)
    }

    fn fault_at(&self, place: usize, _number: usize) -> Result<EscapeError, Refusal> {
        if !begins(&self.script, place) {
            return Err(Refusal::NoToken);
        }
        Err(Refusal::NoFault)
    }

    fn shebang_len(&self) -> usize {
        0
    }
}
