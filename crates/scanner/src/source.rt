// What a scanner answers.
ghost use Rattle.std.specs.Prelude.{[]};
ghost use Rattle.scanner.specs.Tokens.{token_at};
ghost use Rattle.scanner.specs.ScannerLaws.{scanner_laws};

use crate::Scanner;
use crate::rest::Rest;
use raw::{EscapeError, RawSource, RawToken, Refusal, begins};
use script::Script;

impl<'a> RawSource for Scanner<'a> {
    ghost script = { λ s. s.script.bytes.now };

    ghost token = { λ s. token_at s.script.bytes.now };

    ghost faults = { λ s p. [] };

    ghost shebang = { λ s. 0 };

    ghost laws = { scanner_laws };

    fn script(&self) -> Script<'_> {
        self.script
    }

    fn token_at(&self, place: usize) -> Result<RawToken, Refusal> {
        Rest::at(&self.script, place)
            .ok_or(Refusal::NoToken)?
            .token()
    }

    // No token has a fault.
    fn fault_at(&self, place: usize, _number: usize) -> Result<EscapeError, Refusal> {
        if !begins(&self.script, place) {
            return Err(Refusal::NoToken);
        }
        Err(Refusal::NoFault)
    }

    fn shebang_len(&self) -> usize {
        0
    }
}
