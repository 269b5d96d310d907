//! What a raw lexer says of one script: a raw kind, a length and the escape faults at each character boundary.
#![tactic(auto)]

ghost use Rattle.std.specs.Prelude.{◌≡◌, ℕ, List};
ghost use Rattle.raw.specs.Answers.{number, token_answer, fault_answer, refusal_text};
ghost use Rattle.raw.specs.Laws.{Laws};
ghost use Rattle.raw.specs.declared.kinds.RawToken.{RawToken};
ghost use Rattle.raw.specs.declared.kinds.EscapeError.{EscapeError};

use script::{NoCharacter, Script};
use std::error::Error;
use std::fmt;

mod character;
mod kinds;

pub use character::begins;
pub use kinds::{DocStyle, EscapeError, LiteralKind, RawKind, RawToken};

// Why a source has no answer.
#[derive(Clone, Copy, Debug, PartialEq, Eq)]
pub enum Refusal {
    // No character begins at the place.
    NoToken,
    // The token has no fault of that number.
    NoFault,
}

impl Refusal {
    // The number by which the refusal is known outside.
    pub fn number(self) -> u8
        ensures { result ≡ number self }
    {
        match self {
            Refusal::NoToken | Refusal::NoFault => 21,
        }
    }
}

impl fmt::Display for Refusal {
    ghost use Rattle.std.specs.Prelude.{Some};

    ghost output = { λ why. Some (refusal_text why) };

    fn fmt<W: fmt::Write>(&self, f: &mut fmt::Formatter<W>) -> fmt::Result {
        f.write_str(match self {
            Refusal::NoToken => "no token begins there",
            Refusal::NoFault => "the token has no fault of that number",
        })
    }
}

impl Error for Refusal {}

// For `?`.
impl From<NoCharacter> for Refusal {
    ghost use Rattle.raw.specs.declared.Refusal.TheVariants.{NoToken};

    ghost from_gives = { λ _ why. why ≡ NoToken };

    fn from(_none: NoCharacter) -> Refusal {
        Refusal::NoToken
    }
}

// A raw lexer and the unescaping, over one script.
pub trait RawSource {
    ghost script: { Self → List ℕ };

    // The raw token at each character boundary before the end.
    ghost token: { Self → ℕ → RawToken };

    // The escape faults of the token there, in order.
    ghost faults: { Self → ℕ → List EscapeError };

    // The length of the shebang line that a raw lexer strips; 0 where there is none.
    ghost shebang: { Self → ℕ };

    fn script(&self) -> Script<'_>
        ensures { result.bytes.now ≡ script self.now };

    fn token_at(&self, place: usize) -> Result<RawToken, Refusal>
        ensures { result ≡ token_answer (script self.now) (token self.now) place };

    // The fault with the given number, from 0, of the token at the place.
    fn fault_at(&self, place: usize, number: usize) -> Result<EscapeError, Refusal>
        ensures { result ≡ fault_answer (script self.now) (faults self.now) place number };

    fn shebang_len(&self) -> usize
        ensures { result ≡ shebang self.now };

    // What every source owes: each `impl` gives a proof that it keeps it.
    ghost laws: { Laws script token faults shebang };
}
