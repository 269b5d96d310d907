// A token that was recorded.
ghost use Rattle.std.specs.Prelude.{◌≡◌};
ghost use Rattle.tape.specs.Rules.{token_of};

use raw::{RawKind, RawToken};
use records::Keyed;

// The token at a place, and which part of the fault column is its own: from `faults_from` up to `faults_to`.
#[derive(Clone, Copy, Debug, PartialEq, Eq)]
pub struct Mark {
    pub place: u32,
    pub kind: RawKind,
    pub len: u32,
    pub faults_from: u32,
    pub faults_to: u32,
}

impl Keyed for Mark {
    ghost key = { λ mark. mark.place };

    fn key(&self) -> u32 {
        self.place
    }
}

impl Mark {
    // The token that the mark records.
    pub(crate) fn token(self) -> RawToken
        ensures { result ≡ token_of self }
    {
        RawToken {
            kind: self.kind,
            len: self.len,
        }
    }
}
