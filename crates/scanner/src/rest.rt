// What is left of a script from a place on.
ghost use Rattle.std.specs.Prelude.{◌≡◌, ◌+◌, ◌<◌, ◌≤◌, length, drop, MatchOption};
ghost use Rattle.scanner.specs.Tokens.{span_of};

use raw::{RawKind, RawToken};
use script::Script;

// A place of a script, and the bytes that stand from it on.
#[derive(Clone, Copy)]
pub(crate) struct Rest<'a> {
    pub(crate) script: Script<'a>,
    pub(crate) place: usize,
    pub(crate) bytes: &'a [u8],
    ghost left: { bytes.now ≡ drop place script.bytes.now },
    ghost within: { place ≤ length script.bytes.now },
}

impl<'a> Rest<'a> {
    // None past the end of the script.
    pub(crate) fn at(script: &Script<'a>, place: usize) -> Option<Rest<'a>>
        ensures { MatchOption result (length script.now.bytes.now < place) (λ rest. (rest.script.bytes.now ≡ script.now.bytes.now) × (rest.place ≡ place)) }
    {
        Some(Rest {
            script: *script,
            place,
            bytes: script.bytes().get(place..)?,
        })
    }

    // The token of the kind that has so many bytes.
    pub(crate) fn span(&self, kind: RawKind, len: usize) -> RawToken
        requires { len ≤ length self.now.bytes.now }
        ensures { result ≡ span_of kind self.now.place (self.now.place + len) }
    {
        RawToken {
            kind,
            len: len as u32,
        }
    }
}
