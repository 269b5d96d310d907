// Why bytes are no script, and why a place has no character.
ghost use Rattle.std.specs.Prelude.{◌≡◌, codes, Some};
ghost use Rattle.script.specs.Admission.{number, value, refusal_text};

use std::error::Error;
use std::fmt;

#[derive(Clone, Copy, Debug, PartialEq, Eq)]
pub enum Refusal {
    // More than 4294967295 bytes.
    TooLong,
    // The first ill-formed byte stands at `at`.
    NotUtf8 { at: usize },
}

impl Refusal {
    // The number by which the refusal is known outside.
    pub fn number(self) -> u8
        ensures { result ≡ number self }
    {
        match self {
            Refusal::TooLong => 1,
            Refusal::NotUtf8 { .. } => 2,
        }
    }

    // The place that goes with the number, if one does.
    pub fn value(self) -> Option<usize>
        ensures { result ≡ value self }
    {
        match self {
            Refusal::TooLong => None,
            Refusal::NotUtf8 { at } => Some(at),
        }
    }
}

impl fmt::Display for Refusal {
    ghost output = { λ why. Some (refusal_text why) };

    fn fmt<W: fmt::Write>(&self, f: &mut fmt::Formatter<W>) -> fmt::Result {
        match *self {
            Refusal::TooLong => write!(f, "longer than 4294967295 bytes"),
            Refusal::NotUtf8 { at } => write!(f, "not UTF-8, first at byte {at}"),
        }
    }
}

impl Error for Refusal {}

// No character begins at the place.
#[derive(Clone, Copy, Debug, PartialEq, Eq)]
pub struct NoCharacter;

impl NoCharacter {
    // The number by which the refusal is known outside.
    pub fn number(self) -> u8
        ensures { result ≡ 21 }
    {
        21
    }
}

impl fmt::Display for NoCharacter {
    ghost output = { λ _. Some (codes "no character begins there") };

    fn fmt<W: fmt::Write>(&self, f: &mut fmt::Formatter<W>) -> fmt::Result {
        f.write_str("no character begins there")
    }
}

impl Error for NoCharacter {}
