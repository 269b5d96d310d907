// Why a recording is no tape.
ghost use Rattle.std.specs.Prelude.{◌≡◌, Some};
ghost use Rattle.tape.specs.Recordings.{number, value, refusal_text, unread};

use std::error::Error;
use std::fmt;

#[derive(Clone, Copy, Debug, PartialEq, Eq)]
pub enum Refusal {
    // The script has more than 4294967295 bytes.
    TooLong,
    // The script's first ill-formed byte stands at `at`.
    NotUtf8 { at: usize },
    // The first mark that breaks the rules.
    Mark { number: usize },
    // A shebang length that breaks its rule; `marks` is how many marks came before it.
    Shebang { marks: usize },
}

impl Refusal {
    // The number by which the refusal is known outside.
    pub fn number(self) -> u8
        ensures { result ≡ number self }
    {
        match self {
            Refusal::TooLong => 1,
            Refusal::NotUtf8 { .. } => 2,
            Refusal::Mark { .. } | Refusal::Shebang { .. } => 5,
        }
    }

    // The place or count that goes with the number, if one does.
    pub fn value(self) -> Option<usize>
        ensures { result ≡ value self }
    {
        match self {
            Refusal::TooLong => None,
            Refusal::NotUtf8 { at } => Some(at),
            Refusal::Mark { number } => Some(number),
            Refusal::Shebang { marks } => Some(marks),
        }
    }
}

impl fmt::Display for Refusal {
    ghost output = { λ why. Some (refusal_text why) };

    fn fmt<W: fmt::Write>(&self, f: &mut fmt::Formatter<W>) -> fmt::Result {
        match *self {
            Refusal::TooLong => write!(f, "longer than 4294967295 bytes"),
            Refusal::NotUtf8 { at } => write!(f, "not UTF-8, first at byte {at}"),
            Refusal::Mark { number } => write!(f, "mark {number} breaks a rule"),
            Refusal::Shebang { .. } => write!(f, "the shebang length breaks its rule"),
        }
    }
}

impl Error for Refusal {}

// For `?`.
impl From<script::Refusal> for Refusal {
    ghost from_gives = { λ why refused. refused ≡ unread why };

    fn from(why: script::Refusal) -> Refusal {
        match why {
            script::Refusal::TooLong => Refusal::TooLong,
            script::Refusal::NotUtf8 { at } => Refusal::NotUtf8 { at },
        }
    }
}
