// Why columns are not read, or a question about them has no answer.
ghost use Rattle.std.specs.Prelude.{◌≡◌, Some};
ghost use Rattle.lexed_str.specs.Refusals.{number, value, refusal_text, carried};

use std::error::Error;
use std::fmt;

#[derive(Clone, Copy, Debug, PartialEq, Eq)]
pub enum Refusal {
    // The script has more than 4294967295 bytes.
    TooLong,
    // The script's first ill-formed byte stands at `at`.
    NotUtf8 { at: usize },
    // A kind is past the last one.
    Kind,
    // The columns do not fit together, or do not fit the script.
    Columns,
    // There is no such token.
    NoToken,
}

impl Refusal {
    // The number by which the refusal is known outside.
    pub fn number(self) -> u8
        ensures { result ≡ number self }
    {
        match self {
            Refusal::TooLong => 1,
            Refusal::NotUtf8 { .. } => 2,
            Refusal::Kind => 4,
            Refusal::Columns => 10,
            Refusal::NoToken => 21,
        }
    }

    // The place that goes with the number, if one does.
    pub fn value(self) -> Option<usize>
        ensures { result ≡ value self }
    {
        match self {
            Refusal::NotUtf8 { at } => Some(at),
            Refusal::TooLong | Refusal::Kind | Refusal::Columns | Refusal::NoToken => None,
        }
    }
}

impl From<script::Refusal> for Refusal {
    ghost from_gives = { λ why r. r ≡ carried why };

    fn from(why: script::Refusal) -> Refusal {
        match why {
            script::Refusal::TooLong => Refusal::TooLong,
            script::Refusal::NotUtf8 { at } => Refusal::NotUtf8 { at },
        }
    }
}

impl fmt::Display for Refusal {
    ghost output = { λ why. Some (refusal_text why) };

    fn fmt<W: fmt::Write>(&self, f: &mut fmt::Formatter<W>) -> fmt::Result {
        match *self {
            Refusal::TooLong => script::Refusal::TooLong.fmt(f),
            Refusal::NotUtf8 { at } => script::Refusal::NotUtf8 { at }.fmt(f),
            Refusal::Kind => f.write_str("a kind is past the last one"),
            Refusal::Columns => f.write_str("the columns do not fit"),
            Refusal::NoToken => f.write_str("there is no such token"),
        }
    }
}

impl Error for Refusal {}
