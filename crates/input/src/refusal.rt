// Why an input takes no entry, or has no answer.
ghost use Rattle.std.specs.Prelude.{◌≡◌, Some};
ghost use Rattle.input.specs.Refusals.{number, refusal_text};

use std::error::Error;
use std::fmt;
use syntax_kind::UnknownEdition;

#[derive(Clone, Copy, Debug, PartialEq, Eq)]
pub enum Refusal {
    // The edition is past the last.
    Edition,
    // The kind is past the last.
    Kind,
    // No entry has this number.
    NotThere,
    // There is no entry yet.
    Empty,
    // A column has no place left.
    Full,
}

impl Refusal {
    // The number by which the refusal is known outside.
    pub fn number(self) -> u8
        ensures { result ≡ number self }
    {
        match self {
            Refusal::Edition => 3,
            Refusal::Kind => 4,
            Refusal::NotThere => 21,
            Refusal::Empty => 30,
            Refusal::Full => 32,
        }
    }
}

impl fmt::Display for Refusal {
    ghost output = { λ why. Some (refusal_text why) };

    fn fmt<W: fmt::Write>(&self, f: &mut fmt::Formatter<W>) -> fmt::Result {
        f.write_str(match self {
            Refusal::Edition => "no edition has this number",
            Refusal::Kind => "no kind has this number",
            Refusal::NotThere => "no entry has this number",
            Refusal::Empty => "there is no entry yet",
            Refusal::Full => "a column is full",
        })
    }
}

impl Error for Refusal {}

impl From<UnknownEdition> for Refusal {
    ghost use Rattle.input.specs.declared.refusal.Refusal.TheVariants as refusal;

    ghost from_gives = { λ _ why. why ≡ refusal.Edition };

    fn from(_unknown: UnknownEdition) -> Refusal {
        Refusal::Edition
    }
}
