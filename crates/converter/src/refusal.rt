// Why a script is not lexed.
ghost use Rattle.std.specs.Prelude.{◌≡◌, Some};
ghost use Rattle.converter.specs.Refusals.{number, refusal_text};

use std::error::Error;
use std::fmt;
use syntax_kind::UnknownEdition;

#[derive(Clone, Copy, Debug, PartialEq, Eq)]
pub enum Refusal {
    // The edition is past 2024.
    Edition,
    // A column has no room for as many entries as the script may need.
    Columns,
}

impl Refusal {
    // The number by which the refusal is known outside.
    pub fn number(self) -> u8
        ensures { result ≡ number self }
    {
        match self {
            Refusal::Edition => 3,
            Refusal::Columns => 20,
        }
    }
}

impl From<UnknownEdition> for Refusal {
    ghost use Rattle.std.specs.Prelude.{◌≡◌};
    ghost use Rattle.converter.specs.declared.refusal.Refusal.TheVariants as refusal;

    ghost from_gives = { λ _ r. r ≡ refusal.Edition };

    fn from(_unknown: UnknownEdition) -> Refusal {
        Refusal::Edition
    }
}

impl fmt::Display for Refusal {
    ghost output = { λ r. Some (refusal_text r) };

    fn fmt<W: fmt::Write>(&self, f: &mut fmt::Formatter<W>) -> fmt::Result {
        f.write_str(match self {
            Refusal::Edition => "no such edition",
            Refusal::Columns => "too little room in a column",
        })
    }
}

impl Error for Refusal {}
