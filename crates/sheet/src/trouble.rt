// What ends the program with a failure, and what is said of it on standard error.
ghost use Rattle.std.specs.Prelude.{◌≡◌};

use crate::command::Mistake;
use std::error::Error;
use std::{fmt, io};

// An `io::Error` has no equality, so it has none.
#[derive(Debug, Drop)]
pub enum Trouble {
    Usage(Mistake),
    // The arguments are no text.
    Arguments(io::Error),
    File(String, io::Error),
    Input(io::Error),
    Output(io::Error),
    // The report on standard output has said it already.
    Reported,
}

impl From<Mistake> for Trouble {
    ghost use Rattle.sheet.specs.declared.trouble.Trouble.TheVariants as trouble;

    ghost from_gives = { λ mistake r. r ≡ trouble.Usage mistake };

    fn from(mistake: Mistake) -> Trouble {
        Trouble::Usage(mistake)
    }
}

impl fmt::Display for Trouble {
    fn fmt<W: fmt::Write>(&self, f: &mut fmt::Formatter<W>) -> fmt::Result {
        match self {
            Trouble::Usage(mistake) => {
                write!(f, "sheet: {mistake}; 'sheet --help' says what there is\n")
            }
            Trouble::Arguments(why) => write!(f, "sheet: cannot read the arguments: {why}\n"),
            Trouble::File(path, why) => write!(f, "sheet: cannot read {path}: {why}\n"),
            Trouble::Input(why) => write!(f, "sheet: cannot read standard input: {why}\n"),
            Trouble::Output(why) => write!(f, "sheet: cannot write: {why}\n"),
            Trouble::Reported => Ok(()),
        }
    }
}

impl Error for Trouble {}
