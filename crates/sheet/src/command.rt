// What the arguments ask for.
ghost use Rattle.std.specs.Prelude.{◌≡◌};
ghost use Rattle.sheet.specs.Commands.{is_help, is_option, word_command, command_of};

use std::error::Error;
use std::fmt;

// Not compared or shown anywhere, and it holds an allocation.
#[derive(Drop)]
pub enum Command {
    Help,
    File(String),
    Input,
}

#[derive(Debug, Drop)]
pub enum Mistake {
    // An option that there is not.
    Unknown(String),
    // A second argument.
    Extra,
}

impl fmt::Display for Mistake {
    fn fmt<W: fmt::Write>(&self, f: &mut fmt::Formatter<W>) -> fmt::Result {
        match self {
            Mistake::Unknown(word) => write!(f, "no option {word}"),
            Mistake::Extra => write!(f, "more than one argument"),
        }
    }
}

impl Error for Mistake {}

impl Command {
    // The command of the first argument, and of whether another follows it.
    pub fn new(first: Option<String>, more: bool) -> Result<Command, Mistake>
        ensures { result ≡ command_of first more }
    {
        if more {
            return Err(Mistake::Extra);
        }
        match first {
            None => Ok(Command::Input),
            Some(word) => Command::of_word(word),
        }
    }

    fn of_word(word: String) -> Result<Command, Mistake>
        ensures { result ≡ word_command word }
    {
        if is_help(word.as_str()) {
            Ok(Command::Help)
        } else if is_option(word.as_bytes()) {
            Err(Mistake::Unknown(word))
        } else {
            Ok(Command::File(word))
        }
    }
}

fn is_help(word: &str) -> bool
    ensures { result ≡ is_help word.now }
{
    word == "--help" || word == "-h"
}

fn is_option(word: &[u8]) -> bool
    ensures { result ≡ is_option word.now }
{
    matches!(word, [b'-', ..])
}
