// What ends the program with a failure, and what is said of it on standard error.
use std::alloc::AllocError;
use std::error::Error;
use std::{fmt, io};

// An `io::Error` has no equality, so it has none.
#[derive(Debug, Drop)]
pub enum Trouble {
    Input(io::Error),
    Output(io::Error),
    // There is no memory for the tokens.
    Memory,
    // The bytes are no script; the number of the refusal.
    Refused(u8),
}

impl From<AllocError> for Trouble {
    fn from(_: AllocError) -> Trouble {
        Trouble::Memory
    }
}

impl From<script::Refusal> for Trouble {
    fn from(why: script::Refusal) -> Trouble {
        Trouble::Refused(why.number())
    }
}

impl fmt::Display for Trouble {
    fn fmt<W: fmt::Write>(&self, f: &mut fmt::Formatter<W>) -> fmt::Result {
        match self {
            Trouble::Input(why) => {
                write!(f, "print_tokens: cannot read standard input: {why}\n")
            }
            Trouble::Output(why) => write!(f, "print_tokens: cannot write: {why}\n"),
            Trouble::Memory => write!(f, "print_tokens: no memory for the tokens\n"),
            Trouble::Refused(number) => write!(f, "print_tokens: no script: refused {number}\n"),
        }
    }
}

impl Error for Trouble {}
