// Questions.
use crate::failure::Failure;
use crate::recorded::Recorded;
use crate::words::{cut, cut_number};
use questions::decode;
use std::alloc::Global;

// What a line asks for: it is told apart once, where the question is answered.
#[derive(Clone, Copy, Debug, PartialEq, Eq)]
pub enum Asked {
    Columns,
    Input,
    Single,
}

#[derive(Drop)]
pub struct Question {
    pub asked: Asked,
    // As it was asked: the calls refuse a number that no edition has.
    pub edition: u8,
    pub script: Vec<u8>,
    pub recorded: Recorded,
}

impl Asked {
    fn of_letter(letter: &[u8]) -> Result<Asked, Failure> {
        match letter {
            b"L" => Ok(Asked::Columns),
            b"I" => Ok(Asked::Input),
            b"S" => Ok(Asked::Single),
            _ => Err(Failure::Malformed),
        }
    }
}

impl Question {
    // An edition past 255 is as unknown as 255.
    pub fn read(heap: Global, line: &[u8]) -> Result<Question, Failure> {
        let (letter, line) = cut(line, b' ')?;
        let (edition, line) = cut_number(line, b' ')?;
        let (hex, tape) = cut(line, b' ')?;
        Ok(Question {
            asked: Asked::of_letter(letter)?,
            edition: edition.min(255) as u8,
            script: decode(heap, hex)?.ok_or(Failure::Malformed)?,
            recorded: Recorded::read(heap, tape)?,
        })
    }
}
