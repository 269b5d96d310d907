// All questions in turn.
use crate::answer::answer;
use crate::failure::Failure;
use crate::question::Question;
use questions::Lines;
use std::alloc::{AllocError, Global};
use std::io;

fn read_and_answer(heap: Global, line: &[u8], output: &mut String) -> Result<(), Failure> {
    let question = Question::read(heap, line)?;
    answer(heap, &question, output)
}

fn answer_line(heap: Global, line: &[u8], output: &mut String) -> io::Result<()> {
    match read_and_answer(heap, line, output) {
        Ok(()) => (),
        Err(Failure::Malformed) => output.push_str("malformed")?,
        Err(Failure::Refused(refused)) => write!(output, "{refused}")?,
        Err(Failure::OutOfMemory) => return Err(AllocError.into()),
    }
    output.push('\n')?;
    Ok(())
}

// The answers to the lines of `input`, each on a line.
pub fn replay(heap: Global, input: &[u8]) -> io::Result<String> {
    let mut output = String::new(heap);
    for line in Lines(input) {
        answer_line(heap, line, &mut output)?;
    }
    Ok(output)
}
