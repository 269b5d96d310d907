// All questions in turn.
ghost use Rattle.std.specs.Prelude.{◌≡◌, IfOk, string_bytes};
ghost use Rattle.answers.specs.Transcript.{transcript};

use crate::answer::Answer;
use questions::Lines;
use std::alloc::Global;
use std::fmt::Write;
use std::io;

// The answers to the lines of `input`, each on a line.
pub fn replay(heap: Global, input: &[u8]) -> io::Result<String>
    ensures { IfOk result (λ output. string_bytes output ≡ transcript input.now) }
{
    let mut output = String::new(heap);
    for line in Lines(input) {
        let answer = Answer::to(heap, line)?;
        writeln!(output, "{answer}")?;
    }
    Ok(output)
}
