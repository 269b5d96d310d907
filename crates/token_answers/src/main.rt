//! Replays questions about tokens: reads one on each line of standard input, and prints a line with the answer to each.
//!
//! `L E HEX TAPE`  the token columns of a script
//! `I E HEX TAPE`  the parser's input of those columns
//! `S E HEX TAPE`  the one token that the script is
//!
//! E is an edition, HEX the script's bytes in lower-case hexadecimal, or `-` for none. TAPE is what a raw lexer says of
//! the script: `SHEBANG;MARKS`, a length and then `-` or marks joined by `,`. A mark is `PLACE:KIND:LENGTH` or
//! `PLACE:KIND:LENGTH:FAULTS`, with faults joined by `.`.
#![tactic(auto)]

mod answer;
mod failure;
mod numbered;
mod question;
mod recorded;
mod replay;
mod text;
mod words;

use replay::replay;
use std::io;
use std::io::{Read, Write};

fn main(rt: HostRuntime) -> io::Result<()> {
    let mut input = Vec::new(rt.alloc());
    rt.stdin().read_to_end(&mut input)?;
    let output = replay(rt.alloc(), input.as_slice())?;
    rt.stdout().write_all(output.as_bytes())
}
