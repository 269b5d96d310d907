//! Replays questions: reads one on each line of standard input, and prints a line with the answer to each.
//!
//! `F HEX`    the frontmatter of a script
//! `K E HEX`  the keyword that an identifier is in the edition E
//! `T N`      whether the kind N is trivia
//!
//! HEX is bytes in lower-case hexadecimal, or `-` for none; E and N are decimal.
#![tactic(auto)]

mod answer;
mod replay;
mod text;

use replay::replay;
use std::io;
use std::io::{Read, Write};

fn main(rt: HostRuntime) -> io::Result<()> {
    let mut input = Vec::new(rt.alloc());
    rt.stdin().read_to_end(&mut input)?;
    let output = replay(rt.alloc(), input.as_slice())?;
    rt.stdout().write_all(output.as_bytes())
}
