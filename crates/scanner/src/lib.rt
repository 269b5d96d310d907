//! A small lexer of our own: a raw source that reads its tokens off the script.
#![tactic(auto)]

ghost use Rattle.std.specs.Prelude.{◌≡◌, IfOk};
ghost use Rattle.std.specs.Result.{result_err};
ghost use Rattle.script.specs.Admission.{refusal};

use script::{Refusal, Script};

mod classes;
mod comments;
mod marks;
mod rest;
mod source;
mod tokens;

pub use comments::comment_at;

// The lexer over one script.
#[derive(Clone, Copy, Debug, PartialEq, Eq)]
pub struct Scanner<'a> {
    script: Script<'a>,
}

impl<'a> Scanner<'a> {
    pub fn of_script(script: Script<'a>) -> Scanner<'a>
        ensures { result.script.bytes.now ≡ script.entry.bytes.now }
    {
        Scanner { script }
    }

    // The scanner of the bytes, where they are a script.
    pub fn new(bytes: &'a [u8]) -> Result<Scanner<'a>, Refusal>
        ensures refused { result_err result ≡ refusal bytes.now }
        ensures script { IfOk result (λ scanner. scanner.script.bytes.now ≡ bytes.now) }
    {
        Ok(Scanner::of_script(Script::admit(bytes)?))
    }
}
