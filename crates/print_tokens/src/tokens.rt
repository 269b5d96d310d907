// What is printed of a script's tokens.
ghost use Rattle.std.specs.Prelude.{◌≡◌, ◌+◌, ◌<◌};
ghost use Rattle.lexed_str.specs.Columns.{tokens, kind_at, start_at};
ghost use Rattle.lexed_str.specs.Reading.{texts};

use crate::names::KINDS;
use converter::Message;
use lexed_str::{LexError, LexedStr};
use std::fmt;
use std::ops::Range;

// As much of a token's text is shown.
const SHOWN: usize = 40;

// Every token with its errors, and how many there are.
#[derive(Drop)]
pub struct Tokens<'a>(pub LexedStr<'a>);

// One token.
#[derive(Clone, Copy)]
struct Line<'a> {
    start: usize,
    end: usize,
    kind: u16,
    text: &'a [u8],
}

// The errors of one token.
#[derive(Clone, Copy)]
struct Errors<'a>(&'a [LexError]);

// A token's text, or as much of it as is shown.
#[derive(Clone, Copy)]
struct Text<'a>(&'a [u8]);

impl<'a> Line<'a> {
    fn new(lexed: &LexedStr<'a>, i: usize) -> Line<'a>
        requires { i < tokens lexed.now.kinds.now }
        ensures start { result.start ≡ start_at lexed.now.starts.now i }
        ensures end { result.end ≡ start_at lexed.now.starts.now (i + 1) }
        ensures kind { result.kind ≡ kind_at lexed.now.kinds.now i }
        ensures text { result.text.now ≡ texts lexed.now.script.bytes.now lexed.now.starts.now i (i + 1) }
    {
        let Ok(Range { start, end }) = lexed.text_range(i) else {
            unreachable()
        };
        let Ok(kind) = lexed.kind(i) else {
            unreachable()
        };
        let Ok(text) = lexed.text(i) else {
            unreachable()
        };
        Line {
            start,
            end,
            kind,
            text,
        }
    }
}

impl fmt::Display for Tokens<'_> {
    fn fmt<W: fmt::Write>(&self, f: &mut fmt::Formatter<W>) -> fmt::Result {
        let lexed = self.0;
        let len = lexed.len();
        let mut errors = lexed.errors();
        // Columns are asked for a token by its number.
        for i in 0..len {
            let line = Line::new(&lexed, i);
            let (own, later) = split_errors(errors, i);
            let said = Errors(own);
            write!(f, "{line}{said}")?;
            errors = later;
        }
        let count = lexed.errors().len();
        write!(f, "{len} tokens, {count} errors")
    }
}

// The errors of the token, where no earlier token's come first, and those of later tokens.
fn split_errors(errors: &[LexError], token: usize) -> (&[LexError], &[LexError]) {
    let end = errors
        .iter()
        .position(|error| error.token as usize != token)
        .unwrap_or(errors.len());
    errors.split_at(end)
}

impl fmt::Display for Line<'_> {
    fn fmt<W: fmt::Write>(&self, f: &mut fmt::Formatter<W>) -> fmt::Result {
        let Line { start, end, .. } = *self;
        let name = KINDS.get(self.kind as usize).copied().unwrap_or("?");
        let text = Text(self.text);
        write!(f, "{start}..{end}  {name}  {text}\n")
    }
}

impl fmt::Display for Errors<'_> {
    fn fmt<W: fmt::Write>(&self, f: &mut fmt::Formatter<W>) -> fmt::Result {
        for LexError { code, .. } in self.0 {
            write!(f, "    error {code}: ")?;
            match Message::try_from(*code) {
                Ok(message) => write!(f, "{message}\n")?,
                Err(_) => f.write_str("?\n")?,
            }
        }
        Ok(())
    }
}

impl fmt::Display for Text<'_> {
    fn fmt<W: fmt::Write>(&self, f: &mut fmt::Formatter<W>) -> fmt::Result {
        for byte in self.0.iter().take(SHOWN) {
            write_byte(f, *byte)?;
        }
        if self.0.len() > SHOWN {
            f.write_str("...")?;
        }
        Ok(())
    }
}

// A byte that is no printable ASCII is escaped, so that each token is one line of plain text, and so is the backslash.
// Any other, a quote too, is written as it is: through the escapes each would cost as much as a formatted value.
fn write_byte<W: fmt::Write>(f: &mut fmt::Formatter<W>, byte: u8) -> fmt::Result {
    match byte {
        b' '..=b'[' | b']'..=b'~' => f.write_char(byte as char),
        _ => write!(f, "{}", byte.escape_ascii()),
    }
}
