// A token as the parser's input takes it.
ghost use Rattle.std.specs.Prelude.{◌≡◌, ◌<◌};
ghost use Rattle.syntax_kind.specs.Trivia.{trivial};
ghost use Rattle.lexed_str.specs.Columns.{tokens};
ghost use Rattle.input.specs.Seen.{Sees, contextual_of, joint_of};

use lexed_str::LexedStr;
use syntax_kind::{Edition, is_trivia, kinds as kind_numbers};

// Its kind, its text, and the kind of the token behind it, if there is one.
#[derive(Clone, Copy)]
pub(crate) struct Token<'a> {
    pub(crate) kind: u16,
    text: &'a [u8],
    next: Option<u16>,
}

impl<'a> Token<'a> {
    // Token i.
    pub(crate) fn at(lexed: &LexedStr<'a>, i: usize) -> Token<'a>
        requires { i < tokens lexed.now.kinds.now }
        ensures { Sees lexed.now.script.bytes.now lexed.now.kinds.now lexed.now.starts.now i result }
    {
        let (Ok(kind), Ok(text)) = (lexed.kind(i), lexed.text(i)) else {
            unreachable!()
        };
        Token {
            kind,
            text,
            next: lexed.kind(i + 1).ok(),
        }
    }

    pub(crate) fn is_trivial(&self) -> bool
        ensures { result ≡ trivial self.now.kind }
    {
        is_trivial(self.kind)
    }

    // The keyword that an identifier is where the grammar asks for it.
    pub(crate) fn contextual_kind(&self, edition: Edition) -> u16
        ensures { result ≡ contextual_of self.now edition }
    {
        if self.kind != kind_numbers::IDENT {
            return kind_numbers::EOF;
        }
        edition
            .contextual_keyword(self.text)
            .unwrap_or(kind_numbers::IDENT)
    }

    // Whether nothing parts it from the next; of a fractional number, whether it has its fraction.
    pub(crate) fn is_joint(&self) -> bool
        ensures { result ≡ joint_of self.now }
    {
        match self.kind {
            kind_numbers::FLOAT_NUMBER => !matches!(self.text, [.., b'.']),
            kind_numbers::IDENT => false,
            _ => self
                .next
                .is_some_and(|kind| !is_trivial(kind) && kind != kind_numbers::IDENT),
        }
    }
}

fn is_trivial(kind: u16) -> bool
    ensures { result ≡ trivial kind }
{
    is_trivia(kind) == Ok(true)
}
