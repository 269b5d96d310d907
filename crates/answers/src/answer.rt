// Questions and their answers.
ghost use Rattle.std.specs.Prelude.{◌≡◌, IfOk, vec_items};
ghost use Rattle.std.specs.Option.{option_map};
ghost use Rattle.answers.specs.Asked.{edition, keywords, identifier_answer, frontmatter_line, keyword_line, trivia_line, answer_to};
ghost use Rattle.answers.specs.Numbers.{number};

use frontmatter::{Failure, ScriptSource};
use questions::{decimal, decode, split_once};
use std::alloc::{AllocError, Global};
use syntax_kind::{Edition, Refusal, is_trivia};

// The kinds that an identifier has as a strict and as a contextual keyword.
#[derive(Clone, Copy, Debug, PartialEq, Eq)]
pub struct Keywords {
    pub strict: Option<u16>,
    pub contextual: Option<u16>,
}

#[derive(Clone, Copy, Debug, PartialEq, Eq)]
pub enum Answer {
    Frontmatter(Result<ScriptSource, Failure>),
    Keywords(Result<Keywords, Refusal>),
    Trivia(Result<bool, Refusal>),
    // The line asks nothing.
    Malformed,
}

fn find_keywords(ident: &[u8], edition: u8) -> Result<Keywords, Refusal>
    ensures { result ≡ keywords ident.now edition }
{
    let edition = Edition::try_from(edition)?;
    Ok(Keywords {
        strict: edition.keyword(ident),
        contextual: edition.contextual_keyword(ident),
    })
}

// A number past 65535 counts as 65535, which no question takes.
fn number(text: &[u8]) -> Option<u16>
    ensures { result ≡ number text.now }
{
    decimal(text).map(|n| n.min(65535) as u16)
}

// An edition past 255 is as unknown as 255.
fn edition_of(n: u16) -> u8
    ensures { result ≡ edition n }
{
    n.min(255) as u8
}

fn answer_frontmatter(heap: Global, hex: &[u8]) -> Result<Answer, AllocError>
    ensures { IfOk result (λ a. a ≡ frontmatter_line hex.now) }
{
    match decode(heap, hex)? {
        Some(bytes) => Ok(Answer::Frontmatter(ScriptSource::parse(bytes.as_slice()))),
        None => Ok(Answer::Malformed),
    }
}

fn answer_identifier(number: Option<u16>, ident: Option<Vec<u8>>) -> Answer
    ensures { result ≡ identifier_answer number (option_map vec_items ident) }
{
    match (number, ident) {
        (Some(n), Some(ident)) => Answer::Keywords(find_keywords(ident.as_slice(), edition_of(n))),
        _ => Answer::Malformed,
    }
}

// `text` is the edition, a space and the identifier.
fn answer_keywords(heap: Global, text: &[u8]) -> Result<Answer, AllocError>
    ensures { IfOk result (λ a. a ≡ keyword_line text.now) }
{
    let Some((edition, ident)) = split_once(text, b' ') else {
        return Ok(Answer::Malformed);
    };
    let ident = decode(heap, ident)?;
    Ok(answer_identifier(number(edition), ident))
}

fn answer_trivia(text: &[u8]) -> Answer
    ensures { result ≡ trivia_line text.now }
{
    match number(text) {
        Some(kind) => Answer::Trivia(is_trivia(kind)),
        None => Answer::Malformed,
    }
}

impl Answer {
    // The answer to a line: a letter, a space and what the question is about.
    pub fn to(heap: Global, line: &[u8]) -> Result<Answer, AllocError>
        ensures { IfOk result (λ a. a ≡ answer_to line.now) }
    {
        match line {
            [b'F', b' ', hex @ ..] => answer_frontmatter(heap, hex),
            [b'K', b' ', text @ ..] => answer_keywords(heap, text),
            [b'T', b' ', text @ ..] => Ok(answer_trivia(text)),
            _ => Ok(Answer::Malformed),
        }
    }
}
