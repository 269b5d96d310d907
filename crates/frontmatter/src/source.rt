// What a script's frontmatter is found to be.
ghost use Rattle.std.specs.Prelude.{◌≡◌, ◌≤◌, Some};
ghost use Rattle.frontmatter.specs.declared.source.Failure.TheVariants as failure;
ghost use Rattle.frontmatter.specs.Parsing.{letter};
ghost use Rattle.frontmatter.specs.Reads.{size};
ghost use Rattle.frontmatter.specs.Texts.{span_text, meaning_of};

use script::Refusal;
use std::fmt;

// The bytes from `start` up to `end`.
#[derive(Clone, Copy, Debug, PartialEq, Eq)]
pub struct Span {
    pub start: usize,
    pub end: usize,
}

impl Span {
    pub(crate) fn len(self) -> usize
        requires { self.start ≤ self.end }
        ensures { result ≡ size self }
    {
        self.end - self.start
    }
}

impl fmt::Display for Span {
    ghost output = { λ span. Some (span_text span) };

    fn fmt<W: fmt::Write>(&self, f: &mut fmt::Formatter<W>) -> fmt::Result {
        let Span { start, end } = *self;
        write!(f, "{start}..{end}")
    }
}

// The parts of a script. Without a fence, only the shebang and the content are there.
#[derive(Clone, Copy, Debug, PartialEq, Eq)]
pub struct ScriptSource {
    pub shebang: Option<Span>,
    pub open: Option<Span>,
    pub info: Option<Span>,
    pub frontmatter: Option<Span>,
    pub close: Option<Span>,
    pub content: Span,
}

#[derive(Clone, Copy, Debug, PartialEq, Eq)]
pub enum FaultKind {
    TooFewDashes,
    Unclosed,
    FewerDashes,
    MoreDashes,
    TextAfterClose,
    SecondFence,
}

// A fence that breaks the rules. `primary` is where; `open` and `close` are the fences to show beside it.
#[derive(Clone, Copy, Debug, PartialEq, Eq)]
pub struct Fault {
    pub kind: FaultKind,
    pub primary: Span,
    pub open: Span,
    pub close: Option<Span>,
}

#[derive(Clone, Copy, Debug, PartialEq, Eq)]
pub enum Failure {
    Refused(Refusal),
    Faulty(Fault),
}

impl From<Refusal> for Failure {
    ghost from_gives = { λ why r. r ≡ failure.Refused why };

    fn from(why: Refusal) -> Failure {
        Failure::Refused(why)
    }
}

impl From<Fault> for Failure {
    ghost from_gives = { λ fault r. r ≡ failure.Faulty fault };

    fn from(fault: Fault) -> Failure {
        Failure::Faulty(fault)
    }
}

impl FaultKind {
    // The letter by which the fault is known outside.
    pub fn letter(self) -> char
        ensures { result ≡ letter self }
    {
        match self {
            FaultKind::TooFewDashes => 'A',
            FaultKind::Unclosed => 'B',
            FaultKind::FewerDashes => 'C',
            FaultKind::MoreDashes => 'D',
            FaultKind::TextAfterClose => 'E',
            FaultKind::SecondFence => 'F',
        }
    }
}

// What the fault is, in plain words.
impl fmt::Display for FaultKind {
    ghost output = { λ kind. Some (meaning_of kind) };

    fn fmt<W: fmt::Write>(&self, f: &mut fmt::Formatter<W>) -> fmt::Result {
        f.write_str(match *self {
            FaultKind::TooFewDashes => "fewer than three dashes open no frontmatter",
            FaultKind::Unclosed => "the frontmatter is never closed",
            FaultKind::FewerDashes => "the closing fence has fewer dashes than the opening one",
            FaultKind::MoreDashes => "the closing fence has more dashes than the opening one",
            FaultKind::TextAfterClose => "text follows the closing fence",
            FaultKind::SecondFence => "a second frontmatter follows",
        })
    }
}
