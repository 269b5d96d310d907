// The messages of lexing, known outside by their codes.
ghost use Rattle.std.specs.Prelude.{◌≡◌, Some};
ghost use Rattle.converter.specs.Message.{message_code, message_text, unknown_text, CodeOf};

use std::error::Error;
use std::fmt;

#[derive(Clone, Copy, Debug, PartialEq, Eq)]
pub enum Message {
    UnterminatedBlockComment = 1,
    InvalidFrontmatterWhitespace,
    InvalidInfostring,
    InvalidIdent,
    ReservedStringLiteral,
    LifetimeStartsWithNumber,
    UnknownLifetimePrefix,
    // Of a prefix behind a string that is likely unterminated.
    UnknownPrefixNearString,
    UnknownPrefix,
    InvalidRawString,
    EmptyInt,
    EmptyExponent,
    UnterminatedChar,
    UnterminatedByte,
    UnterminatedStr,
    UnterminatedByteStr,
    UnterminatedCStr,
    ZeroChars,
    MoreThanOneChar,
    UnknownByteEscape,
    UnknownCharEscape,
    UnescapedByte,
    UnescapedChar,
    TooShortHexEscape,
    InvalidCharInHexEscape,
    OutOfRangeHexEscape,
    NoBraceInUnicodeEscape,
    InvalidCharInUnicodeEscape,
    EmptyUnicodeEscape,
    UnclosedUnicodeEscape,
    LeadingUnderscoreUnicodeEscape,
    OverlongUnicodeEscape,
    InvalidUnicodeEscape,
    UnicodeEscapeInByte,
    NonAsciiCharInByte,
    NonAsciiCharInByteStr,
    NonAsciiCharInRawByteStr,
    NulInCStr,
}

// A code that no message has.
#[derive(Clone, Copy, Debug, PartialEq, Eq)]
pub struct UnknownMessage(pub u16);

impl Message {
    // The code by which the message is known outside.
    pub fn code(self) -> u16
        ensures { result ≡ message_code self }
    {
        self as u16
    }
}

impl TryFrom<u16> for Message {
    type Error = UnknownMessage;

    ghost try_from_gives = { CodeOf };

    fn try_from(code: u16) -> Result<Message, UnknownMessage> {
        Ok(match code {
            1 => Message::UnterminatedBlockComment,
            2 => Message::InvalidFrontmatterWhitespace,
            3 => Message::InvalidInfostring,
            4 => Message::InvalidIdent,
            5 => Message::ReservedStringLiteral,
            6 => Message::LifetimeStartsWithNumber,
            7 => Message::UnknownLifetimePrefix,
            8 => Message::UnknownPrefixNearString,
            9 => Message::UnknownPrefix,
            10 => Message::InvalidRawString,
            11 => Message::EmptyInt,
            12 => Message::EmptyExponent,
            13 => Message::UnterminatedChar,
            14 => Message::UnterminatedByte,
            15 => Message::UnterminatedStr,
            16 => Message::UnterminatedByteStr,
            17 => Message::UnterminatedCStr,
            18 => Message::ZeroChars,
            19 => Message::MoreThanOneChar,
            20 => Message::UnknownByteEscape,
            21 => Message::UnknownCharEscape,
            22 => Message::UnescapedByte,
            23 => Message::UnescapedChar,
            24 => Message::TooShortHexEscape,
            25 => Message::InvalidCharInHexEscape,
            26 => Message::OutOfRangeHexEscape,
            27 => Message::NoBraceInUnicodeEscape,
            28 => Message::InvalidCharInUnicodeEscape,
            29 => Message::EmptyUnicodeEscape,
            30 => Message::UnclosedUnicodeEscape,
            31 => Message::LeadingUnderscoreUnicodeEscape,
            32 => Message::OverlongUnicodeEscape,
            33 => Message::InvalidUnicodeEscape,
            34 => Message::UnicodeEscapeInByte,
            35 => Message::NonAsciiCharInByte,
            36 => Message::NonAsciiCharInByteStr,
            37 => Message::NonAsciiCharInRawByteStr,
            38 => Message::NulInCStr,
            _ => return Err(UnknownMessage(code)),
        })
    }
}

impl fmt::Display for Message {
    ghost output = { λ m. Some (message_text m) };

    fn fmt<W: fmt::Write>(&self, f: &mut fmt::Formatter<W>) -> fmt::Result {
        f.write_str(match self {
            Message::UnterminatedBlockComment =>
                "Missing trailing `*/` symbols to terminate the block comment",
            Message::InvalidFrontmatterWhitespace =>
                "invalid preceding whitespace for frontmatter opening",
            Message::InvalidInfostring => "invalid infostring for frontmatter",
            Message::InvalidIdent => "Ident contains invalid characters",
            Message::ReservedStringLiteral => "Invalid string literal (reserved syntax)",
            Message::LifetimeStartsWithNumber => "Lifetime name cannot start with a number",
            Message::UnknownLifetimePrefix => "Unknown lifetime prefix",
            Message::UnknownPrefixNearString =>
                "unknown literal prefix (note: check for unterminated string literal)",
            Message::UnknownPrefix => "unknown literal prefix",
            Message::InvalidRawString => "Invalid raw string literal",
            Message::EmptyInt => "Missing digits after the integer base prefix",
            Message::EmptyExponent => "Missing digits after the exponent symbol",
            Message::UnterminatedChar =>
                "Missing trailing `'` symbol to terminate the character literal",
            Message::UnterminatedByte =>
                "Missing trailing `'` symbol to terminate the byte literal",
            Message::UnterminatedStr =>
                "Missing trailing `\"` symbol to terminate the string literal",
            Message::UnterminatedByteStr =>
                "Missing trailing `\"` symbol to terminate the byte string literal",
            Message::UnterminatedCStr =>
                "Missing trailing `\"` symbol to terminate the C string literal",
            Message::ZeroChars => "empty character literal",
            Message::MoreThanOneChar => "character literal may only contain one codepoint",
            Message::UnknownByteEscape => "unknown byte escape",
            Message::UnknownCharEscape => "unknown character escape",
            Message::UnescapedByte => "byte constant must be escaped",
            Message::UnescapedChar => "character constant must be escaped",
            Message::TooShortHexEscape => "numeric character escape is too short",
            Message::InvalidCharInHexEscape => "invalid character in numeric character escape",
            Message::OutOfRangeHexEscape => "out of range hex escape",
            Message::NoBraceInUnicodeEscape => "incorrect unicode escape sequence",
            Message::InvalidCharInUnicodeEscape => "invalid character in unicode escape",
            Message::EmptyUnicodeEscape => "empty unicode escape",
            Message::UnclosedUnicodeEscape => "unterminated unicode escape",
            Message::LeadingUnderscoreUnicodeEscape => "invalid start of unicode escape",
            Message::OverlongUnicodeEscape => "overlong unicode escape",
            Message::InvalidUnicodeEscape => "invalid unicode character escape",
            Message::UnicodeEscapeInByte => "unicode escape in byte string",
            Message::NonAsciiCharInByte => "non-ASCII character in byte literal",
            Message::NonAsciiCharInByteStr => "non-ASCII character in byte string literal",
            Message::NonAsciiCharInRawByteStr => "non-ASCII character in raw byte string literal",
            Message::NulInCStr => "null character in C string literal",
        })
    }
}

impl fmt::Display for UnknownMessage {
    ghost output = { λ e. Some (unknown_text e.0) };

    fn fmt<W: fmt::Write>(&self, f: &mut fmt::Formatter<W>) -> fmt::Result {
        write!(f, "no message has the code {}", self.0)
    }
}

impl Error for UnknownMessage {}
