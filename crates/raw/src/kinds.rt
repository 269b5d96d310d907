// The raw kinds: what a raw lexer calls a token, with the flags that lexing reads.

#[derive(Clone, Copy, Debug, PartialEq, Eq)]
pub enum DocStyle {
    Outer,
    Inner,
}

#[derive(Clone, Copy, Debug, PartialEq, Eq)]
pub enum LiteralKind {
    Int { empty_int: bool },
    Float { empty_exponent: bool },
    Char { terminated: bool },
    Byte { terminated: bool },
    Str { terminated: bool },
    ByteStr { terminated: bool },
    CStr { terminated: bool },
    // A raw string is valid where its opening and its close were found.
    RawStr { valid: bool },
    RawByteStr { valid: bool },
    RawCStr { valid: bool },
}

#[derive(Clone, Copy, Debug, PartialEq, Eq)]
pub enum RawKind {
    LineComment {
        doc_style: Option<DocStyle>,
    },
    BlockComment {
        doc_style: Option<DocStyle>,
        terminated: bool,
    },
    Frontmatter {
        has_invalid_preceding_whitespace: bool,
        invalid_infostring: bool,
    },
    Whitespace,
    Ident,
    InvalidIdent,
    RawIdent,
    // `#"` or `##`: reserved from 2024 on.
    GuardedStrPrefix,
    Literal {
        kind: LiteralKind,
    },
    Lifetime {
        starts_with_number: bool,
    },
    UnknownPrefixLifetime,
    RawLifetime,
    Semi,
    Comma,
    Dot,
    OpenParen,
    CloseParen,
    OpenBrace,
    CloseBrace,
    OpenBracket,
    CloseBracket,
    At,
    Pound,
    Tilde,
    Question,
    Colon,
    Dollar,
    Eq,
    Bang,
    Lt,
    Gt,
    Minus,
    And,
    Or,
    Plus,
    Star,
    Slash,
    Caret,
    Percent,
    Unknown,
    UnknownPrefix,
    Eof,
}

#[derive(Clone, Copy, Debug, PartialEq, Eq)]
pub struct RawToken {
    pub kind: RawKind,
    pub len: u32,
}

// What can be wrong with an escape or a character of a literal.
#[derive(Clone, Copy, Debug, PartialEq, Eq)]
pub enum EscapeError {
    ZeroChars,
    MoreThanOneChar,
    LoneSlash,
    InvalidEscape,
    BareCarriageReturn,
    BareCarriageReturnInRawString,
    EscapeOnlyChar,
    TooShortHexEscape,
    InvalidCharInHexEscape,
    OutOfRangeHexEscape,
    NoBraceInUnicodeEscape,
    InvalidCharInUnicodeEscape,
    EmptyUnicodeEscape,
    UnclosedUnicodeEscape,
    LeadingUnderscoreUnicodeEscape,
    OverlongUnicodeEscape,
    LoneSurrogateUnicodeEscape,
    OutOfRangeUnicodeEscape,
    UnicodeEscapeInByte,
    NonAsciiCharInByte,
    NulInCStr,
    UnskippedWhitespaceWarning,
    MultipleSkippedLinesWarning,
}
