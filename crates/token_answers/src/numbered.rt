// Raw kinds and escape faults by their numbers. Functions, not a `From`: its newtype of a number would be made only to be taken apart.
ghost use Rattle.std.specs.Prelude.{◌≡◌, ◌<◌, ◌≤◌, min, MatchOption};
ghost use Rattle.raw.specs.declared.kinds.RawKind.TheVariants.{BlockComment, Frontmatter};
ghost use Rattle.token_answers.specs.Numbers.{kind_number, literal_number, fault_number};

use raw::{DocStyle, EscapeError, LiteralKind, RawKind};

// Numbers past the last are taken for the end's, which stands on no tape.
pub fn raw_kind(n: u32) -> RawKind
    ensures { kind_number result ≡ min n 71 }
{
    match n {
        0..=12 => comment_or_frontmatter(n),
        13 => RawKind::Whitespace,
        14 => RawKind::Ident,
        15 => RawKind::InvalidIdent,
        16 => RawKind::RawIdent,
        17 => RawKind::GuardedStrPrefix,
        18..=37 => RawKind::Literal {
            kind: literal_kind(n),
        },
        38 => RawKind::Lifetime {
            starts_with_number: false,
        },
        39 => RawKind::Lifetime {
            starts_with_number: true,
        },
        40 => RawKind::UnknownPrefixLifetime,
        41 => RawKind::RawLifetime,
        42..=68 => punctuation(n),
        69 => RawKind::Unknown,
        70 => RawKind::UnknownPrefix,
        _ => RawKind::Eof,
    }
}

fn comment_or_frontmatter(n: u32) -> RawKind
    requires { n ≤ 12 }
    ensures { kind_number result ≡ n }
{
    match n {
        0 => RawKind::LineComment { doc_style: None },
        1 => RawKind::LineComment {
            doc_style: Some(DocStyle::Outer),
        },
        2 => RawKind::LineComment {
            doc_style: Some(DocStyle::Inner),
        },
        3 => block_comment(None, false),
        4 => block_comment(None, true),
        5 => block_comment(Some(DocStyle::Outer), false),
        6 => block_comment(Some(DocStyle::Outer), true),
        7 => block_comment(Some(DocStyle::Inner), false),
        8 => block_comment(Some(DocStyle::Inner), true),
        9 => frontmatter(false, false),
        10 => frontmatter(false, true),
        11 => frontmatter(true, false),
        12 => frontmatter(true, true),
        _ => unreachable(),
    }
}

fn block_comment(doc_style: Option<DocStyle>, terminated: bool) -> RawKind
    ensures { result ≡ BlockComment doc_style terminated }
{
    RawKind::BlockComment {
        doc_style,
        terminated,
    }
}

fn frontmatter(white: bool, info: bool) -> RawKind
    ensures { result ≡ Frontmatter white info }
{
    RawKind::Frontmatter {
        has_invalid_preceding_whitespace: white,
        invalid_infostring: info,
    }
}

fn literal_kind(n: u32) -> LiteralKind
    requires { (18 ≤ n) × (n ≤ 37) }
    ensures { literal_number result ≡ n }
{
    match n {
        18 => LiteralKind::Int { empty_int: false },
        19 => LiteralKind::Int { empty_int: true },
        20 => LiteralKind::Float {
            empty_exponent: false,
        },
        21 => LiteralKind::Float {
            empty_exponent: true,
        },
        22 => LiteralKind::Char { terminated: false },
        23 => LiteralKind::Char { terminated: true },
        24 => LiteralKind::Byte { terminated: false },
        25 => LiteralKind::Byte { terminated: true },
        26 => LiteralKind::Str { terminated: false },
        27 => LiteralKind::Str { terminated: true },
        28 => LiteralKind::ByteStr { terminated: false },
        29 => LiteralKind::ByteStr { terminated: true },
        30 => LiteralKind::CStr { terminated: false },
        31 => LiteralKind::CStr { terminated: true },
        32 => LiteralKind::RawStr { valid: false },
        33 => LiteralKind::RawStr { valid: true },
        34 => LiteralKind::RawByteStr { valid: false },
        35 => LiteralKind::RawByteStr { valid: true },
        36 => LiteralKind::RawCStr { valid: false },
        37 => LiteralKind::RawCStr { valid: true },
        _ => unreachable(),
    }
}

fn punctuation(n: u32) -> RawKind
    requires { (42 ≤ n) × (n ≤ 68) }
    ensures { kind_number result ≡ n }
{
    match n {
        42 => RawKind::Semi,
        43 => RawKind::Comma,
        44 => RawKind::Dot,
        45 => RawKind::OpenParen,
        46 => RawKind::CloseParen,
        47 => RawKind::OpenBrace,
        48 => RawKind::CloseBrace,
        49 => RawKind::OpenBracket,
        50 => RawKind::CloseBracket,
        51 => RawKind::At,
        52 => RawKind::Pound,
        53 => RawKind::Tilde,
        54 => RawKind::Question,
        55 => RawKind::Colon,
        56 => RawKind::Dollar,
        57 => RawKind::Eq,
        58 => RawKind::Bang,
        59 => RawKind::Lt,
        60 => RawKind::Gt,
        61 => RawKind::Minus,
        62 => RawKind::And,
        63 => RawKind::Or,
        64 => RawKind::Plus,
        65 => RawKind::Star,
        66 => RawKind::Slash,
        67 => RawKind::Caret,
        68 => RawKind::Percent,
        _ => unreachable(),
    }
}

pub fn escape_error(n: u32) -> Option<EscapeError>
    ensures { MatchOption result (22 < n) (λ e. fault_number e ≡ n) }
{
    let error = match n {
        0 => EscapeError::ZeroChars,
        1 => EscapeError::MoreThanOneChar,
        2 => EscapeError::LoneSlash,
        3 => EscapeError::InvalidEscape,
        4 => EscapeError::BareCarriageReturn,
        5 => EscapeError::BareCarriageReturnInRawString,
        6 => EscapeError::EscapeOnlyChar,
        7 => EscapeError::TooShortHexEscape,
        8 => EscapeError::InvalidCharInHexEscape,
        9 => EscapeError::OutOfRangeHexEscape,
        10 => EscapeError::NoBraceInUnicodeEscape,
        11 => EscapeError::InvalidCharInUnicodeEscape,
        12 => EscapeError::EmptyUnicodeEscape,
        13 => EscapeError::UnclosedUnicodeEscape,
        14 => EscapeError::LeadingUnderscoreUnicodeEscape,
        15 => EscapeError::OverlongUnicodeEscape,
        16 => EscapeError::LoneSurrogateUnicodeEscape,
        17 => EscapeError::OutOfRangeUnicodeEscape,
        18 => EscapeError::UnicodeEscapeInByte,
        19 => EscapeError::NonAsciiCharInByte,
        20 => EscapeError::NulInCStr,
        21 => EscapeError::UnskippedWhitespaceWarning,
        22 => EscapeError::MultipleSkippedLinesWarning,
        _ => return None,
    };
    Some(error)
}
