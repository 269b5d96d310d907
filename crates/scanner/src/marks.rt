// The marks: characters that are tokens of their own.
ghost use Rattle.std.specs.Prelude.{◌≡◌};
ghost use Rattle.scanner.specs.Classes.{mark_kind};

use raw::RawKind;

pub(crate) fn mark_kind(byte: u8) -> RawKind
    ensures { result ≡ mark_kind byte }
{
    match byte as char {
        ';' => RawKind::Semi,
        ',' => RawKind::Comma,
        '.' => RawKind::Dot,
        '(' => RawKind::OpenParen,
        ')' => RawKind::CloseParen,
        '{' => RawKind::OpenBrace,
        '}' => RawKind::CloseBrace,
        '[' => RawKind::OpenBracket,
        ']' => RawKind::CloseBracket,
        '@' => RawKind::At,
        '#' => RawKind::Pound,
        '~' => RawKind::Tilde,
        '?' => RawKind::Question,
        ':' => RawKind::Colon,
        '$' => RawKind::Dollar,
        '=' => RawKind::Eq,
        '!' => RawKind::Bang,
        '<' => RawKind::Lt,
        '>' => RawKind::Gt,
        '-' => RawKind::Minus,
        '&' => RawKind::And,
        '|' => RawKind::Or,
        '+' => RawKind::Plus,
        '*' => RawKind::Star,
        '/' => RawKind::Slash,
        '^' => RawKind::Caret,
        '%' => RawKind::Percent,
        _ => RawKind::Unknown,
    }
}
