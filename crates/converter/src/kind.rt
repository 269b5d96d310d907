// The kind of a token.
ghost use Rattle.std.specs.Prelude.{◌≡◌};
ghost use Rattle.syntax_kind.specs.Editions.{edition_number};
ghost use Rattle.converter.specs.Kinds.{comment_kind, name_kind, literal_kind, kind_of};

use raw::{DocStyle, LiteralKind, RawKind};
use syntax_kind::{Edition, kinds};

pub(crate) fn kind_of(edition: Edition, text: &[u8], kind: RawKind) -> u16
    ensures { result ≡ kind_of (edition_number edition) text.now kind }
{
    match kind {
        RawKind::LineComment { doc_style } | RawKind::BlockComment { doc_style, .. } =>
            comment_kind(doc_style),
        RawKind::Frontmatter { .. } => kinds::FRONTMATTER,
        RawKind::Whitespace => kinds::WHITESPACE,
        RawKind::Ident => name_kind(edition, text),
        RawKind::InvalidIdent | RawKind::RawIdent | RawKind::UnknownPrefix => kinds::IDENT,
        RawKind::Literal { kind } => literal_kind(kind),
        RawKind::Lifetime { .. } | RawKind::UnknownPrefixLifetime | RawKind::RawLifetime =>
            kinds::LIFETIME_IDENT,
        RawKind::Semi => kinds::SEMICOLON,
        RawKind::Comma => kinds::COMMA,
        RawKind::Dot => kinds::DOT,
        RawKind::OpenParen => kinds::L_PAREN,
        RawKind::CloseParen => kinds::R_PAREN,
        RawKind::OpenBrace => kinds::L_CURLY,
        RawKind::CloseBrace => kinds::R_CURLY,
        RawKind::OpenBracket => kinds::L_BRACK,
        RawKind::CloseBracket => kinds::R_BRACK,
        RawKind::At => kinds::AT,
        RawKind::Pound => kinds::POUND,
        RawKind::Tilde => kinds::TILDE,
        RawKind::Question => kinds::QUESTION,
        RawKind::Colon => kinds::COLON,
        RawKind::Dollar => kinds::DOLLAR,
        RawKind::Eq => kinds::EQ,
        RawKind::Bang => kinds::BANG,
        RawKind::Lt => kinds::L_ANGLE,
        RawKind::Gt => kinds::R_ANGLE,
        RawKind::Minus => kinds::MINUS,
        RawKind::And => kinds::AMP,
        RawKind::Or => kinds::PIPE,
        RawKind::Plus => kinds::PLUS,
        RawKind::Star => kinds::STAR,
        RawKind::Slash => kinds::SLASH,
        RawKind::Caret => kinds::CARET,
        RawKind::Percent => kinds::PERCENT,
        RawKind::GuardedStrPrefix | RawKind::Unknown => kinds::ERROR,
        RawKind::Eof => kinds::EOF,
    }
}

fn comment_kind(doc_style: Option<DocStyle>) -> u16
    ensures { result ≡ comment_kind doc_style }
{
    match doc_style {
        None => kinds::COMMENT,
        Some(DocStyle::Outer) => kinds::OUTER_DOC_COMMENT,
        Some(DocStyle::Inner) => kinds::INNER_DOC_COMMENT,
    }
}

fn name_kind(edition: Edition, text: &[u8]) -> u16
    ensures { result ≡ name_kind (edition_number edition) text.now }
{
    match text {
        [b'_'] => kinds::UNDERSCORE,
        _ => edition.keyword(text).unwrap_or(kinds::IDENT),
    }
}

fn literal_kind(kind: LiteralKind) -> u16
    ensures { result ≡ literal_kind kind }
{
    match kind {
        LiteralKind::Int { .. } => kinds::INT_NUMBER,
        LiteralKind::Float { .. } => kinds::FLOAT_NUMBER,
        LiteralKind::Char { .. } => kinds::CHAR,
        LiteralKind::Byte { .. } => kinds::BYTE,
        LiteralKind::Str { .. } | LiteralKind::RawStr { .. } => kinds::STRING,
        LiteralKind::ByteStr { .. } | LiteralKind::RawByteStr { .. } => kinds::BYTE_STRING,
        LiteralKind::CStr { .. } | LiteralKind::RawCStr { .. } => kinds::C_STRING,
    }
}
