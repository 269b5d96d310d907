// What there is to say of a token.
ghost use Rattle.std.specs.Prelude.{◌≡◌, cond, codes};
ghost use Rattle.std.specs.Str.{bytes_eq};
ghost use Rattle.converter.specs.declared.complaint.Complaint.TheVariants.{Says};
ghost use Rattle.converter.specs.declared.message.Message.TheVariants.{UnknownPrefixNearString, UnknownPrefix};
ghost use Rattle.converter.specs.Codes.{say_if, literal_complaint, complaint_of};

use crate::message::Message;
use crate::messages::Mode;
use raw::{LiteralKind, RawKind};

#[derive(Clone, Copy, Debug, PartialEq, Eq)]
pub(crate) enum Complaint {
    Silent,
    // One message.
    Says(Message),
    // The message of the first fault.
    First(Mode),
    // Those of all faults.
    Every(Mode),
    // An unknown prefix: what is said of it hangs on the tokens before.
    Prefix,
}

pub(crate) fn complaint_of(kind: RawKind) -> Complaint
    ensures { result ≡ complaint_of kind }
{
    match kind {
        RawKind::BlockComment { terminated, .. } => say_if(
            !terminated,
            Message::UnterminatedBlockComment,
        ),
        RawKind::Frontmatter {
            has_invalid_preceding_whitespace: true,
            ..
        } => Complaint::Says(Message::InvalidFrontmatterWhitespace),
        RawKind::Frontmatter {
            invalid_infostring,
            ..
        } => say_if(invalid_infostring, Message::InvalidInfostring),
        RawKind::InvalidIdent => Complaint::Says(Message::InvalidIdent),
        RawKind::GuardedStrPrefix => Complaint::Says(Message::ReservedStringLiteral),
        RawKind::Literal { kind } => literal_complaint(kind),
        RawKind::Lifetime { starts_with_number } => say_if(
            starts_with_number,
            Message::LifetimeStartsWithNumber,
        ),
        RawKind::UnknownPrefixLifetime => Complaint::Says(Message::UnknownLifetimePrefix),
        RawKind::UnknownPrefix => Complaint::Prefix,
        _ => Complaint::Silent,
    }
}

fn literal_complaint(kind: LiteralKind) -> Complaint
    ensures { result ≡ literal_complaint kind }
{
    match kind {
        LiteralKind::Int { empty_int } => say_if(empty_int, Message::EmptyInt),
        LiteralKind::Float { empty_exponent } => say_if(empty_exponent, Message::EmptyExponent),
        LiteralKind::Char { terminated: true } => Complaint::First(Mode::Char),
        LiteralKind::Char { terminated: false } => Complaint::Says(Message::UnterminatedChar),
        LiteralKind::Byte { terminated: true } => Complaint::First(Mode::Byte),
        LiteralKind::Byte { terminated: false } => Complaint::Says(Message::UnterminatedByte),
        LiteralKind::Str { terminated: true } => Complaint::Every(Mode::Str),
        LiteralKind::Str { terminated: false } => Complaint::Says(Message::UnterminatedStr),
        LiteralKind::ByteStr { terminated: true } => Complaint::Every(Mode::ByteStr),
        LiteralKind::ByteStr { terminated: false } => Complaint::Says(Message::UnterminatedByteStr),
        LiteralKind::CStr { terminated: true } => Complaint::Every(Mode::CStr),
        LiteralKind::CStr { terminated: false } => Complaint::Says(Message::UnterminatedCStr),
        LiteralKind::RawStr { valid }
        | LiteralKind::RawByteStr { valid }
        | LiteralKind::RawCStr { valid } => { say_if(!valid, Message::InvalidRawString) }
    }
}

fn say_if(wrong: bool, message: Message) -> Complaint
    ensures { result ≡ say_if wrong message }
{
    if wrong {
        Complaint::Says(message)
    } else {
        Complaint::Silent
    }
}

// `builtin` is a prefix that the parser knows.
pub(crate) fn is_builtin(text: &[u8]) -> bool
    ensures { result ≡ bytes_eq text.now (codes "builtin") }
{
    text == b"builtin".as_slice()
}

// Another prefix may follow from a string that is likely unterminated.
pub(crate) fn unknown_prefix(near_string: bool) -> Complaint
    ensures { result ≡ cond near_string (Says UnknownPrefixNearString) (Says UnknownPrefix) }
{
    if near_string {
        Complaint::Says(Message::UnknownPrefixNearString)
    } else {
        Complaint::Says(Message::UnknownPrefix)
    }
}
