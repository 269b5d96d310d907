// Which message a fault has.
ghost use Rattle.std.specs.Prelude.{◌≡◌};
ghost use Rattle.converter.specs.Message.{message_code};
ghost use Rattle.converter.specs.Messages.{message, invalid_escape, escape_only, non_ascii};
ghost use Rattle.converter.specs.Codes.{listed};

use crate::message::Message;
use raw::EscapeError;

// Which literal the fault stands in.
#[derive(Clone, Copy, Debug, PartialEq, Eq)]
pub(crate) enum Mode {
    Char,
    Byte,
    Str,
    ByteStr,
    CStr,
}

// The message of a fault; none where the message is empty.
pub(crate) fn err_to_msg(error: EscapeError, mode: Mode) -> Option<Message>
    ensures { listed result ≡ message mode error }
{
    Some(match error {
        EscapeError::LoneSlash
        | EscapeError::BareCarriageReturn
        | EscapeError::BareCarriageReturnInRawString
        | EscapeError::UnskippedWhitespaceWarning
        | EscapeError::MultipleSkippedLinesWarning => return None,
        EscapeError::InvalidEscape => invalid_escape(mode),
        EscapeError::EscapeOnlyChar => escape_only(mode),
        EscapeError::NonAsciiCharInByte => non_ascii(mode),
        EscapeError::ZeroChars => Message::ZeroChars,
        EscapeError::MoreThanOneChar => Message::MoreThanOneChar,
        EscapeError::TooShortHexEscape => Message::TooShortHexEscape,
        EscapeError::InvalidCharInHexEscape => Message::InvalidCharInHexEscape,
        EscapeError::OutOfRangeHexEscape => Message::OutOfRangeHexEscape,
        EscapeError::NoBraceInUnicodeEscape => Message::NoBraceInUnicodeEscape,
        EscapeError::InvalidCharInUnicodeEscape => Message::InvalidCharInUnicodeEscape,
        EscapeError::EmptyUnicodeEscape => Message::EmptyUnicodeEscape,
        EscapeError::UnclosedUnicodeEscape => Message::UnclosedUnicodeEscape,
        EscapeError::LeadingUnderscoreUnicodeEscape => Message::LeadingUnderscoreUnicodeEscape,
        EscapeError::OverlongUnicodeEscape => Message::OverlongUnicodeEscape,
        EscapeError::LoneSurrogateUnicodeEscape => Message::InvalidUnicodeEscape,
        EscapeError::OutOfRangeUnicodeEscape => Message::InvalidUnicodeEscape,
        EscapeError::UnicodeEscapeInByte => Message::UnicodeEscapeInByte,
        EscapeError::NulInCStr => Message::NulInCStr,
    })
}

fn invalid_escape(mode: Mode) -> Message
    ensures { message_code result ≡ invalid_escape mode }
{
    match mode {
        Mode::Byte | Mode::ByteStr => Message::UnknownByteEscape,
        Mode::Char | Mode::Str | Mode::CStr => Message::UnknownCharEscape,
    }
}

fn escape_only(mode: Mode) -> Message
    ensures { message_code result ≡ escape_only mode }
{
    match mode {
        Mode::Byte => Message::UnescapedByte,
        Mode::Char | Mode::Str | Mode::ByteStr | Mode::CStr => Message::UnescapedChar,
    }
}

fn non_ascii(mode: Mode) -> Message
    ensures { message_code result ≡ non_ascii mode }
{
    match mode {
        Mode::Byte => Message::NonAsciiCharInByte,
        Mode::ByteStr => Message::NonAsciiCharInByteStr,
        Mode::Char | Mode::Str | Mode::CStr => Message::NonAsciiCharInRawByteStr,
    }
}
