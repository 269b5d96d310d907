// The token that begins at a place of a script.
ghost use Rattle.std.specs.Prelude.{◌≡◌, ◌+◌, ◌≤◌, true, false, length, drop, MatchOption};
ghost use Rattle.std.specs.List.{prefix_len};
ghost use Rattle.raw.specs.Answers.{token_answer};
ghost use Rattle.scanner.specs.Classes.{digit, word, run_to};
ghost use Rattle.scanner.specs.Tokens.{point, number_to, word_at, token_at};

use crate::classes::{is_digit, is_letter, is_word, run_len};
use crate::marks::mark_kind;
use crate::rest::Rest;
use raw::{LiteralKind, RawKind, RawToken, Refusal};
use script::white_end;

// What stands behind the point of a float: a `.` that precedes neither `.`, a letter nor `_`.
fn fraction(text: &[u8]) -> Option<&[u8]>
    ensures { MatchOption result (point text.now ≡ false) (λ digits. (point text.now ≡ true) × (digits.now ≡ drop 1 text.now)) }
{
    match text {
        [b'.', next, ..] if *next == b'.' || is_letter(*next) => None,
        [b'.', digits @ ..] => Some(digits),
        _ => None,
    }
}

impl Rest<'_> {
    // The digits that stand there, and with a point those behind it.
    fn number(&self) -> RawToken
        ensures { result ≡ number_to self.now.script.bytes.now self.now.place (run_to digit self.now.script.bytes.now self.now.place) }
    {
        let len = run_len(self.bytes, is_digit);
        match fraction(&self.bytes[len..]) {
            Some(digits) => {
                let kind = LiteralKind::Float {
                    empty_exponent: false,
                };
                self.span(
                    RawKind::Literal { kind },
                    len + 1 + run_len(digits, is_digit),
                )
            }
            None => {
                let kind = LiteralKind::Int { empty_int: false };
                self.span(RawKind::Literal { kind }, len)
            }
        }
    }

    // A word, a number, a mark or an unknown character.
    fn word(&self) -> Result<RawToken, Refusal>
        ensures { result ≡ token_answer self.now.script.bytes.now (word_at self.now.script.bytes.now) self.now.place }
    {
        match self.bytes {
            [] => Err(Refusal::NoToken),
            [byte, ..] if is_letter(*byte) => {
                Ok(self.span(RawKind::Ident, run_len(self.bytes, is_word)))
            }
            [byte, ..] if is_digit(*byte) => Ok(self.number()),
            [byte, ..] => RawToken::character(&self.script, self.place, mark_kind(*byte)),
        }
    }

    // Only a character has to be asked whether it begins there: white space, comments, words and numbers do not begin
    // inside one.
    pub(crate) fn token(&self) -> Result<RawToken, Refusal>
        ensures { result ≡ token_answer self.now.script.bytes.now (token_at self.now.script.bytes.now) self.now.place }
    {
        let end = white_end(self.script.bytes(), self.place);
        if self.place < end {
            return Ok(self.span(RawKind::Whitespace, end - self.place));
        }
        match self.comment() {
            Some(comment) => Ok(comment),
            None => self.word(),
        }
    }
}
