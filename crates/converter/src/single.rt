// Scripts that are one token.
ghost use Rattle.std.specs.Prelude.{◌≡◌, ◌<◌, ◌≤◌, true, MatchResult};
ghost use Rattle.raw.specs.Answers.{begins};
ghost use Rattle.syntax_kind.specs.Editions.{edition_number};
ghost use Rattle.converter.specs.Codes.{said, messages};
ghost use Rattle.converter.specs.Meaning.{means};
ghost use Rattle.converter.specs.Single.{single, single_answer, whole, last_of, Single};

use crate::complaint::{Complaint, complaint_of, is_builtin, unknown_prefix};
use crate::extend::{raw_token_at, token_at};
use crate::faults::Faults;
use crate::kind::kind_of;
use crate::message::Message;
use crate::messages::{Mode, err_to_msg};
use crate::refusal::Refusal;
use crate::said::Said;
use raw::RawSource;
use syntax_kind::Edition;

// The kind of the one token that the script is, with the last error code, if any. Neither shebang nor frontmatter is looked for.
// Both are numbers, as in the columns, and so is the edition, which is refused where there is none.
pub fn single_token<S: RawSource>(
    source: &S,
    edition: u8,
) -> Result<Option<(u16, Option<u16>)>, Refusal>
    ensures value { result ≡ single_answer (means S.RawSource source.now) edition }
    ensures alone { MatchResult result (λ answer. Single (means S.RawSource source.now) edition answer) (λ _. 3 < edition) }
{
    Ok(single(source, Edition::try_from(edition)?))
}

fn single<S: RawSource>(source: &S, edition: Edition) -> Option<(u16, Option<u16>)>
    ensures { result ≡ single (means S.RawSource source.now) (edition_number edition) }
{
    if !is_whole(source, edition) {
        return None;
    }
    let script = source.script();
    let bytes = script.bytes();
    let token = token_at(source, edition, 0);
    let end = token.len as usize;
    let text = &bytes[0..end];
    // No token stands before it.
    let complaint = match complaint_of(token.kind) {
        Complaint::Prefix if is_builtin(text) => Complaint::Silent,
        Complaint::Prefix => unknown_prefix(false),
        other => other,
    };
    Some((
        kind_of(edition, text, token.kind),
        last_code(source, complaint),
    ))
}

// The code of the last message that there is of the token at the script's start.
fn last_code<S: RawSource>(source: &S, complaint: Complaint) -> Option<u16>
    requires { begins (S.RawSource.script source.now) 0 ≡ true }
    ensures { result ≡ last_of (said (S.RawSource.faults source.now 0) complaint) }
{
    match complaint {
        Complaint::Every(mode) => last_message(Faults::of(source, 0), mode),
        other => Said::of(source, 0, other).last().map(Message::code),
    }
}

// The last of many: a literal may have a fault for each of its bytes. In a loop over the faults alone, what the source
// looks up alike for each of them is looked up once.
fn last_message<S: RawSource>(faults: Faults<'_, S>, mode: Mode) -> Option<u16>
    ensures { result ≡ last_of (messages mode faults.entry) }
{
    let mut last = None;
    for fault in faults {
        last = err_to_msg(fault, mode).map(Message::code).or(last);
    }
    last
}

// Whether the raw token at the script's start is the whole script, and the edition cuts nothing off.
fn is_whole<S: RawSource>(source: &S, edition: Edition) -> bool
    ensures value { result ≡ whole (means S.RawSource source.now) (edition_number edition) }
    ensures begins { result ≡ true → begins (S.RawSource.script source.now) 0 ≡ true }
{
    let script = source.script();
    let len = script.bytes().len();
    if len == 0 {
        return false;
    }
    raw_token_at(source, 0).len as usize == len && token_at(source, edition, 0).len as usize == len
}
