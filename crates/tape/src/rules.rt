// The rules that marks keep, as tests.
ghost use Rattle.std.specs.Prelude.{◌≡◌, ◌≤◌, length};
ghost use Rattle.raw.specs.Forms.{form};
ghost use Rattle.raw.specs.Laws.{spelled, keeps, shebang_keeps};
ghost use Rattle.tape.specs.Rules.{token_of, fault_count, lawful, lawful_count};

use crate::mark::Mark;
use raw::{LiteralKind, RawKind, begins};
use script::Script;

// Whether a shebang line may have the length.
pub(crate) fn shebang_keeps(script: &Script<'_>, len: usize) -> bool
    ensures { result ≡ shebang_keeps script.now.bytes.now len }
{
    len == 0 || (2 <= len && script.is_boundary(len))
}

// Whether the text is spelled as the kind says.
fn spelled(text: &[u8], kind: RawKind) -> bool
    ensures { result ≡ spelled text.now 0 (length text.now) (form kind) }
{
    match kind {
        RawKind::GuardedStrPrefix => matches!(text, [0..=127, 0..=127]),
        RawKind::Literal {
            kind: LiteralKind::CStr { .. },
        } => text.starts_with(b"c"),
        RawKind::Literal {
            kind: LiteralKind::RawCStr { .. },
        } => text.starts_with(b"cr"),
        RawKind::RawLifetime => text.starts_with(b"'r"),
        RawKind::Eof => false,
        _ => true,
    }
}

// Whether the mark's token may begin at its place.
fn keeps(script: &Script<'_>, mark: &Mark) -> bool
    requires { mark.now.faults_from ≤ mark.now.faults_to }
    ensures { result ≡ keeps script.now.bytes.now mark.now.place (token_of mark.now) (fault_count mark.now) }
{
    let place = mark.place as usize;
    let end = place + mark.len as usize;
    let Some(text) = script.bytes().get(place..end) else {
        return false;
    };
    if text.is_empty() || !script.is_boundary(end) {
        return false;
    }
    spelled(text, mark.kind) && mark.faults_to - mark.faults_from <= mark.len
}

// Whether the mark keeps the rules beside a fault column of that length, at the place `least` or later.
fn lawful(script: &Script<'_>, column: usize, least: usize, mark: &Mark) -> bool
    ensures { result ≡ lawful script.now.bytes.now column least mark.now }
{
    let place = mark.place as usize;
    begins(script, place)
        && least <= place
        && mark.faults_from <= mark.faults_to
        && mark.faults_to as usize <= column
        && keeps(script, mark)
}

// How many marks at the front keep the rules.
pub(crate) fn lawful_count(script: &Script<'_>, column: usize, marks: &[Mark]) -> usize
    ensures { result ≡ lawful_count script.now.bytes.now column marks.now }
{
    let mut least = 0;
    for (number, mark) in marks.iter().enumerate() {
        if !lawful(script, column, least, mark) {
            return number;
        }
        least = mark.place as usize + 1;
    }
    marks.len()
}
