// Comments, as the Rust Reference's grammar has them.
ghost use Rattle.std.specs.Prelude.{◌≡◌, ℕ, ◌≤◌, true, length, drop, Some, IfSome};
ghost use Rattle.scanner.specs.Grammar.{Form, slash, star, begins};
ghost use Rattle.scanner.specs.Comments.{closing, line_style, block_style, line_token, block_token, comment};
ghost use Rattle.scanner.specs.Reading.{Stands, Reading, token_of};

use crate::classes::run_len;
use crate::rest::Rest;
use raw::{DocStyle, RawKind, RawToken};
use script::Script;

// `///` is an outer doc comment, but `////` is none.
fn line_style(text: &[u8]) -> Option<DocStyle>
    ensures { result ≡ line_style text.now }
{
    match text {
        [_, _, b'!', ..] => Some(DocStyle::Inner),
        [_, _, b'/', b'/', ..] => None,
        [_, _, b'/', ..] => Some(DocStyle::Outer),
        _ => None,
    }
}

// `/**` is an outer doc comment, but `/***` and `/**/` are none.
fn block_style(text: &[u8]) -> Option<DocStyle>
    ensures { result ≡ block_style text.now }
{
    match text {
        [_, _, b'!', ..] => Some(DocStyle::Inner),
        [_, _, b'*', b'*' | b'/', ..] => None,
        [_, _, b'*', ..] => Some(DocStyle::Outer),
        _ => None,
    }
}

// How many bytes stand up to the end of a block comment that was opened before; `None` where it stays open. A step hangs
// on two bytes and on the depth, so it is a loop over what is left.
fn closing(text: &[u8]) -> Option<usize>
    ensures value { result ≡ closing 0 text.now }
    ensures within { IfSome result (λ n. n ≤ length text.now) }
{
    let mut rest = text;
    let mut depth: usize = 0;
    while let [first, tail @ ..] = rest {
        rest = match (*first, tail) {
            (b'*', [b'/', after @ ..]) if depth == 0 => return Some(text.len() - after.len()),
            (b'*', [b'/', after @ ..]) => {
                depth -= 1;
                after
            }
            (b'/', [b'*', after @ ..]) => {
                depth += 1;
                after
            }
            _ => tail,
        };
    }
    None
}

impl Rest<'_> {
    fn line_comment(&self) -> RawToken
        ensures { result ≡ line_token self.now.bytes.now }
    {
        let doc_style = line_style(self.bytes);
        let len = run_len(self.bytes, |b| b != b'\n');
        self.span(RawKind::LineComment { doc_style }, len)
    }

    // An open comment runs to the end of the script.
    fn block_comment(&self, inside: &[u8]) -> RawToken
        requires opened { begins slash star self.now.bytes.now ≡ true }
        requires inside { inside.now ≡ drop 2 self.now.bytes.now }
        ensures { result ≡ block_token self.now.bytes.now }
    {
        let doc_style = block_style(self.bytes);
        let end = closing(inside);
        let terminated = end.is_some();
        let kind = RawKind::BlockComment {
            doc_style,
            terminated,
        };
        self.span(kind, end.map_or(self.bytes.len(), |len| len + 2))
    }

    // The comment that the bytes begin with, if they do.
    pub(crate) fn comment(&self) -> Option<RawToken>
        ensures value { result ≡ comment self.now.bytes.now }
        ensures grammar { Reading self.now.bytes.now result }
        ensures only { (f : Form) (n : ℕ) → Stands f n self.now.bytes.now → result ≡ Some (token_of f n) }
    {
        match self.bytes {
            [b'/', b'/', ..] => Some(self.line_comment()),
            [b'/', b'*', inside @ ..] => Some(self.block_comment(inside)),
            _ => None,
        }
    }
}

// The comment that begins at the place, if one does.
pub fn comment_at(script: &Script<'_>, place: usize) -> Option<RawToken>
    ensures value { result ≡ comment (drop place script.now.bytes.now) }
    ensures grammar { Reading (drop place script.now.bytes.now) result }
    ensures only { (f : Form) (n : ℕ) → Stands f n (drop place script.now.bytes.now) → result ≡ Some (token_of f n) }
{
    Rest::at(script, place)?.comment()
}
