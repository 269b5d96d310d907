// The frontmatter of a script, rule by rule.
ghost use Rattle.std.specs.Prelude.{◌≡◌, ◌+◌, ◌<◌, ◌≤◌, length, None, Err, Result};
ghost use Rattle.frontmatter.specs.Lines.{line_end, next_line, without_cr};
ghost use Rattle.frontmatter.specs.Parsing.{parsing, Parses, PlacedIn};
ghost use Rattle.frontmatter.specs.Placed.{Placed};
ghost use Rattle.frontmatter.specs.Reads.{Reads};
ghost use Rattle.frontmatter.specs.Parsed.{Answer, span, is_shebang, shebang, body_start, text, close_text, content, closed, fault, opened, opening, parsed};

use crate::find::{find, find_back, line_end};
use crate::reader::Reader;
use crate::source::{Failure, Fault, FaultKind, ScriptSource, Span};
use script::{Script, white_end};

// The line that begins a frontmatter, and what stood before it.
#[derive(Clone, Copy)]
struct Opening {
    shebang: Option<Span>,
    fence: Span,
    info: Option<Span>,
    // The place of its LF.
    end: usize,
}

// Whether the script begins with a shebang. `#![` begins an attribute.
fn is_shebang(bytes: &[u8]) -> bool
    ensures { result ≡ is_shebang bytes.now }
{
    matches!(bytes, [b'#', b'!', ..]) && bytes.get(white_end(bytes, 2)) != Some(&b'[')
}

// Where the next line begins; the script's end where there is none.
fn next_line(bytes: &[u8], from: usize) -> usize
    requires { from ≤ length bytes.now }
    ensures value { result ≡ next_line bytes.now from }
    ensures low { from ≤ result }
    ensures high { result ≤ length bytes.now }
{
    (line_end(bytes, from) + 1).min(bytes.len())
}

// The end of the text from `from` on that ends at `end`, without one final CR.
fn without_cr(bytes: &[u8], from: usize, end: usize) -> usize
    requires { (from ≤ end) × (end ≤ length bytes.now) }
    ensures value { result ≡ without_cr bytes.now from end }
    ensures low { from ≤ result }
    ensures high { result ≤ end }
{
    match &bytes[from..end] {
        [.., b'\r'] => end - 1,
        _ => end,
    }
}

// The text from `from` up to `end` without blanks at both ends, if any is left.
fn trimmed(bytes: &[u8], from: usize, end: usize) -> Option<Span>
    requires { (from ≤ end) × (end ≤ length bytes.now) }
    ensures { result ≡ text bytes.now from end }
{
    let is_text = |byte| byte != b' ' && byte != b'\t';
    let start = find(bytes, from, end, is_text);
    let end = find_back(bytes, from, end, is_text);
    (start < end).then_some(Span { start, end })
}

// The text on the closing line after its fence, which ends at `from`.
fn close_text(bytes: &[u8], from: usize) -> Option<Span>
    requires { from ≤ length bytes.now }
    ensures { result ≡ close_text bytes.now from }
{
    let end = line_end(bytes, from);
    if end < bytes.len() {
        trimmed(bytes, from, without_cr(bytes, from, end))
    } else {
        trimmed(bytes, from, end)
    }
}

impl Reader<'_> {
    // The shebang, and where the script goes on after it.
    fn read_shebang(&mut self) -> Option<Span>
        requires { self.old.at ≡ 0 }
        ensures value { result ≡ shebang self.old.bytes.now }
        ensures after { self.new.at ≡ body_start self.old.bytes.now }
        ensures bytes { self.new.bytes.now ≡ self.old.bytes.now }
    {
        if !is_shebang(self.bytes) {
            return None;
        }
        let end = next_line(self.bytes, 0);
        self.at = end;
        Some(Span { start: 0, end })
    }

    // The reader stands after the closing line. Past blank lines, dashes open a second fence.
    fn read_content(&mut self, opening: Opening, close: Span) -> Result<ScriptSource, Fault>
        requires { opening.end < length self.old.bytes.now }
        ensures { result ≡ content self.old.bytes.now opening close self.old.at }
    {
        let content = Span {
            start: self.at,
            end: self.bytes.len(),
        };
        self.skip_blank_lines();
        let dashes = self.dashes();
        if dashes.start < dashes.end {
            return Err(Fault {
                kind: FaultKind::SecondFence,
                primary: dashes,
                open: opening.fence,
                close: Some(close),
            });
        }
        Ok(ScriptSource {
            shebang: opening.shebang,
            open: Some(opening.fence),
            info: opening.info,
            frontmatter: Some(Span {
                start: opening.end + 1,
                end: close.start,
            }),
            close: Some(close),
            content,
        })
    }

    // The reader stands after a closing fence with as many dashes as the opening one.
    fn read_close_line(&mut self, opening: Opening, close: Span) -> Result<ScriptSource, Fault>
        requires { (self.old.at ≡ close.end) × (opening.end < length self.old.bytes.now) }
        ensures { result ≡ closed self.old.bytes.now opening close }
    {
        let extra = self.dashes();
        if extra.start < extra.end {
            return Err(fault(FaultKind::MoreDashes, extra, opening.fence));
        }
        if let Some(text) = close_text(self.bytes, close.end) {
            return Err(fault(FaultKind::TextAfterClose, text, opening.fence));
        }
        self.at = next_line(self.bytes, close.end);
        self.read_content(opening, close)
    }

    // The reader stands after an opening fence of three dashes or more.
    fn read_fenced(&mut self, shebang: Option<Span>, fence: Span) -> Result<ScriptSource, Fault>
        requires { (self.old.at ≡ fence.end) × (fence.start ≤ fence.end) }
        ensures { result ≡ opened self.old.bytes.now shebang fence }
    {
        let bytes = self.bytes;
        let unclosed = fault(FaultKind::Unclosed, at_end(bytes), fence);
        let end = line_end(bytes, fence.end);
        if end == bytes.len() {
            return Err(unclosed);
        }
        let info = trimmed(bytes, fence.end, without_cr(bytes, fence.end, end));
        self.at = end;
        let found = self.find_close(fence.len()).ok_or(unclosed)?;
        let close = Span {
            start: found.at + 1,
            end: found.at + 1 + found.dashes,
        };
        if found.dashes < fence.len() {
            return Err(fault(FaultKind::FewerDashes, close, fence));
        }
        self.at = close.end;
        let opening = Opening {
            shebang,
            fence,
            info,
            end,
        };
        self.read_close_line(opening, close)
    }

    // The reader stands after the dashes with which the first line that is not blank begins.
    fn read_opening(
        &mut self,
        shebang: Option<Span>,
        body: usize,
        fence: Span,
    ) -> Result<ScriptSource, Fault>
        requires { (self.old.at ≡ fence.end) × (fence.start ≤ fence.end) }
        ensures { result ≡ opening self.old.bytes.now shebang body fence }
    {
        match fence.len() {
            0 => Ok(ScriptSource {
                shebang,
                open: None,
                info: None,
                frontmatter: None,
                close: None,
                content: Span {
                    start: body,
                    end: self.bytes.len(),
                },
            }),
            1 | 2 => Err(fault(FaultKind::TooFewDashes, at_end(self.bytes), fence)),
            _ => self.read_fenced(shebang, fence),
        }
    }
}

// A fault with no closing fence to show.
fn fault(kind: FaultKind, primary: Span, open: Span) -> Fault
    ensures { Err result ≡ fault kind primary «open» None }
{
    Fault {
        kind,
        primary,
        open,
        close: None,
    }
}

impl ScriptSource {
    // The parts of the script that the bytes are.
    pub fn parse(bytes: &[u8]) -> Result<ScriptSource, Failure>
        ensures value { result ≡ parsing bytes.now }
        ensures parses { Parses bytes.now result }
        ensures only { (a : Result ScriptSource Failure) → Parses bytes.now a → a ≡ result }
        ensures placed { PlacedIn bytes.now result }
    {
        let script = Script::admit(bytes)?;
        Ok(ScriptSource::of_script(&script)?)
    }

    // The parts of an admitted script.
    pub fn of_script(script: &Script) -> Result<ScriptSource, Fault>
        ensures value { result ≡ parsed script.now.bytes.now }
        ensures reads { Reads script.now.bytes.now result }
        ensures only { (a : Answer) → Reads script.now.bytes.now a → a ≡ result }
        ensures placed { Placed script.now.bytes.now result }
    {
        read_script(script.bytes())
    }
}

fn read_script(bytes: &[u8]) -> Result<ScriptSource, Fault>
    ensures { result ≡ parsed bytes.now }
{
    let mut reader = Reader { bytes, at: 0 };
    let shebang = reader.read_shebang();
    let body = reader.at;
    reader.skip_blank_lines();
    let fence = reader.dashes();
    reader.read_opening(shebang, body, fence)
}

// The empty span at the script's end.
fn at_end(bytes: &[u8]) -> Span
    ensures { result ≡ span (length bytes.now) (length bytes.now) }
{
    Span {
        start: bytes.len(),
        end: bytes.len(),
    }
}
