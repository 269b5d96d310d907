// The reader of a script, and the search for the fence that closes a frontmatter.
ghost use Rattle.std.specs.Prelude.{◌≡◌, ℕ, ◌+◌, ◌<◌, ◌≤◌, true, length, IfSome};
ghost use Rattle.frontmatter.specs.Lines.{line_feed, at, dash_end, blank_end, closes_at};
ghost use Rattle.frontmatter.specs.Closes.{trial_of, close_of};

use crate::find::{dash_end, find_back};
use crate::source::Span;
use script::white_end;

// The bytes of a script, and the place within them up to which they have been read.
#[derive(Drop)]
pub(crate) struct Reader<'a> {
    pub bytes: &'a [u8],
    pub at: usize,
    ghost within: { at ≤ length bytes.now },
}

// The LF before a closing fence, and how many dashes were asked for there.
#[derive(Clone, Copy)]
pub(crate) struct Close {
    pub at: usize,
    pub dashes: usize,
}

// Holds the reader's place during a trial, and puts it back when the trial ends: so it is within the script again.
struct Trial<'r> {
    at: &'r mut usize,
    began: usize,
}

impl Drop for Trial<'_> {
    fn drop(self)
        ensures back { self.exit.0.now ≡ self.entry.began }
    {
        let Trial { at, began } = self;
        *at = began;
    }
}

impl Reader<'_> {
    // Reads the dashes at the place.
    pub(crate) fn dashes(&mut self) -> Span
        ensures start { result.start ≡ self.old.at }
        ensures end { result.end ≡ dash_end self.old.bytes.now self.old.at }
        ensures low { result.start ≤ result.end }
        ensures after { self.new.at ≡ result.end }
        ensures bytes { self.new.bytes.now ≡ self.old.bytes.now }
    {
        let start = self.at;
        self.at = dash_end(self.bytes, start);
        Span {
            start,
            end: self.at,
        }
    }

    // Goes past the lines at the place that hold only white space.
    pub(crate) fn skip_blank_lines(&mut self)
        ensures after { self.new.at ≡ blank_end self.old.bytes.now self.old.at }
        ensures low { self.old.at ≤ self.new.at }
        ensures bytes { self.new.bytes.now ≡ self.old.bytes.now }
    {
        let end = white_end(self.bytes, self.at);
        self.at = find_back(self.bytes, self.at, end, |byte| byte == b'\n');
    }

    // The first LF from the place on that has as many dashes after it, where there is one. The reader stays.
    // No LF from there on has more than `most` dashes after it.
    #[inline(never)]
    fn trial(&mut self, dashes: usize, most: usize) -> Option<usize>
        requires { (k : ℕ) → self.old.at ≤ k → k < length self.old.bytes.now → at line_feed self.old.bytes.now k ≡ true → dash_end self.old.bytes.now (k + 1) ≤ k + 1 + most }
        ensures value { result ≡ trial_of self.old.bytes.now dashes self.old.at }
        ensures after { self.new.at ≡ self.old.at }
        ensures bytes { self.new.bytes.now ≡ self.old.bytes.now }
    {
        let bytes = self.bytes;
        let began = self.at;
        let trial = Trial {
            at: &mut self.at,
            began,
        };
        if most < dashes {
            return None;
        }
        // The reader's own place moves, and the guard puts it back: no iterator over places would.
        while *trial.at < bytes.len() {
            if closes(bytes, *trial.at, dashes) {
                return Some(*trial.at);
            }
            *trial.at += 1;
        }
        None
    }

    // The closing fence: with as many dashes, or else with the most dashes that any line from the place on begins with.
    pub(crate) fn find_close(&mut self, dashes: usize) -> Option<Close>
        ensures value { result ≡ close_of self.old.bytes.now self.old.at dashes }
        ensures within { IfSome result (λ c. c.at + 1 + c.dashes ≤ length self.old.bytes.now) }
        ensures after { self.new.at ≡ self.old.at }
        ensures bytes { self.new.bytes.now ≡ self.old.bytes.now }
    {
        let most = most_dashes(self.bytes, self.at);
        for n in (1..=dashes).rev() {
            if let Some(at) = self.trial(n, most) {
                return Some(Close { at, dashes: n });
            }
        }
        None
    }
}

// Whether an LF stands at the place, with as many dashes after it.
fn closes(bytes: &[u8], place: usize, dashes: usize) -> bool
    requires { place < length bytes.now }
    ensures { result ≡ closes_at bytes.now dashes place }
{
    if bytes[place] != b'\n' {
        return false;
    }
    let end = dash_end(bytes, place + 1);
    dashes <= end - (place + 1)
}

// A number of dashes that no LF from the place on has more than after it: it tells which trials cannot succeed.
#[inline(never)]
fn most_dashes(bytes: &[u8], from: usize) -> usize
    ensures { (k : ℕ) → from ≤ k → k < length bytes.now → at line_feed bytes.now k ≡ true → dash_end bytes.now (k + 1) ≤ k + 1 + result }
{
    // The greatest of a chain of places is not known to be above each of them: no proof closed.
    let mut most = 0;
    for place in from..bytes.len() {
        if bytes[place] == b'\n' {
            most = most.max(dash_end(bytes, place + 1) - (place + 1));
        }
    }
    most
}
