// Lexing as it goes on: the source and its edition, and the columns, written as far as lexing has come.
ghost use Rattle.std.specs.Prelude.{◌≡◌, ◌+◌, ◌-◌, ◌<◌, ◌≤◌, List, map, length, Some, slice_set};
ghost use Rattle.syntax_kind.specs.Editions.{edition_number};
ghost use Rattle.converter.specs.Codes.{settled};
ghost use Rattle.converter.specs.Columns.{held, put, progress, up_to, Reached, Room, Kept, EndsPast};
ghost use Rattle.converter.specs.Hints.{hint};
ghost use Rattle.converter.specs.Lexing.{lex_error, add_up_to, extend, extend_all, head_of};
ghost use Rattle.converter.specs.Meaning.{means};

use crate::complaint::{Complaint, complaint_of, is_builtin, unknown_prefix};
use crate::extend::token_at;
use crate::head::head_of;
use crate::hint::has_likely_unterminated_string;
use crate::kind::kind_of;
use crate::lexing::Counts;
use crate::progress::Progress;
use crate::said::Said;
use lexed_str::LexError;
use raw::RawSource;
use syntax_kind::Edition;
use syntax_kind::kinds::{EOF, FRONTMATTER, SHEBANG};

#[derive(Drop)]
pub(crate) struct Converter<'a, S: RawSource> {
    source: &'a S,
    edition: Edition,
    kinds: &'a mut [u16],
    starts: &'a mut [u32],
    errors: &'a mut [LexError],
    so_far: Progress,
    ghost reached: { Reached (S.RawSource.script source.now) so_far },
    ghost room: { Room (length (S.RawSource.script source.now)) kinds.now starts.now errors.now },
}

impl<'a, S: RawSource> Converter<'a, S> {
    // Not above: the file names the struct, whose ghost fields read the lines there.
    ghost use Rattle.converter.specs.Loans.{Lent, StillLent};

    pub(crate) fn new(
        source: &'a S,
        edition: Edition,
        kinds: &'a mut [u16],
        starts: &'a mut [u32],
        errors: &'a mut [LexError],
    ) -> Converter<'a, S>
        requires { Room (length (S.RawSource.script source.now)) kinds.old starts.old errors.old }
        ensures same { Lent source.now edition kinds.entry.ghost_name starts.entry.ghost_name errors.entry.ghost_name result }
        ensures columns { (result.kinds.now ≡ kinds.old) × (result.starts.now ≡ starts.old) × (result.errors.now ≡ errors.old) }
        ensures start { result.so_far ≡ progress 0 0 0 }
    {
        Converter {
            source,
            edition,
            kinds,
            starts,
            errors,
            so_far: Progress {
                tokens: 0,
                errors: 0,
                place: 0,
            },
        }
    }

    // One token more, up to `end`.
    fn push(&mut self, kind: u16, end: usize)
        requires { EndsPast (S.RawSource.script self.old.source.now) self.old.so_far.place (Some end) }
        ensures same { StillLent self.old self.new }
        ensures kinds { self.new.kinds.now ≡ slice_set self.old.kinds.now self.old.so_far.tokens kind }
        ensures starts { self.new.starts.now ≡ slice_set self.old.starts.now self.old.so_far.tokens self.old.so_far.place }
        ensures errors { self.new.errors.now ≡ self.old.errors.now }
        ensures so_far { self.new.so_far ≡ progress (self.old.so_far.tokens + 1) self.old.so_far.errors end }
    {
        self.kinds[self.so_far.tokens] = kind;
        self.starts[self.so_far.tokens] = self.so_far.place as u32;
        self.so_far.tokens += 1;
        self.so_far.place = end;
    }

    // Writes what is said of the token.
    fn write_errors(&mut self, token: u32, said: Said<'_, S>)
        requires { self.old.so_far.errors + length said ≤ self.old.so_far.place }
        ensures same { StillLent self.old self.new }
        ensures kinds { self.new.kinds.now ≡ self.old.kinds.now }
        ensures starts { self.new.starts.now ≡ self.old.starts.now }
        ensures errors { self.new.errors.now ≡ put self.old.so_far.errors (map (lex_error token) said.entry) self.old.errors.now }
        ensures so_far { self.new.so_far ≡ progress self.old.so_far.tokens (self.old.so_far.errors + length said.entry) self.old.so_far.place }
    {
        for message in said {
            self.errors[self.so_far.errors] = LexError {
                token,
                code: message.code(),
            };
            self.so_far.errors += 1;
        }
    }

    // What there is to say of an unknown prefix hangs on the tokens before.
    fn settle(&self, complaint: Complaint, text: &[u8]) -> Complaint
        ensures { result ≡ settled (hint (S.RawSource.script self.now.source.now) self.now.kinds.now self.now.starts.now 5 self.now.so_far.tokens self.now.so_far.place) text.now complaint }
    {
        match complaint {
            // Told first: the strings before are read only where they matter.
            Complaint::Prefix if is_builtin(text) => Complaint::Silent,
            Complaint::Prefix => unknown_prefix(has_likely_unterminated_string(
                self.source.script().bytes(),
                self.kinds,
                self.starts,
                self.so_far.tokens,
                self.so_far.place,
            )),
            other => other,
        }
    }

    // One token of the source more.
    fn extend(&mut self)
        requires { self.old.so_far.place < length (S.RawSource.script self.old.source.now) }
        ensures same { StillLent self.old self.new }
        ensures held { held self.new.kinds.now self.new.starts.now self.new.errors.now self.new.so_far ≡ extend (means S.RawSource self.old.source.now) (edition_number self.old.edition) (held self.old.kinds.now self.old.starts.now self.old.errors.now self.old.so_far) }
        ensures kept { Kept self.old.kinds.now self.old.starts.now self.new.kinds.now self.new.starts.now self.old.errors.now self.new.errors.now self.new.so_far }
        ensures more { (self.new.so_far.tokens ≡ self.old.so_far.tokens + 1) × (self.old.so_far.errors ≤ self.new.so_far.errors) × (self.old.so_far.place < self.new.so_far.place) }
    {
        let source = self.source;
        let script = source.script();
        let number = self.so_far.tokens as u32;
        let place = self.so_far.place;
        let token = token_at(source, self.edition, place);
        let end = place + token.len as usize;
        let text = &script.bytes()[place..end];
        let complaint = self.settle(complaint_of(token.kind), text);
        self.push(kind_of(self.edition, text, token.kind), end);
        self.write_errors(number, Said::of(source, place, complaint));
    }

    // The tokens of the source, up to the script's end.
    pub(crate) fn extend_all(&mut self)
        ensures same { StillLent self.old self.new }
        ensures end { self.new.so_far.place ≡ length (S.RawSource.script self.old.source.now) }
        ensures held { held self.new.kinds.now self.new.starts.now self.new.errors.now self.new.so_far ≡ extend_all (means S.RawSource self.old.source.now) (edition_number self.old.edition) (length (S.RawSource.script self.old.source.now) - self.old.so_far.tokens) (held self.old.kinds.now self.old.starts.now self.old.errors.now self.old.so_far) }
        ensures kept { Kept self.old.kinds.now self.old.starts.now self.new.kinds.now self.new.starts.now self.old.errors.now self.new.errors.now self.new.so_far }
        ensures more { (self.old.so_far.tokens ≤ self.new.so_far.tokens) × (self.old.so_far.errors ≤ self.new.so_far.errors) }
    {
        // What goes on is the converter itself, and an iterator over it would have to lend it out at each step.
        let end = self.source.script().bytes().len();
        while self.so_far.place < end {
            self.extend();
        }
    }

    // One token of the head more, if it is there.
    fn push_up_to(&mut self, kind: u16, end: Option<usize>)
        requires { EndsPast (S.RawSource.script self.old.source.now) self.old.so_far.place end × (self.old.so_far.errors ≡ 0) }
        ensures same { StillLent self.old self.new }
        ensures value { self.new.so_far ≡ up_to self.old.so_far.tokens self.old.so_far.place end }
        ensures held { held self.new.kinds.now self.new.starts.now self.new.errors.now self.new.so_far ≡ add_up_to kind end (held self.old.kinds.now self.old.starts.now self.old.errors.now self.old.so_far) }
        ensures kept { Kept self.old.kinds.now self.old.starts.now self.new.kinds.now self.new.starts.now self.old.errors.now self.new.errors.now self.new.so_far }
    {
        if let Some(end) = end {
            self.push(kind, end);
        }
    }

    // The head's tokens: the shebang line and the frontmatter.
    pub(crate) fn extend_head(&mut self)
        requires { self.old.so_far ≡ progress 0 0 0 }
        ensures same { StillLent self.old self.new }
        ensures held { held self.new.kinds.now self.new.starts.now self.new.errors.now self.new.so_far ≡ head_of (means S.RawSource self.old.source.now) }
        ensures kept { Kept self.old.kinds.now self.old.starts.now self.new.kinds.now self.new.starts.now self.old.errors.now self.new.errors.now self.new.so_far }
    {
        let head = head_of(self.source);
        self.push_up_to(SHEBANG, head.shebang);
        self.push_up_to(FRONTMATTER, head.frontmatter);
    }

    // Writes the end's entry, and counts what was written.
    pub(crate) fn finish(&mut self) -> Counts
        requires { self.old.so_far.place ≡ length (S.RawSource.script self.old.source.now) }
        ensures same { StillLent self.old self.new }
        ensures counts { (result.tokens ≡ self.old.so_far.tokens) × (result.errors ≡ self.old.so_far.errors) }
        ensures kinds { self.new.kinds.now ≡ slice_set self.old.kinds.now self.old.so_far.tokens EOF }
        ensures starts { self.new.starts.now ≡ slice_set self.old.starts.now self.old.so_far.tokens self.old.so_far.place }
        ensures errors { self.new.errors.now ≡ self.old.errors.now }
    {
        self.kinds[self.so_far.tokens] = EOF;
        self.starts[self.so_far.tokens] = self.so_far.place as u32;
        Counts {
            tokens: self.so_far.tokens,
            errors: self.so_far.errors,
        }
    }
}
