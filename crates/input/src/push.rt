// Entries are put in one after the other, and the last may be marked as joint.
ghost use Rattle.std.specs.Prelude.{◌≡◌, ◌-◌, ◌<◌, Some, None, true, false, MatchResult};
ghost use Rattle.syntax_kind.specs.Editions.{edition_number};
ghost use Rattle.input.specs.Columns.{columns_of, bare};
ghost use Rattle.input.specs.Loans.{Holds, StillLent};
ghost use Rattle.input.specs.Kinds.{eof, ident};
ghost use Rattle.input.specs.Pushes.{answered, settled, roomy, push_refusal, pushed, Grown, mark_refusal, joined, LastMarked};
ghost use Rattle.input.specs.Building.{spacious};

use crate::columns::Input;
use crate::marks;
use crate::refusal::Refusal;
use syntax_kind::{Edition, kinds as kind_numbers};

// An entry to put in. A kind is its number.
#[derive(Clone, Copy)]
pub(crate) struct Entry {
    pub(crate) kind: u16,
    pub(crate) contextual_kind: u16,
    pub(crate) edition: Edition,
}

impl<'a> Input<'a> {
    // An input with no entry yet, over the columns as they are.
    pub fn new(
        kinds: &'a mut [u16],
        joint: &'a mut [u64],
        contextual_kinds: &'a mut [u16],
        editions: &'a mut [u8],
    ) -> Input<'a>
        ensures columns { columns_of result ≡ bare kinds.old joint.old contextual_kinds.old editions.old }
        ensures lent { Holds kinds.entry.ghost_name joint.entry.ghost_name contextual_kinds.entry.ghost_name editions.entry.ghost_name result }
    {
        Input {
            kinds,
            joint,
            contextual_kinds,
            editions,
            len: 0,
        }
    }

    // Puts in a token that is no identifier.
    pub fn push(&mut self, kind: u16, edition: u8) -> Result<(), Refusal>
        ensures answer { result ≡ answered (push_refusal kind edition (columns_of self.old)) }
        ensures columns { columns_of self.new ≡ settled (push_refusal kind edition (columns_of self.old)) (pushed kind eof edition (columns_of self.old)) (columns_of self.old) }
        ensures grown { MatchResult result (λ _. Grown kind eof edition false (columns_of self.old) (columns_of self.new)) (λ _. columns_of self.new ≡ columns_of self.old) }
        ensures lent { StillLent self.old self.new }
    {
        let edition = self.admit(kind, edition)?;
        self.put(Entry {
            kind,
            contextual_kind: kind_numbers::EOF,
            edition,
        });
        Ok(())
    }

    // Puts in an identifier, with its kind where the grammar takes it for a keyword.
    pub fn push_ident(&mut self, contextual_kind: u16, edition: u8) -> Result<(), Refusal>
        ensures answer { result ≡ answered (push_refusal contextual_kind edition (columns_of self.old)) }
        ensures columns { columns_of self.new ≡ settled (push_refusal contextual_kind edition (columns_of self.old)) (pushed ident contextual_kind edition (columns_of self.old)) (columns_of self.old) }
        ensures grown { MatchResult result (λ _. Grown ident contextual_kind edition false (columns_of self.old) (columns_of self.new)) (λ _. columns_of self.new ≡ columns_of self.old) }
        ensures lent { StillLent self.old self.new }
    {
        let edition = self.admit(contextual_kind, edition)?;
        self.put(Entry {
            kind: kind_numbers::IDENT,
            contextual_kind,
            edition,
        });
        Ok(())
    }

    // Marks the last entry as joint with the token that follows it.
    pub fn was_joint(&mut self) -> Result<(), Refusal>
        ensures answer { result ≡ answered (mark_refusal (columns_of self.old)) }
        ensures columns { columns_of self.new ≡ settled (mark_refusal (columns_of self.old)) (joined (self.old.len - 1) (columns_of self.old)) (columns_of self.old) }
        ensures marked { MatchResult result (λ _. LastMarked (columns_of self.old) (columns_of self.new)) (λ _. columns_of self.new ≡ columns_of self.old) }
        ensures lent { StillLent self.old self.new }
    {
        if self.len == 0 {
            return Err(Refusal::Empty);
        }
        self.mark_last();
        Ok(())
    }

    // The edition of this number, where an entry of that kind can be put in: whoever pushes gives numbers.
    fn admit(&self, kind: u16, edition: u8) -> Result<Edition, Refusal>
        ensures { MatchResult result (λ e. (edition_number e ≡ edition) × (push_refusal kind edition (columns_of self.now) ≡ None)) (λ why. push_refusal kind edition (columns_of self.now) ≡ Some why) }
    {
        let edition = Edition::try_from(edition)?;
        if kind > kind_numbers::__LAST {
            return Err(Refusal::Kind);
        }
        if !self.has_room(self.len + 1) {
            return Err(Refusal::Full);
        }
        Ok(edition)
    }

    // Whether each column has room for so many entries.
    pub(crate) fn has_room(&self, entries: usize) -> bool
        ensures { result ≡ spacious entries (columns_of self.now) }
    {
        entries <= self.kinds.len()
            && entries <= self.contextual_kinds.len()
            && entries <= self.editions.len()
            && entries.div_ceil(64) <= self.joint.len()
    }

    // Puts the entry into the next place of each column. It is not joint.
    pub(crate) fn put(&mut self, entry: Entry)
        requires { roomy (columns_of self.old) ≡ true }
        ensures columns { columns_of self.new ≡ pushed entry.kind entry.contextual_kind (edition_number entry.edition) (columns_of self.old) }
        ensures grown { Grown entry.kind entry.contextual_kind (edition_number entry.edition) false (columns_of self.old) (columns_of self.new) }
        ensures lent { StillLent self.old self.new }
    {
        let at = self.len;
        marks::begin(self.joint, at);
        self.kinds[at] = entry.kind;
        self.contextual_kinds[at] = entry.contextual_kind;
        self.editions[at] = entry.edition.number();
        self.len = at + 1;
    }

    // Marks the last entry as joint.
    pub(crate) fn mark_last(&mut self)
        requires { 0 < self.old.len }
        ensures columns { columns_of self.new ≡ joined (self.old.len - 1) (columns_of self.old) }
        ensures marked { LastMarked (columns_of self.old) (columns_of self.new) }
        ensures lent { StillLent self.old self.new }
    {
        let last = self.len - 1;
        marks::mark(self.joint, last);
    }
}
