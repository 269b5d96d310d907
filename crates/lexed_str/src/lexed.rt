// Token columns carry their test: whoever holds them knows that they fit their script. The caller lends them, and
// nothing here is on the heap.
ghost use Rattle.std.specs.Prelude.{◌≡◌, true};
ghost use Rattle.lexed_str.specs.Offering.{accepts};

use crate::error::LexError;
use script::Script;

#[derive(Clone, Copy, Debug, PartialEq, Eq)]
pub struct LexedStr<'a> {
    pub(crate) script: Script<'a>,
    pub(crate) kinds: &'a [u16],
    pub(crate) starts: &'a [u32],
    pub(crate) errors: &'a [LexError],
    ghost fits: { accepts script.bytes.now kinds.now starts.now errors.now ≡ true },
}
