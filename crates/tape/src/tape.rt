// A tape carries its test: whoever holds one knows that its marks keep the rules. The caller lends its columns, and
// nothing here is on the heap.
ghost use Rattle.std.specs.Prelude.{◌≡◌, true};
ghost use Rattle.tape.specs.Rules.{fits};

use crate::mark::Mark;
use raw::EscapeError;
use script::Script;

// A tape: a source whose tokens were recorded beforehand, a mark for each. Where no mark stands, the character is a
// token of no known kind.
#[derive(Clone, Copy, Debug, PartialEq, Eq)]
pub struct Tape<'a> {
    pub(crate) script: Script<'a>,
    pub(crate) marks: &'a [Mark],
    pub(crate) faults: &'a [EscapeError],
    pub(crate) shebang: u32,
    ghost fits: { fits script.bytes.now marks.now faults.now shebang ≡ true },
}
