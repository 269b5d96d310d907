// Places of a script: where characters begin, how long they are, and where white space ends.
ghost use Rattle.std.specs.Prelude.{◌≡◌, ◌≤◌, length, Decides};
ghost use Rattle.script.specs.Sequences.{sequence, run_end, Stands, Run};
ghost use Rattle.script.specs.WhiteTable.{white};
ghost use Rattle.script.specs.Places.{boundary, char_len, Whole, Spans};

use crate::refusal::NoCharacter;
use crate::script::Script;
use crate::sequences::{Table, Utf8, White, run_end};

impl Script<'_> {
    // Whether a character begins at the place, or the script ends there.
    pub fn is_boundary(&self, place: usize) -> bool
        ensures value { result ≡ boundary self.now.bytes.now place }
        ensures characters { Decides result (Whole self.now.bytes.now place) }
    {
        match self.bytes.get(place) {
            Some(byte) => !matches!(*byte, 0x80..=0xBF),
            None => place == self.bytes.len(),
        }
    }

    // The length in bytes of the character that begins at the place.
    pub fn char_len(&self, place: usize) -> Result<usize, NoCharacter>
        ensures value { result ≡ char_len self.now.bytes.now place }
        ensures character { Spans self.now.bytes.now place result }
    {
        if place >= self.bytes.len() || !self.is_boundary(place) {
            return Err(NoCharacter);
        }
        Ok(Utf8.sequence_len(self.bytes, place))
    }
}

// The length in bytes of the white-space character at the place; 0 where there is none.
pub fn white_len(bytes: &[u8], place: usize) -> usize
    ensures value { result ≡ sequence white bytes.now place }
    ensures character { Stands white bytes.now place result }
{
    White.sequence_len(bytes, place)
}

// Where the white space that begins at the place ends; the place itself where there is none.
pub fn white_end(bytes: &[u8], place: usize) -> usize
    ensures value { result ≡ run_end white bytes.now place }
    ensures run { place ≤ length bytes.now → Run white bytes.now place result }
{
    run_end(&White, bytes, place)
}
