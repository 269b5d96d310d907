// What a tape answers.
ghost use Rattle.std.specs.Prelude.{◌≡◌, ◌≤◌, true, length, IfSome};
ghost use Rattle.raw.specs.Answers.{begins};
ghost use Rattle.tape.specs.Meaning.{mark_at, token_at, faults_at};
ghost use Rattle.tape.specs.TapeLaws.{tape_laws};

use crate::mark::Mark;
use crate::tape::Tape;
use raw::{EscapeError, RawKind, RawSource, RawToken, Refusal, begins};
use records::first_at;
use script::Script;

impl<'a> RawSource for Tape<'a> {
    ghost script = { λ tape. tape.script.bytes.now };

    ghost token = { λ tape. token_at tape.script.bytes.now tape.marks.now };

    ghost faults = { λ tape. faults_at tape.marks.now tape.faults.now };

    ghost shebang = { λ tape. tape.shebang };

    ghost laws = { tape_laws };

    fn script(&self) -> Script<'_> {
        self.script
    }

    fn token_at(&self, place: usize) -> Result<RawToken, Refusal> {
        let character = RawToken::character(&self.script, place, RawKind::Unknown)?;
        Ok(self.mark_at(place).map_or(character, Mark::token))
    }

    fn fault_at(&self, place: usize, number: usize) -> Result<EscapeError, Refusal> {
        if !begins(&self.script, place) {
            return Err(Refusal::NoToken);
        }
        self.faults_at(place)
            .get(number)
            .copied()
            .ok_or(Refusal::NoFault)
    }

    fn shebang_len(&self) -> usize {
        self.shebang as usize
    }
}

impl Tape<'_> {
    // The first mark at the place.
    fn mark_at(&self, place: usize) -> Option<Mark>
        requires { begins self.now.script.bytes.now place ≡ true }
        ensures value { result ≡ mark_at place self.now.marks.now }
        ensures part { IfSome result (λ mark. (mark.faults_from ≤ mark.faults_to) × (mark.faults_to ≤ length self.now.faults.now)) }
    {
        let number = first_at(self.marks, place as u32)?;
        self.marks.get(number).copied()
    }

    // The faults of the token at the place: the mark's part of the fault column.
    fn faults_at(&self, place: usize) -> &[EscapeError]
        requires { begins self.now.script.bytes.now place ≡ true }
        ensures { result.now ≡ faults_at self.now.marks.now self.now.faults.now place }
    {
        match self.mark_at(place) {
            Some(mark) => &self.faults[mark.faults_from as usize..mark.faults_to as usize],
            None => &[],
        }
    }
}
