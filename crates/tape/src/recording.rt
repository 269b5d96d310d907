// How a tape is recorded: the test that marks pass once, before anything else reads them.
ghost use Rattle.std.specs.Prelude.{◌≡◌, Option, IfOk};
ghost use Rattle.std.specs.Result.{result_err};
ghost use Rattle.tape.specs.Recordings.{refusal, refusal_over, Judged, JudgedOver};

use crate::mark::Mark;
use crate::refusal::Refusal;
use crate::rules::{lawful_count, shebang_keeps};
use crate::tape::Tape;
use raw::EscapeError;
use script::Script;

impl<'a> Tape<'a> {
    // The tape of the marks over the bytes, where the bytes are a script and the marks keep the rules.
    pub fn new(
        bytes: &'a [u8],
        marks: &'a [Mark],
        faults: &'a [EscapeError],
        shebang: u32,
    ) -> Result<Tape<'a>, Refusal>
        ensures refused { result_err result ≡ refusal bytes.now marks.now faults.now shebang }
        ensures script { IfOk result (λ tape. tape.script.bytes.now ≡ bytes.now) }
        ensures marks { IfOk result (λ tape. tape.marks.now ≡ marks.now) }
        ensures faults { IfOk result (λ tape. tape.faults.now ≡ faults.now) }
        ensures shebang { IfOk result (λ tape. tape.shebang ≡ shebang) }
        ensures judged { Judged bytes.now marks.now faults.now shebang (result_err result) }
        ensures only { (o : Option Refusal) → Judged bytes.now marks.now faults.now shebang o → o ≡ result_err result }
    {
        let script = Script::admit(bytes)?;
        Tape::of_script(script, marks, faults, shebang)
    }

    // The same over a script that is admitted already.
    pub fn of_script(
        script: Script<'a>,
        marks: &'a [Mark],
        faults: &'a [EscapeError],
        shebang: u32,
    ) -> Result<Tape<'a>, Refusal>
        ensures refused { result_err result ≡ refusal_over script.entry.bytes.now marks.now faults.now shebang }
        ensures script { IfOk result (λ tape. tape.script.bytes.now ≡ script.entry.bytes.now) }
        ensures marks { IfOk result (λ tape. tape.marks.now ≡ marks.now) }
        ensures faults { IfOk result (λ tape. tape.faults.now ≡ faults.now) }
        ensures shebang { IfOk result (λ tape. tape.shebang ≡ shebang) }
        ensures judged { JudgedOver script.entry.bytes.now marks.now faults.now shebang (result_err result) }
        ensures only { (o : Option Refusal) → JudgedOver script.entry.bytes.now marks.now faults.now shebang o → o ≡ result_err result }
    {
        let number = lawful_count(&script, faults.len(), marks);
        if number != marks.len() {
            return Err(Refusal::Mark { number });
        }
        if !shebang_keeps(&script, shebang as usize) {
            return Err(Refusal::Shebang { marks: marks.len() });
        }
        Ok(Tape {
            script,
            marks,
            faults,
            shebang,
        })
    }
}
