// A script carries its test: whoever holds one knows that its bytes were admitted.
ghost use Rattle.std.specs.Prelude.{◌≡◌, true, Option, IfOk};
ghost use Rattle.std.specs.Result.{result_err};
ghost use Rattle.script.specs.Admission.{refusal, admits, Judged};

use crate::refusal::Refusal;
use crate::sequences::{Utf8, run_end};

// The most bytes that a script has: each place fits 32 bits, and so does the length.
const LONGEST: usize = 0xFFFF_FFFF;

#[derive(Clone, Copy, Debug, PartialEq, Eq)]
pub struct Script<'a> {
    pub(crate) bytes: &'a [u8],
    ghost fits: { admits bytes.now ≡ true },
}

impl<'a> Script<'a> {
    // The bytes as a script, where they are UTF-8 and not too long. Its loop stays a function of its own: among a
    // caller's loops it is compiled to slower code.
    #[inline(never)]
    pub fn admit(bytes: &'a [u8]) -> Result<Script<'a>, Refusal>
        ensures refused { result_err result ≡ refusal bytes.now }
        ensures script { IfOk result (λ script. script.bytes.now ≡ bytes.now) }
        ensures judged { Judged bytes.now (result_err result) }
        ensures only { (o : Option Refusal) → Judged bytes.now o → o ≡ result_err result }
    {
        if bytes.len() > LONGEST {
            return Err(Refusal::TooLong);
        }
        let at = run_end(&Utf8, bytes, 0);
        if at < bytes.len() {
            return Err(Refusal::NotUtf8 { at });
        }
        Ok(Script { bytes })
    }

    pub fn bytes(&self) -> &'a [u8]
        ensures { result.now ≡ self.now.bytes.now }
    {
        self.bytes
    }
}
