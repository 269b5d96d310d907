// Offering: the test that columns pass once, before anything reads them.
ghost use Rattle.std.specs.Prelude.{◌≡◌, ◌+◌, ◌-◌, ◌<◌, ◌≤◌, ◌↔◌, ℕ, true, length, Option, IfOk, IsTrue};
ghost use Rattle.std.specs.List.Sorted.{IsNonDecreasingBy};
ghost use Rattle.std.specs.Result.{result_err};
ghost use Rattle.lexed_str.specs.Columns.{tokens};
ghost use Rattle.lexed_str.specs.Offering.{all_below, kinds_known, ends_fit, token_fits, error_fits, columns_fit, columns_refusal, bytes_refusal};
ghost use Rattle.lexed_str.specs.Judging.{Judged, JudgedBytes};

use crate::error::LexError;
use crate::lexed::LexedStr;
use crate::refusal::Refusal;
use script::Script;
use syntax_kind::kinds;

impl<'a> LexedStr<'a> {
    // The columns of the script that the bytes are, where they are one and the columns fit it.
    pub fn offer(
        bytes: &'a [u8],
        kinds: &'a [u16],
        starts: &'a [u32],
        errors: &'a [LexError],
    ) -> Result<LexedStr<'a>, Refusal>
        ensures refused { result_err result ≡ bytes_refusal bytes.now kinds.now starts.now errors.now }
        ensures script { IfOk result (λ lexed. lexed.script.bytes.now ≡ bytes.now) }
        ensures kinds { IfOk result (λ lexed. lexed.kinds.now ≡ kinds.now) }
        ensures starts { IfOk result (λ lexed. lexed.starts.now ≡ starts.now) }
        ensures errors { IfOk result (λ lexed. lexed.errors.now ≡ errors.now) }
        ensures judged { JudgedBytes bytes.now kinds.now starts.now errors.now (result_err result) }
        ensures only { (o : Option Refusal) → JudgedBytes bytes.now kinds.now starts.now errors.now o → o ≡ result_err result }
    {
        let script = Script::admit(bytes)?;
        LexedStr::of_script(script, kinds, starts, errors)
    }

    // The columns of the script, where they fit it.
    pub fn of_script(
        script: Script<'a>,
        kinds: &'a [u16],
        starts: &'a [u32],
        errors: &'a [LexError],
    ) -> Result<LexedStr<'a>, Refusal>
        ensures refused { result_err result ≡ columns_refusal script.entry.bytes.now kinds.now starts.now errors.now }
        ensures script { IfOk result (λ lexed. lexed.script.bytes.now ≡ script.entry.bytes.now) }
        ensures kinds { IfOk result (λ lexed. lexed.kinds.now ≡ kinds.now) }
        ensures starts { IfOk result (λ lexed. lexed.starts.now ≡ starts.now) }
        ensures errors { IfOk result (λ lexed. lexed.errors.now ≡ errors.now) }
        ensures judged { Judged script.entry.bytes.now kinds.now starts.now errors.now (result_err result) }
        ensures only { (o : Option Refusal) → Judged script.entry.bytes.now kinds.now starts.now errors.now o → o ≡ result_err result }
    {
        let offer = Offer {
            script,
            kinds,
            starts,
            errors,
        };
        offer.check()?;
        Ok(LexedStr {
            script,
            kinds,
            starts,
            errors,
        })
    }
}

// A script, and the columns that are offered for it.
#[derive(Clone, Copy)]
struct Offer<'a> {
    script: Script<'a>,
    kinds: &'a [u16],
    starts: &'a [u32],
    errors: &'a [LexError],
}

impl Offer<'_> {
    fn check(&self) -> Result<(), Refusal>
        ensures { result_err result ≡ columns_refusal self.now.script.bytes.now self.now.kinds.now self.now.starts.now self.now.errors.now }
    {
        if !self.kinds_known() {
            return Err(Refusal::Kind);
        }
        if !self.columns_fit() {
            return Err(Refusal::Columns);
        }
        Ok(())
    }

    fn kinds_known(&self) -> bool
        ensures { result ≡ kinds_known self.now.kinds.now }
    {
        self.kinds.iter().all(|kind| *kind <= kinds::__LAST)
    }

    fn columns_fit(&self) -> bool
        ensures { result ≡ columns_fit self.now.script.bytes.now self.now.kinds.now self.now.starts.now self.now.errors.now }
    {
        self.ends_fit() && self.tokens_fit() && self.errors_fit()
    }

    fn ends_fit(&self) -> bool
        ensures { result ≡ ends_fit self.now.script.bytes.now self.now.kinds.now self.now.starts.now }
    {
        self.kinds.len() == self.starts.len()
            && self.kinds.last() == Some(&kinds::EOF)
            && self.starts.first() == Some(&0)
            && self.starts.last() == Some(&(self.script.bytes().len() as u32))
    }

    fn tokens_fit(&self) -> bool
        requires { length self.now.starts.now ≡ length self.now.kinds.now }
        ensures { IsTrue result ↔ ((i : ℕ) → i < tokens self.now.kinds.now → token_fits self.now.script.bytes.now self.now.kinds.now self.now.starts.now i ≡ true) }
    {
        self.kinds.iter().zip(self.starts.array_windows::<2>()).all(|(kind, [start, next])| {
            *kind != kinds::EOF && self.script.is_boundary(*start as usize) && start < next
        })
    }

    // The tokens named ascend, so that the last one is the greatest.
    fn errors_fit(&self) -> bool
        requires { 0 < length self.now.kinds.now }
        ensures { result ≡ all_below (length self.now.errors.now) (error_fits (tokens self.now.kinds.now) self.now.errors.now) }
    {
        let tokens = self.kinds.len() - 1;
        self.errors_ascend()
            && self
                .errors
                .last()
                .is_none_or(|e| (e.token as usize) < tokens)
    }

    fn errors_ascend(&self) -> bool
        ensures { IsTrue result ↔ IsNonDecreasingBy (λ e. e.token) self.now.errors.now }
    {
        self.errors.is_sorted_by_key(|e| e.token)
    }
}
