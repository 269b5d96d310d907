// Reading: what columns that passed their test answer.
ghost use Rattle.std.specs.Prelude.{◌≡◌, ◌<◌, ◌≤◌, length, ◌==◌};
ghost use Rattle.std.specs.Result.{result_map_both};
ghost use Rattle.lexed_str.specs.Columns.{tokens, start_at};
ghost use Rattle.lexed_str.specs.Reading.{of_token, kind_answer, texts, text_answer, range_answer, places_answer, start_answer, len_answer, errors_of, first_of, error_answer};

use crate::error::LexError;
use crate::lexed::LexedStr;
use crate::refusal::Refusal;
use records::first_at;
use script::Script;
use std::ops::Range;

impl<'a> LexedStr<'a> {
    pub fn script(&self) -> Script<'a>
        ensures { result.bytes.now ≡ self.now.script.bytes.now }
    {
        self.script
    }

    // The number of tokens. The end's entry is none.
    pub fn len(&self) -> usize
        ensures { result ≡ tokens self.now.kinds.now }
    {
        self.kinds.len() - 1
    }

    pub fn is_empty(&self) -> bool
        ensures { result ≡ (tokens self.now.kinds.now == 0) }
    {
        self.len() == 0
    }

    pub fn kind(&self, i: usize) -> Result<u16, Refusal>
        ensures { result ≡ kind_answer self.now.kinds.now i }
    {
        self.check(i)?;
        Ok(self.kinds[i])
    }

    pub fn text(&self, i: usize) -> Result<&'a [u8], Refusal>
        ensures { result_map_both (λ x. x.now) (λ why. why) result ≡ text_answer self.now.script.bytes.now self.now.kinds.now self.now.starts.now i }
    {
        self.check(i)?;
        Ok(self.texts(i, i + 1))
    }

    // The text of the tokens from `from` up to `to`, at least one.
    pub fn range_text(&self, from: usize, to: usize) -> Result<&'a [u8], Refusal>
        ensures { result_map_both (λ x. x.now) (λ why. why) result ≡ range_answer self.now.script.bytes.now self.now.kinds.now self.now.starts.now from to }
    {
        if from >= to || to > self.len() {
            return Err(Refusal::NoToken);
        }
        Ok(self.texts(from, to))
    }

    // The places of the token's text.
    pub fn text_range(&self, i: usize) -> Result<Range<usize>, Refusal>
        ensures { result ≡ places_answer self.now.kinds.now self.now.starts.now i }
    {
        self.check(i)?;
        Ok(self.places(i, i + 1))
    }

    // Where the token's text starts; at the number of tokens, the script's length.
    pub fn text_start(&self, i: usize) -> Result<usize, Refusal>
        ensures { result ≡ start_answer self.now.kinds.now self.now.starts.now i }
    {
        if i > self.len() {
            return Err(Refusal::NoToken);
        }
        Ok(self.starts[i] as usize)
    }

    pub fn text_len(&self, i: usize) -> Result<usize, Refusal>
        ensures { result ≡ len_answer self.now.kinds.now self.now.starts.now i }
    {
        self.check(i)?;
        let Range { start, end } = self.places(i, i + 1);
        Ok(end - start)
    }

    // The code of the token's first error, if it has one.
    pub fn error(&self, i: usize) -> Result<Option<u16>, Refusal>
        ensures { result ≡ error_answer self.now.kinds.now self.now.errors.now i }
    {
        self.check(i)?;
        Ok(self.first_error(i))
    }

    // All errors, in the order of their tokens.
    pub fn errors(&self) -> &'a [LexError]
        ensures { result.now ≡ self.now.errors.now }
    {
        self.errors
    }

    // Refuses what is no token's number.
    fn check(&self, i: usize) -> Result<(), Refusal>
        ensures { result ≡ of_token self.now.kinds.now i tt }
    {
        if i < self.len() {
            Ok(())
        } else {
            Err(Refusal::NoToken)
        }
    }

    // Where the text of the tokens from `from` up to `to` lies.
    fn places(&self, from: usize, to: usize) -> Range<usize>
        requires { (from < to) × (to ≤ tokens self.now.kinds.now) }
        ensures low { result.start ≡ start_at self.now.starts.now from }
        ensures high { result.end ≡ start_at self.now.starts.now to }
        ensures rises { result.start < result.end }
        ensures within { result.end ≤ length self.now.script.bytes.now }
    {
        self.starts[from] as usize..self.starts[to] as usize
    }

    fn texts(&self, from: usize, to: usize) -> &'a [u8]
        requires { (from < to) × (to ≤ tokens self.now.kinds.now) }
        ensures { result.now ≡ texts self.now.script.bytes.now self.now.starts.now from to }
    {
        &self.script.bytes()[self.places(from, to)]
    }

    fn first_error(&self, i: usize) -> Option<u16>
        requires { i < tokens self.now.kinds.now }
        ensures { result ≡ first_of (errors_of i self.now.errors.now) }
    {
        first_at(self.errors, i as u32).map(|place| self.errors[place].code)
    }
}
