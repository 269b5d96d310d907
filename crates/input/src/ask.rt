// Questions to an input.
ghost use Rattle.std.specs.Prelude.{◌≡◌};
ghost use Rattle.input.specs.Columns.{columns_of};
ghost use Rattle.input.specs.Questions.{kind_or, edition_answer, joint_answer};

use crate::columns::Input;
use crate::marks::is_marked;
use crate::refusal::Refusal;
use syntax_kind::kinds as kind_numbers;

impl Input<'_> {
    // How many entries there are.
    pub fn len(&self) -> usize
        ensures { result ≡ (columns_of self.now).len }
    {
        self.len
    }

    // The kind of an entry; past the last, the end of the input. The next call is the same over another column, and one
    // function for both would be no shorter than either.
    pub fn kind(&self, i: usize) -> u16
        ensures { result ≡ kind_or (columns_of self.now).kinds self.now.len i }
    {
        let kinds = &self.kinds[..self.len];
        kinds.get(i).copied().unwrap_or(kind_numbers::EOF)
    }

    // The kind of an entry where the grammar takes it for a keyword; past the last, the end of the input.
    pub fn contextual_kind(&self, i: usize) -> u16
        ensures { result ≡ kind_or (columns_of self.now).contextual self.now.len i }
    {
        let keywords = &self.contextual_kinds[..self.len];
        keywords.get(i).copied().unwrap_or(kind_numbers::EOF)
    }

    pub fn edition(&self, i: usize) -> Result<u8, Refusal>
        ensures { result ≡ edition_answer (columns_of self.now) i }
    {
        let editions = &self.editions[..self.len];
        editions.get(i).copied().ok_or(Refusal::NotThere)
    }

    // Whether an entry is marked as joint. The marks reach to the end of the last word.
    pub fn is_joint(&self, n: usize) -> Result<bool, Refusal>
        ensures { result ≡ joint_answer (columns_of self.now) n }
    {
        if n / 64 >= self.len.div_ceil(64) {
            return Err(Refusal::NotThere);
        }
        Ok(n < self.len && is_marked(self.joint, n))
    }
}
