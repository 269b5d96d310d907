// The columns of an input. Whoever holds one knows that its entries stand in them.
ghost use Rattle.std.specs.Prelude.{◌≡◌, true};
ghost use Rattle.input.specs.Fitting.{fitting};

// Its first `len` places hold entries, and the others are free. The joint marks are bits, 64 to a word.
// The columns are lent by the caller, as numbers: nothing is allocated here, and the caller reads what they hold.
// No `impl Model`: behind one, whoever lends the columns no longer learns what they hold at the end.
#[derive(Drop)]
pub struct Input<'a> {
    pub(crate) kinds: &'a mut [u16],
    pub(crate) joint: &'a mut [u64],
    pub(crate) contextual_kinds: &'a mut [u16],
    pub(crate) editions: &'a mut [u8],
    pub(crate) len: usize,
    ghost fits: { fitting kinds.now joint.now contextual_kinds.now editions.now len ≡ true },
}
