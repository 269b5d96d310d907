// How far lexing has come.

#[derive(Clone, Copy)]
pub(crate) struct Progress {
    pub(crate) tokens: usize,
    pub(crate) errors: usize,
    pub(crate) place: usize,
}

// Where the tokens of the head end, if they are there.
#[derive(Clone, Copy)]
pub(crate) struct Head {
    pub(crate) shebang: Option<usize>,
    pub(crate) frontmatter: Option<usize>,
}
