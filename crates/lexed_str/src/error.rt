// Errors of tokens.
use records::Keyed;

// The code of a message, and the number of the token that it is about.
#[derive(Clone, Copy, Debug, PartialEq, Eq)]
pub struct LexError {
    pub token: u32,
    // A number, since columns of such records are lent.
    pub code: u16,
}

impl Keyed for LexError {
    ghost key = { λ e. e.token };

    fn key(&self) -> u32 {
        self.token
    }
}
