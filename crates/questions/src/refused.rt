// The answer to a question that a library refuses.
ghost use Rattle.std.specs.Prelude.{Some};
ghost use Rattle.questions.specs.Refusals.{refused_text};

use std::fmt;

// The refusal's number, and its value if it has one.
#[derive(Clone, Copy, Debug, PartialEq, Eq)]
pub struct Refused {
    pub number: u8,
    pub value: Option<usize>,
}

impl fmt::Display for Refused {
    ghost output = { λ x. Some (refused_text x.number x.value) };

    fn fmt<W: fmt::Write>(&self, f: &mut fmt::Formatter<W>) -> fmt::Result {
        let number = self.number;
        match self.value {
            Some(value) => write!(f, "refused {number} {value}"),
            None => write!(f, "refused {number}"),
        }
    }
}
