// Values that may be missing: a word in their place, or nothing.
ghost use Rattle.std.specs.Prelude.{[], ◌++◌, Some};
ghost use Rattle.std.specs.Option.{option_map, option_map_or};

use std::fmt;

// The value, or a word where there is none.
#[derive(Clone, Copy, Debug, PartialEq, Eq)]
pub struct Or<T>(pub Option<T>, pub &'static str);

// The value after a lead; nothing where there is none.
#[derive(Clone, Copy, Debug, PartialEq, Eq)]
pub struct After<T>(pub &'static str, pub Option<T>);

impl<T: fmt::Display> fmt::Display for Or<T> {
    ghost output = { λ x. option_map_or (λ v. T.output v) x.0 (Some x.1.now) };

    fn fmt<W: fmt::Write>(&self, f: &mut fmt::Formatter<W>) -> fmt::Result {
        match &self.0 {
            Some(value) => write!(f, "{value}"),
            None => f.write_str(self.1),
        }
    }
}

impl<T: fmt::Display> fmt::Display for After<T> {
    ghost output = { λ x. option_map_or (λ v. option_map (λ text. x.0.now ++ text) (T.output v)) x.1 (Some []) };

    fn fmt<W: fmt::Write>(&self, f: &mut fmt::Formatter<W>) -> fmt::Result {
        let lead = self.0;
        match &self.1 {
            Some(value) => write!(f, "{lead}{value}"),
            None => Ok(()),
        }
    }
}
