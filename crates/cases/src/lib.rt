// Examples: evaluated from the definitions in two theorems, and run as tests.
#![tactic(auto)]

ghost use Rattle.std.specs.Prelude.{◌≡◌};
ghost use Rattle.cases.specs.Examples.{Examples};
ghost use Rattle.cases.specs.TokenExamples.{TokenExamples};

// The number of examples that the definitions give by evaluation. The theorem is on its contract, so it is no constant.
pub fn evaluated() -> u8
    ensures count { result ≡ 5 }
    ensures examples { Examples }
{
    5
}

// The number of examples on tokens that the definitions give by evaluation.
pub fn tokens_evaluated() -> u8
    ensures count { result ≡ 2 }
    ensures examples { TokenExamples }
{
    2
}

mod own_source;

pub use own_source::Characters;

#[cfg(test)]
mod frontmatter_tests;
#[cfg(test)]
mod kind_tests;
#[cfg(test)]
mod script_tests;
#[cfg(test)]
mod shared_tests;
#[cfg(test)]
mod token_tests;
