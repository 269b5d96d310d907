// Why a line has no answer of its kind.
use questions::Refused;
use std::alloc::{AllocError, AllocFailed};
use syntax_kind::UnknownEdition;

#[derive(Clone, Copy, Debug, PartialEq, Eq)]
pub enum Failure {
    // The line asks nothing.
    Malformed,
    // The libraries refuse the question.
    Refused(Refused),
    OutOfMemory,
}

impl From<AllocError> for Failure {
    fn from(_: AllocError) -> Failure {
        Failure::OutOfMemory
    }
}

impl<T: Drop> From<AllocFailed<T>> for Failure {
    fn from(_: AllocFailed<T>) -> Failure {
        Failure::OutOfMemory
    }
}

// Each library has refusals of its own type, so each has its own conversion; macros may write no impls.
impl From<tape::Refusal> for Failure {
    fn from(why: tape::Refusal) -> Failure {
        Failure::Refused(Refused {
            number: why.number(),
            value: why.value(),
        })
    }
}

impl From<UnknownEdition> for Failure {
    fn from(unknown: UnknownEdition) -> Failure {
        Failure::from(converter::Refusal::from(unknown))
    }
}

impl From<converter::Refusal> for Failure {
    fn from(why: converter::Refusal) -> Failure {
        Failure::Refused(Refused {
            number: why.number(),
            value: None,
        })
    }
}

impl From<input::Refusal> for Failure {
    fn from(why: input::Refusal) -> Failure {
        Failure::Refused(Refused {
            number: why.number(),
            value: None,
        })
    }
}
