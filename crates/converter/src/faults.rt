// The escape faults of a token, one after the other.
ghost use Rattle.std.specs.Prelude.{◌≡◌, true};
ghost use Rattle.std.specs.Iterator.{YieldsFirst, item_count};
ghost use Rattle.raw.specs.Answers.{begins};

use raw::{EscapeError, RawSource};
use std::marker::Model;

// Those that are still to come.
#[derive(Drop)]
pub(crate) struct Faults<'a, S: RawSource> {
    source: &'a S,
    place: usize,
    // How many have been given.
    number: usize,
}

impl<'a, S: RawSource> Model for Faults<'a, S> {
    ghost use Rattle.std.specs.Prelude.{◌≡◌, true, List, drop};
    ghost use Rattle.raw.specs.Answers.{begins};
    ghost use Rattle.raw.specs.declared.kinds.EscapeError.{EscapeError};

    ghost Value = { List EscapeError };

    ghost view = { λ s. drop s.number (S.RawSource.faults s.source.now s.place) };

    ghost invariant = { λ s. begins (S.RawSource.script s.source.now) s.place ≡ true };
}

impl<'a, S: RawSource> Faults<'a, S> {
    pub(crate) fn of(source: &'a S, place: usize) -> Faults<'a, S>
        requires { begins (S.RawSource.script source.now) place ≡ true }
        ensures { result ≡ S.RawSource.faults source.now place }
    {
        Faults {
            source,
            place,
            number: 0,
        }
    }
}

impl<'a, S: RawSource> Iterator for Faults<'a, S> {
    type Item = EscapeError;

    ghost next_gives = { YieldsFirst (λ faults. faults) };

    ghost remaining = { item_count (λ faults. faults) };

    #[inline(always)]
    fn next(&mut self) -> Option<EscapeError> {
        let fault = self.source.fault_at(self.place, self.number).ok()?;
        self.number += 1;
        Some(fault)
    }
}
