// The tokens of a source, where they begin.
ghost use Rattle.std.specs.Prelude.{◌≡◌, ◌+◌, ◌<◌, ◌≤◌, true, length};
ghost use Rattle.raw.specs.Answers.{begins};
ghost use Rattle.script.specs.Places.{boundary};
ghost use Rattle.syntax_kind.specs.Editions.{edition_number};
ghost use Rattle.converter.specs.Cuts.{cut};

use crate::cut::cut;
use raw::{RawSource, RawToken};
use syntax_kind::Edition;

// The raw token at a place where one begins.
pub(crate) fn raw_token_at<S: RawSource>(source: &S, place: usize) -> RawToken
    requires { begins (S.RawSource.script source.now) place ≡ true }
    ensures { result ≡ S.RawSource.token source.now place }
{
    let Ok(token) = source.token_at(place) else {
        unreachable()
    };
    token
}

// The raw token at the place, under the edition's cut.
pub(crate) fn token_at<S: RawSource>(source: &S, edition: Edition, place: usize) -> RawToken
    requires { begins (S.RawSource.script source.now) place ≡ true }
    ensures value { result ≡ cut (edition_number edition) (S.RawSource.token source.now place) }
    ensures some { 0 < result.len }
    ensures within { place + result.len ≤ length (S.RawSource.script source.now) }
    ensures ends { boundary (S.RawSource.script source.now) (place + result.len) ≡ true }
{
    cut(edition, raw_token_at(source, place))
}
