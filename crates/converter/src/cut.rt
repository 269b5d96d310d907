// The editions' cuts.
ghost use Rattle.std.specs.Prelude.{◌≡◌};
ghost use Rattle.syntax_kind.specs.Editions.{edition_number};
ghost use Rattle.converter.specs.Cuts.{cut};

use raw::{LiteralKind, RawKind, RawToken};
use syntax_kind::Edition;

// What the edition has in the place of a raw token; the bytes behind it are asked for afresh.
pub(crate) fn cut(edition: Edition, token: RawToken) -> RawToken
    ensures { result ≡ cut (edition_number edition) token }
{
    let len = token.len;
    match token.kind {
        RawKind::GuardedStrPrefix if edition < Edition::Edition2024 => RawToken {
            kind: RawKind::Pound,
            len: 1,
        },
        RawKind::Literal {
            kind: LiteralKind::CStr { .. },
        } if edition < Edition::Edition2021 => RawToken {
            kind: RawKind::Ident,
            len: 1,
        },
        RawKind::Literal {
            kind: LiteralKind::RawCStr { .. },
        } if edition < Edition::Edition2021 => RawToken {
            kind: RawKind::Ident,
            len: 2,
        },
        RawKind::RawLifetime if edition < Edition::Edition2021 => RawToken {
            kind: RawKind::Lifetime {
                starts_with_number: false,
            },
            len: 2,
        },
        RawKind::UnknownPrefix if edition < Edition::Edition2021 => RawToken {
            kind: RawKind::Ident,
            len,
        },
        RawKind::UnknownPrefixLifetime if edition < Edition::Edition2021 => RawToken {
            kind: RawKind::Lifetime {
                starts_with_number: false,
            },
            len,
        },
        _ => token,
    }
}
