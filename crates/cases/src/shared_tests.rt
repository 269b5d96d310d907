// What programs share, and what the libraries offer beside the port's calls, on examples.
use converter::{Message, UnknownMessage};
use owned_columns::OwnedColumns;
use questions::{Lines, decimal, decode, split_once};
use raw::{RawKind, RawToken, Refusal, begins};
use scanner::Scanner;
use script::Script;
use std::test::Fail;
use syntax_kind::{Edition, UnknownEdition, kinds};

#[test]
fn columns_on_the_heap(rt: HostRuntime) -> Result<(), Fail> {
    let scanner = Scanner::new(b"a /* b")?;
    let columns = OwnedColumns::lex(rt.alloc(), &scanner, Edition::Edition2024)?;
    let lexed = columns.read();
    assert_eq!(rt; lexed.len(), 3);
    assert_eq!(rt; lexed.kind(2), Ok(kinds::COMMENT));
    assert_eq!(rt; lexed.text_start(3), Ok(6));
    assert_eq!(rt; lexed.error(2), Ok(Some(1)));
    assert_eq!(rt; lexed.errors().len(), 1);
    Ok(())
}

#[test]
fn bytes_in_hexadecimal(rt: HostRuntime) -> Result<(), Fail> {
    let Some(bytes) = decode(rt.alloc(), b"00a1ff")? else {
        return Err(Fail::new("not decoded"));
    };
    assert_eq!(rt; bytes.as_slice(), [0x00, 0xA1, 0xFF].as_slice());
    let Some(none) = decode(rt.alloc(), b"-")? else {
        return Err(Fail::new("not decoded"));
    };
    assert!(rt; none.is_empty());
    for wrong in [b"" as &[u8], b"0", b"0A", b"--", b"0x"] {
        assert!(rt; decode(rt.alloc(), wrong)?.is_none());
    }
    Ok(())
}

#[test]
fn words_numbers_and_lines(rt: HostRuntime) {
    assert_eq!(rt; decimal(b"0109"), Some(109));
    assert_eq!(rt; decimal(b"99999999999999999999999"), Some(u64::MAX));
    assert_eq!(rt; decimal(b""), None);
    assert_eq!(rt; decimal(b"1a"), None);
    assert_eq!(rt;
        split_once(b"a b c", b' '),
        Some((b"a" as &[u8], b"b c" as &[u8]))
    );
    assert_eq!(rt; split_once(b"abc", b' '), None);
    let mut lines = Lines(b"a\n\nb");
    assert_eq!(rt; lines.next(), Some(b"a" as &[u8]));
    assert_eq!(rt; lines.next(), Some(b"" as &[u8]));
    assert_eq!(rt; lines.next(), Some(b"b" as &[u8]));
    assert_eq!(rt; lines.next(), None);
}

#[test]
fn editions_and_messages(rt: HostRuntime) {
    assert_eq!(rt; Edition::try_from(2), Ok(Edition::Edition2021));
    assert_eq!(rt; Edition::try_from(4), Err(UnknownEdition(4)));
    assert_eq!(rt;
        Edition::Edition2015.contextual_keyword(b"dyn"),
        Some(kinds::DYN_KW)
    );
    assert_eq!(rt; Edition::Edition2018.keyword(b"dyn"), Some(kinds::DYN_KW));
    assert_eq!(rt; Message::try_from(38), Ok(Message::NulInCStr));
    assert_eq!(rt; Message::try_from(0), Err(UnknownMessage(0)));
    assert_eq!(rt; Message::EmptyInt.code(), 11);
}

#[test]
fn characters_as_tokens(rt: HostRuntime) -> Result<(), Fail> {
    let script = Script::admit(b"a\xE2\x82\xAC")?;
    assert!(rt; begins(&script, 0) && begins(&script, 1));
    assert!(rt; !begins(&script, 2) && !begins(&script, 4));
    let kind = RawKind::Unknown;
    assert_eq!(rt;
        RawToken::character(&script, 1, kind),
        Ok(RawToken { kind, len: 3 })
    );
    assert_eq!(rt;
        RawToken::character(&script, 2, kind),
        Err(Refusal::NoToken)
    );
    Ok(())
}
