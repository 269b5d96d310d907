// Admission, places and white space on examples.
use script::{NoCharacter, Refusal, Script, white_end, white_len};
use std::test::Fail;

#[test]
fn well_formed(rt: HostRuntime) {
    for text in [
        b"" as &[u8],
        b"abc",
        b"\xC2\x80",
        b"\xED\x9F\xBF",
        b"\xEE\x80\x80",
        b"\xF4\x8F\xBF\xBF",
    ] {
        assert!(rt; Script::admit(text).is_ok());
    }
}

#[test]
fn ill_formed(rt: HostRuntime) {
    // a lone continuation, overlong forms, a surrogate, past the last character, cut short
    for bytes in [
        b"ab\x80" as &[u8],
        b"ab\xC0\x80",
        b"ab\xE0\x9F\xBF",
        b"ab\xED\xA0\x80",
        b"ab\xF0\x8F\xBF\xBF",
        b"ab\xF4\x90\x80\x80",
        b"ab\xE2\x82",
    ] {
        assert_eq!(rt;
            Script::admit(bytes).err(),
            Some(Refusal::NotUtf8 { at: 2 })
        );
    }
}

#[test]
fn places(rt: HostRuntime) -> Result<(), Fail> {
    let script = Script::admit(b"a\xE2\x82\xAC")?;
    assert!(rt; script.is_boundary(0) && script.is_boundary(1) && script.is_boundary(4));
    assert!(rt; !script.is_boundary(2) && !script.is_boundary(3) && !script.is_boundary(5));
    assert_eq!(rt; script.char_len(0), Ok(1));
    assert_eq!(rt; script.char_len(1), Ok(3));
    assert_eq!(rt; script.char_len(2), Err(NoCharacter));
    assert_eq!(rt; script.char_len(4), Err(NoCharacter));
    Ok(())
}

#[test]
fn eleven_white_characters(rt: HostRuntime) {
    let all = b"\t\n\x0B\x0C\r \xC2\x85\xE2\x80\x8E\xE2\x80\x8F\xE2\x80\xA8\xE2\x80\xA9";
    assert_eq!(rt; white_end(all, 0), 20);
    assert_eq!(rt; white_len(all, 6), 2);
    assert_eq!(rt; white_len(all, 8), 3);
    assert_eq!(rt; white_len(b"\xC2\xA0", 0), 0);
    assert_eq!(rt; white_len(b"\xE2\x80\x83", 0), 0);
}

#[test]
fn numbers(rt: HostRuntime) {
    assert_eq!(rt; Refusal::TooLong.number(), 1);
    assert_eq!(rt; Refusal::NotUtf8 { at: 7 }.number(), 2);
    assert_eq!(rt; Refusal::NotUtf8 { at: 7 }.value(), Some(7));
    assert_eq!(rt; NoCharacter.number(), 21);
}
