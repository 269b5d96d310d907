// Kinds and keywords on examples.
use syntax_kind::{Refusal, from_contextual_keyword, from_keyword, is_trivia, kinds};

#[test]
fn keywords_of_each_edition(rt: HostRuntime) {
    assert_eq!(rt; from_keyword(b"fn", 0), Ok(Some(kinds::FN_KW)));
    assert_eq!(rt; from_keyword(b"async", 0), Ok(None));
    assert_eq!(rt; from_keyword(b"async", 1), Ok(Some(kinds::ASYNC_KW)));
    assert_eq!(rt; from_keyword(b"gen", 2), Ok(None));
    assert_eq!(rt; from_keyword(b"gen", 3), Ok(Some(kinds::GEN_KW)));
    assert_eq!(rt; from_contextual_keyword(b"dyn", 0), Ok(Some(kinds::DYN_KW)));
    assert_eq!(rt; from_contextual_keyword(b"dyn", 1), Ok(None));
    assert_eq!(rt; from_keyword(b"fn", 4), Err(Refusal::Edition));
}

#[test]
fn trivia(rt: HostRuntime) {
    assert_eq!(rt; kinds::SEMICOLON, 3);
    assert_eq!(rt; is_trivia(kinds::WHITESPACE), Ok(true));
    assert_eq!(rt; is_trivia(kinds::COMMENT), Ok(true));
    assert_eq!(rt; is_trivia(kinds::SEMICOLON), Ok(false));
    assert_eq!(rt; is_trivia(kinds::__LAST), Ok(false));
    assert_eq!(rt; is_trivia(kinds::__LAST + 1), Err(Refusal::Kind));
}

#[test]
fn numbers(rt: HostRuntime) {
    assert_eq!(rt; Refusal::Edition.number(), 3);
    assert_eq!(rt; Refusal::Kind.number(), 4);
}
