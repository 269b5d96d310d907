// Sources, columns, errors and the parser's input on examples.
use crate::own_source::Characters;
use converter::{lex, single_token};
use input::{Input, to_input};
use lexed_str::{LexError, LexedStr};
use raw::{EscapeError, LiteralKind, RawKind, RawSource};
use scanner::Scanner;
use script::Script;
use std::process::Abort;
use std::test::Fail;
use syntax_kind::kinds;
use tape::{Mark, Tape};

fn mark(place: u32, kind: RawKind, len: u32) -> Mark {
    Mark {
        place,
        kind,
        len,
        faults_from: 0,
        faults_to: 0,
    }
}

const NO_ERROR: LexError = LexError { token: 9, code: 9 };

// The kinds, the starts, and the first error of the first token, in columns with one entry to spare.
fn check_lexed<S: RawSource>(
    rt: &impl Abort,
    source: &S,
    edition: u8,
    wanted: &[u16],
    starts: &[u32],
    error: Option<u16>,
) -> Result<(), Fail> {
    let mut kinds = [777; 12];
    let mut places = [777; 12];
    let mut errors = [NO_ERROR; 12];
    let counts = lex(source, edition, &mut kinds, &mut places, &mut errors)?;
    if counts.tokens >= 11 || counts.errors > 12 {
        return Err(Fail::new("too many"));
    }
    let end = counts.tokens + 1;
    assert_eq!(rt; &kinds[..end], wanted);
    assert_eq!(rt; &places[..end], starts);
    assert_eq!(rt; kinds[end], 777);
    assert_eq!(rt; places[end], 777);
    let lexed = LexedStr::offer(
        source.script().bytes(),
        &kinds[..end],
        &places[..end],
        &errors[..counts.errors],
    )?;
    assert_eq!(rt; lexed.error(0)?, error);
    Ok(())
}

#[test]
fn an_unknown_prefix_in_two_editions(rt: HostRuntime) -> Result<(), Fail> {
    let marks = [
        mark(0, RawKind::UnknownPrefix, 2),
        mark(
            2,
            RawKind::Literal {
                kind: LiteralKind::Str { terminated: true },
            },
            3,
        ),
    ];
    let tape = Tape::new(b"if\"x\"", &marks, &[], 0)?;
    check_lexed(
        &rt,
        &tape,
        1,
        &[kinds::IF_KW, kinds::STRING, kinds::EOF],
        &[0, 2, 5],
        None,
    )?;
    check_lexed(
        &rt,
        &tape,
        2,
        &[kinds::IDENT, kinds::STRING, kinds::EOF],
        &[0, 2, 5],
        Some(9),
    )
}

#[test]
fn a_source_of_ones_own(rt: HostRuntime) -> Result<(), Fail> {
    let own = Characters {
        script: Script::admit(b"a\xC3\xA9b")?,
    };
    check_lexed(
        &rt,
        &own,
        3,
        &[kinds::ERROR, kinds::ERROR, kinds::ERROR, kinds::EOF],
        &[0, 1, 3, 4],
        None,
    )
}

#[test]
fn the_scanner(rt: HostRuntime) -> Result<(), Fail> {
    let scan = Scanner::new(b"/**/a/*!b")?;
    check_lexed(
        &rt,
        &scan,
        3,
        &[
            kinds::COMMENT,
            kinds::IDENT,
            kinds::INNER_DOC_COMMENT,
            kinds::EOF,
        ],
        &[0, 4, 5, 9],
        None,
    )?;
    let scan = Scanner::new(b"1.2.x..")?;
    check_lexed(
        &rt,
        &scan,
        3,
        &[
            kinds::FLOAT_NUMBER,
            kinds::DOT,
            kinds::IDENT,
            kinds::DOT,
            kinds::DOT,
            kinds::EOF,
        ],
        &[0, 3, 4, 5, 6, 7],
        None,
    )
}

#[test]
fn only_the_first_fault_of_a_character(rt: HostRuntime) -> Result<(), Fail> {
    let char_kind = RawKind::Literal {
        kind: LiteralKind::Char { terminated: true },
    };
    let marks = [Mark {
        place: 0,
        kind: char_kind,
        len: 4,
        faults_from: 1,
        faults_to: 3,
    }];
    let faults = [
        EscapeError::ZeroChars,
        EscapeError::LoneSlash,
        EscapeError::InvalidEscape,
    ];
    let silent = Tape::new(b"'ab'", &marks, &faults, 0)?;
    check_lexed(&rt, &silent, 3, &[kinds::CHAR, kinds::EOF], &[0, 4], None)?;
    match Tape::new(b"'ab'", &marks, &faults[1..], 0) {
        Err(why) => {
            assert_eq!(rt; why.value(), Some(0));
            Ok(())
        },
        Ok(_) => Err(Fail::new("accepted")),
    }
}

#[test]
fn one_token(rt: HostRuntime) -> Result<(), Fail> {
    let marks = [mark(0, RawKind::GuardedStrPrefix, 2)];
    let tape = Tape::new(b"##", &marks, &[], 0)?;
    assert_eq!(rt; single_token(&tape, 2), Ok(None));
    assert_eq!(rt; single_token(&tape, 3), Ok(Some((kinds::ERROR, Some(5)))));
    assert_eq!(rt; single_token(&tape, 4).map_err(|why| why.number()), Err(3));
    Ok(())
}

#[test]
fn no_name_is_joint(rt: HostRuntime) -> Result<(), Fail> {
    let kinds = [kinds::PLUS, kinds::IDENT, kinds::MINUS, kinds::EOF];
    let lexed = LexedStr::offer(b"+a-", &kinds, &[0, 1, 2, 3], &[])?;
    let mut columns = ([0; 3], [0; 1], [0; 3], [0; 3]);
    let mut input = Input::new(
        &mut columns.0,
        &mut columns.1,
        &mut columns.2,
        &mut columns.3,
    );
    to_input(&lexed, 3, &mut input)?;
    assert_eq!(rt; input.len(), 3);
    for n in 0..3 {
        assert!(rt; matches!(input.is_joint(n), Ok(false)));
    }
    assert!(rt; matches!(input.is_joint(63), Ok(false)));
    assert!(rt; input.is_joint(64).is_err());
    Ok(())
}
