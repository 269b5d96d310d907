// Frontmatter on examples, fault by fault.
use frontmatter::{Failure, ScriptSource, Span};
use script::Refusal;
use std::process::Abort;
use std::test::Fail;

fn span(start: usize, end: usize) -> Span {
    Span { start, end }
}

fn accepted(script: &[u8]) -> Result<ScriptSource, Fail> {
    ScriptSource::parse(script).map_err(|_| Fail::new("not accepted"))
}

// The fault's letter, where it is, and the fences that go with it.
fn check_fault(
    rt: &impl Abort,
    script: &[u8],
    letter: char,
    primary: Span,
    open: Span,
    close: Option<Span>,
) -> Result<(), Fail> {
    match ScriptSource::parse(script) {
        Err(Failure::Faulty(fault)) => {
            assert_eq!(rt; fault.kind.letter(), letter);
            assert_eq!(rt; fault.primary, primary);
            assert_eq!(rt; fault.open, open);
            assert_eq!(rt; fault.close, close);
            Ok(())
        }
        _ => Err(Fail::new("no fault")),
    }
}

#[test]
fn an_empty_frontmatter(rt: HostRuntime) -> Result<(), Fail> {
    let source = accepted(b"---\n---\n")?;
    assert_eq!(rt; source.frontmatter, Some(span(4, 4)));
    assert_eq!(rt; source.close, Some(span(4, 7)));
    assert_eq!(rt; source.content, span(8, 8));
    Ok(())
}

#[test]
fn every_part(rt: HostRuntime) -> Result<(), Fail> {
    let source = accepted(b"#!/usr/bin/x\n\n--- cargo\r\na\n---\t\r\nfn f() {}\n")?;
    assert_eq!(rt; source.shebang, Some(span(0, 13)));
    assert_eq!(rt; source.open, Some(span(14, 17)));
    assert_eq!(rt; source.info, Some(span(18, 23)));
    assert_eq!(rt; source.frontmatter, Some(span(25, 27)));
    assert_eq!(rt; source.close, Some(span(27, 30)));
    assert_eq!(rt; source.content, span(33, 43));
    Ok(())
}

#[test]
fn faults(rt: HostRuntime) -> Result<(), Fail> {
    check_fault(&rt, b"--\nx", 'A', span(4, 4), span(0, 2), None)?;
    check_fault(&rt, b"---\nx\n", 'B', span(6, 6), span(0, 3), None)?;
    check_fault(&rt, b"----\n---\n", 'C', span(5, 8), span(0, 4), None)?;
    check_fault(
        &rt,
        b"-----\n-\n---\n--",
        'C',
        span(8, 11),
        span(0, 5),
        None,
    )?;
    check_fault(&rt, b"---\n----\n", 'D', span(7, 8), span(0, 3), None)?;
    check_fault(&rt, b"---\n---\r", 'E', span(7, 8), span(0, 3), None)?;
    check_fault(
        &rt,
        b"---\n---\n \n-1",
        'F',
        span(10, 11),
        span(0, 3),
        Some(span(4, 7)),
    )
}

#[test]
fn shebang_or_attribute(rt: HostRuntime) -> Result<(), Fail> {
    assert_eq!(rt; accepted(b"#!\xC2\xA0[")?.shebang, Some(span(0, 5)));
    assert_eq!(rt; accepted(b"#!\xE2\x80\x8E[")?.shebang, None);
    assert_eq!(rt; accepted(b"#!\n\n[a]")?.shebang, None);
    assert_eq!(rt; accepted(b"#!/*x*/[a]")?.shebang, Some(span(0, 10)));
    Ok(())
}

#[test]
fn no_script(rt: HostRuntime) -> Result<(), Fail> {
    match ScriptSource::parse(b"---\n\xFF") {
        Err(Failure::Refused(why)) => {
            assert_eq!(rt; why, Refusal::NotUtf8 { at: 4 });
            Ok(())
        },
        _ => Err(Fail::new("not refused")),
    }
}
