// The hint that a string before an unknown prefix is likely unterminated.
ghost use Rattle.std.specs.Prelude.{◌≡◌, ◌<◌, ◌≤◌, length};
ghost use Rattle.converter.specs.Hints.{somewhere, tells, suspect, hint};

use syntax_kind::kinds;

// Whether one of the last five of `count` tokens, the last of which ends at `end`, is such a string.
pub(crate) fn has_likely_unterminated_string(
    script: &[u8],
    kinds: &[u16],
    starts: &[u32],
    count: usize,
    end: usize,
) -> bool
    requires { (count ≤ length kinds.now) × (count ≤ length starts.now) }
    ensures { result ≡ hint script.now kinds.now starts.now 5 count end }
{
    let mut end = end;
    for i in (count.saturating_sub(5)..count).rev() {
        let start = starts[i] as usize;
        if is_suspect(script, kinds[i], start, end) {
            return true;
        }
        end = start;
    }
    false
}

fn is_suspect(script: &[u8], kind: u16, start: usize, end: usize) -> bool
    ensures { result ≡ suspect script.now kind start end }
{
    kind == kinds::STRING
        && script
            .get(start..end.min(script.len()))
            .is_some_and(is_telling)
}

fn is_telling(text: &[u8]) -> bool
    ensures { result ≡ tells text.now }
{
    has(text, b"(") && (has(text, b"//") || has(text, b";\n"))
}

fn has(text: &[u8], what: &[u8]) -> bool
    requires { 0 < length what.now }
    ensures { result ≡ somewhere what.now text.now }
{
    text.windows(what.len()).any(|window| window == what)
}
