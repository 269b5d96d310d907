// Decimal numbers.
ghost use Rattle.std.specs.Prelude.{◌≡◌, ◌<◌, IfSome};
ghost use Rattle.questions.specs.Decimal.{digit, decimal};

fn digit_of(b: u8) -> Option<u8>
    ensures value { result ≡ digit b }
    ensures small { IfSome result (λ d. d < 10) }
{
    match b {
        b'0'..=b'9' => Some(b - b'0'),
        _ => None,
    }
}

// The number that `text` is, if it is decimal digits; one past a `u64` counts as the last.
pub fn decimal(text: &[u8]) -> Option<u64>
    ensures { result ≡ decimal text.now }
{
    if text.is_empty() {
        return None;
    }
    let mut n = 0u64;
    for b in text {
        let digit = digit_of(*b)?;
        n = n.saturating_mul(10).saturating_add(u64::from(digit));
    }
    Some(n)
}
