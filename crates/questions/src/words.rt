// Words: what stands before a sign, and what follows it.
ghost use Rattle.std.specs.Prelude.{◌≡◌, ◌+◌, ◌<◌, ◌==◌, length, take, drop, position, MatchOption};
ghost use Rattle.questions.specs.Places.{place_of};

fn find(text: &[u8], sign: u8) -> Option<usize>
    ensures { result ≡ position (λ b. b == sign) text.now }
{
    text.iter().position(|b| *b == sign)
}

// What stands before the first byte that is `sign`, and what follows it.
pub fn split_once(text: &[u8], sign: u8) -> Option<(&[u8], &[u8])>
    ensures { MatchOption result (place_of sign text.now ≡ length text.now) (λ p. (place_of sign text.now < length text.now) × (p.0.now ≡ take (place_of sign text.now) text.now) × (p.1.now ≡ drop (place_of sign text.now + 1) text.now)) }
{
    let at = find(text, sign)?;
    Some((&text[..at], &text[at + 1..]))
}
