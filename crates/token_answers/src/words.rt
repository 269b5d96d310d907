// The parts of a line.
use crate::failure::Failure;
use questions::{decimal, split_once};

// What stands before the first `sign`, and what follows it.
pub fn cut(text: &[u8], sign: u8) -> Result<(&[u8], &[u8]), Failure> {
    split_once(text, sign).ok_or(Failure::Malformed)
}

// Numbers are decimal. A `+` may stand before one.
pub fn number(text: &[u8]) -> Result<u32, Failure> {
    decimal(text.strip_prefix(b"+").unwrap_or(text))
        .and_then(|n| u32::try_from(n).ok())
        .ok_or(Failure::Malformed)
}

// The number before the first `sign`, and what follows it.
pub fn cut_number(text: &[u8], sign: u8) -> Result<(u32, &[u8]), Failure> {
    let (n, rest) = cut(text, sign)?;
    Ok((number(n)?, rest))
}
