// Bytes in lower-case hexadecimal.
ghost use Rattle.std.specs.Prelude.{◌≡◌, ◌<◌, IfSome, IfOk, vec_items};
ghost use Rattle.std.specs.Option.{option_map};
ghost use Rattle.questions.specs.Hex.{digit, pair_byte, pairs, hex_bytes};

use std::alloc::{AllocError, Global};

// Upper-case digits are none, so that a text of bytes has one form.
fn digit_of(b: u8) -> Option<u8>
    ensures value { result ≡ digit b }
    ensures small { IfSome result (λ d. d < 16) }
{
    match b {
        b'0'..=b'9' => Some(b - b'0'),
        b'a'..=b'f' => Some(b - b'a' + 10),
        _ => None,
    }
}

fn byte_of(pair: &[u8]) -> Option<u8>
    ensures { result ≡ pair_byte pair.now }
{
    let [high, low] = pair else {
        return None;
    };
    Some(digit_of(*high)? * 16 + digit_of(*low)?)
}

fn decode_pairs(heap: Global, hex: &[u8]) -> Result<Option<Vec<u8>>, AllocError>
    ensures { IfOk result (λ bytes. option_map vec_items bytes ≡ pairs hex.now) }
{
    let mut bytes = Vec::with_capacity(heap, hex.len() / 2)?;
    for pair in hex.chunks(2) {
        let Some(byte) = byte_of(pair) else {
            return Ok(None);
        };
        bytes.push(byte)?;
    }
    Ok(Some(bytes))
}

// The bytes that `hex` spells, if it spells any. No digits at all spell nothing; `-` spells no bytes.
pub fn decode(heap: Global, hex: &[u8]) -> Result<Option<Vec<u8>>, AllocError>
    ensures { IfOk result (λ bytes. option_map vec_items bytes ≡ hex_bytes hex.now) }
{
    match hex {
        [] => Ok(None),
        b"-" => Ok(Some(Vec::new(heap))),
        _ => decode_pairs(heap, hex),
    }
}
