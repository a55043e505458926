// Hexadecimal text.
ghost use Rattle.std.specs.Prelude.{◌≡◌, ◌<◌, IfOk};
ghost use Rattle.captures.specs.Digits.{digit_value, byte_value, word_value, pairs_value, bytes_value, Decoded};

use super::line::LineFault;
use std::alloc::Global;
use terms::failure::Failure;

// Why no bytes were made of a text.
pub type Undecoded = Failure<LineFault>;

// A digit in either case.
fn digit(b: u8) -> Result<u8, LineFault>
    ensures value { result ≡ digit_value b }
    ensures small { IfOk result (λ d. d < 16) }
{
    let value = char::from(b).to_digit(16).ok_or(LineFault::NotHex)?;
    Ok(value as u8)
}

// Two digits are a byte, the first the higher.
fn byte(high: u8, low: u8) -> Result<u8, LineFault>
    ensures { result ≡ byte_value high low }
{
    let h = digit(high)?;
    let l = digit(low)?;
    Ok(h * 16 + l)
}

// Exactly eight digits.
pub(crate) fn word(text: &[u8]) -> Result<u32, LineFault>
    ensures { result ≡ word_value text.now }
{
    let [a, b, c, d, e, f, g, h] = text else {
        return Err(LineFault::NotHex);
    };
    let w = byte(*a, *b)?;
    let x = byte(*c, *d)?;
    let y = byte(*e, *f)?;
    let z = byte(*g, *h)?;
    Ok(u32::from_be_bytes([w, x, y, z]))
}

// Two digits to a byte.
fn pairs(heap: Global, text: &[u8]) -> Result<Vec<u8>, Undecoded>
    ensures { Decoded (pairs_value text.now) result }
{
    let mut bytes = Vec::new(heap);
    for pair in text.chunks_exact(2) {
        let b = byte(pair[0], pair[1])?;
        bytes.push(b)?;
    }
    if text.len() % 2 != 0 {
        return Err(Failure::Cause(LineFault::NotHex));
    }
    Ok(bytes)
}

// The bytes that the text writes, two digits to a byte; `-` writes none.
pub fn decode(heap: Global, text: &[u8]) -> Result<Vec<u8>, Undecoded>
    ensures { Decoded (bytes_value text.now) result }
{
    match text {
        [b'-'] => Ok(Vec::new(heap)),
        _ => pairs(heap, text),
    }
}
