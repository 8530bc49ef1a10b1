// Bytes as texts show them.

ghost use Rattle.std.specs.Prelude.{◌<◌, IfSome};

use std::alloc::{AllocError, Global};

/// How many bytes stand on a line.
const LINE_LEN: usize = 30;

/// The value of a lower-case digit of base 16.
fn digit_value(digit: u8) -> Option<u8>
    ensures { IfSome result (λ value. value < 16) }
{
    match digit {
        b'0'..=b'9' => Some(digit - b'0'),
        b'a'..=b'f' => Some(digit - b'a' + 10),
        _ => None,
    }
}

/// The byte that two digits spell.
fn pair_value(high: u8, low: u8) -> Option<u8> {
    Some(digit_value(high)? * 16 + digit_value(low)?)
}

/// The bytes that pairs of digits spell.
pub fn parse_pairs(alloc: Global, text: &str) -> Result<Option<Vec<u8>>, AllocError> {
    let mut bytes = Vec::new(alloc);
    for pair in text.as_bytes().chunks(2) {
        let [high, low] = pair else {
            return Ok(None);
        };
        match pair_value(*high, *low) {
            Some(byte) => bytes.push(byte)?,
            None => return Ok(None),
        }
    }
    Ok(Some(bytes))
}

/// Puts what stands behind a `\` at the end of bytes, and answers whether it may stand there.
fn push_escaped(bytes: &mut Vec<u8>, text: &[u8]) -> Result<bool, AllocError> {
    match text {
        [b'n', rest @ ..] => {
            bytes.push(b'\n')?;
            bytes.extend_from_slice(rest)?;
        }
        [b'x', high, low, rest @ ..] => {
            let Some(byte) = pair_value(*high, *low) else {
                return Ok(false);
            };
            bytes.push(byte)?;
            bytes.extend_from_slice(rest)?;
        }
        _ => return Ok(false),
    }
    Ok(true)
}

/// The bytes of a text in which `\n` stands for a newline, and `\x41` for the byte 41.
pub fn unescaped(alloc: Global, text: &str) -> Result<Option<Vec<u8>>, AllocError> {
    let mut bytes = Vec::new(alloc);
    let mut is_first = true;
    for part in text.split('\\') {
        if is_first {
            bytes.extend_from_slice(part.as_bytes())?;
        } else if !push_escaped(&mut bytes, part.as_bytes())? {
            return Ok(None);
        }
        is_first = false;
    }
    Ok(Some(bytes))
}

/// Prints pairs of digits, on lines of 30 bytes.
pub fn dump(alloc: Global, bytes: &[u8]) -> Result<String, AllocError> {
    let mut text = String::new(alloc);
    for line in bytes.chunks(LINE_LEN) {
        for byte in line {
            text.push_str(format!(in alloc; "{byte:02x}")?.as_str())?;
        }
        text.push('\n')?;
    }
    Ok(text)
}
