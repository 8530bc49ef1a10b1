// How names are shown: nothing that a disk or a folder of the system has in a name reaches a terminal or a line's end as it is.

use std::alloc::{AllocError, Global};
use std::str;

/// A character has at most so many bytes.
const LONGEST: usize = 4;

/// The first character of some bytes, and how many of them it takes.
fn first_char(bytes: &[u8]) -> Option<(char, usize)> {
    for length in 1..=LONGEST {
        if let Some(front) = bytes.get(..length)
            && let Ok(text) = str::from_utf8(front)
            && let Some(first) = text.chars().next()
        {
            return Some((first, length));
        }
    }
    None
}

static DIGITS: [char; 16] = [
    '0', '1', '2', '3', '4', '5', '6', '7', '8', '9', 'a', 'b', 'c', 'd', 'e', 'f',
];

/// Adds a byte as `\x1b`.
fn add_byte(byte: u8, shown: &mut String) -> Result<(), AllocError> {
    shown.push_str("\\x")?;
    shown.push(DIGITS[usize::from(byte / 16)])?;
    shown.push(DIGITS[usize::from(byte % 16)])
}

/// Adds a character, by its bytes where it is a control character.
fn add_char(c: char, bytes: &[u8], shown: &mut String) -> Result<(), AllocError> {
    if c.is_control() {
        for byte in bytes {
            add_byte(*byte, shown)?;
        }
        return Ok(());
    }
    if c == '\\' {
        shown.push(c)?;
    }
    shown.push(c)
}

/// A name or a path as it is shown: control characters and bytes that are no text as `\x1b`, a backslash twice.
pub fn shown(alloc: Global, bytes: &[u8]) -> Result<String, AllocError> {
    let mut shown = String::new(alloc);
    let mut passed = 0;
    for (at, byte) in bytes.iter().enumerate() {
        if at < passed {
            continue;
        }
        match first_char(&bytes[at..]) {
            Some((c, length)) => {
                let end = at.saturating_add(length).min(bytes.len());
                add_char(c, &bytes[at..end], &mut shown)?;
                passed = end;
            }
            None => add_byte(*byte, &mut shown)?,
        }
    }
    Ok(shown)
}

/// A path with a name behind it.
pub fn below(alloc: Global, path: &[u8], name: &[u8]) -> Result<Vec<u8>, AllocError> {
    let mut below = Vec::from_slice(alloc, path)?;
    if below.last() != Some(&b'/') {
        below.push(b'/')?;
    }
    below.extend_from_slice(name)?;
    Ok(below)
}
