// The words of a command.

use std::alloc::{AllocError, Global};

/// The first word of a text, and what stands behind the space that ends it. `None` is for a text with no word there.
fn first_word(text: &str) -> Option<(&str, Option<&str>)> {
    if let Some(quoted) = text.strip_prefix('\'') {
        let (word, behind) = quoted.split_once('\'')?;
        if behind.is_empty() {
            return Some((word, None));
        }
        return Some((word, Some(behind.strip_prefix(' ')?)));
    }
    let (word, behind) = match text.split_once(' ') {
        Some((word, behind)) => (word, Some(behind)),
        None => (text, None),
    };
    if word.is_empty() {
        return None;
    }
    Some((word, behind))
}

/// The words of a text, which are parted by one space. A word may stand in `'`. `None` is for any other text.
pub fn words_of<'a>(alloc: Global, text: &'a str) -> Result<Option<Vec<&'a str>>, AllocError> {
    let mut words = Vec::new(alloc);
    let mut rest = text;
    for _ in 0..=text.len() {
        let Some((word, behind)) = first_word(rest) else {
            return Ok(None);
        };
        words.push(word)?;
        match behind {
            Some(behind) => rest = behind,
            None => return Ok(Some(words)),
        }
    }
    Ok(None)
}
