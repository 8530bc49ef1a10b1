// The words of a line, as the reader wants them.

use std::alloc::{AllocError, Global};

/// A word with one dash in front, as `find` has it elsewhere, with the two that the reader wants.
fn with_dashes(word: &str) -> &str {
    match word {
        "-name" => "--name",
        "-type" => "--type",
        _ => word,
    }
}

/// The words of a line as `read` and `read_shell` take them: behind `find`, `-name` and `-type` may stand with one dash.
pub fn prepared<'a>(alloc: Global, words: &'a [String]) -> Result<Vec<&'a str>, AllocError> {
    let mut prepared = Vec::new(alloc);
    let mut is_finding = false;
    for word in words {
        let word = word.as_str();
        prepared.push(if is_finding { with_dashes(word) } else { word })?;
        is_finding = word != "--" && (is_finding || word == "find");
    }
    Ok(prepared)
}
