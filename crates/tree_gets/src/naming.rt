// Names of a volume in folders of the system.

use std::alloc::{AllocError, Global};
use std::str;
use tree_lines::shown;

/// A name of a volume in a folder of the system.
#[derive(Debug, Drop)]
pub enum SystemName {
    /// It stands there as it is.
    Same(String),
    /// It has bytes that are no text, or control characters: it stands there as it is shown.
    Escaped(String),
    /// It would lead elsewhere.
    Bad,
}

/// Whether a name would lead out of its folder.
fn is_bad(name: &[u8]) -> bool {
    name.is_empty()
        || name == b".".as_slice()
        || name == b"..".as_slice()
        || name.contains(&b'/')
        || name.contains(&0)
}

/// Whether a text has control characters.
fn has_controls(text: &str) -> bool {
    text.chars().any(|c| c.is_control())
}

/// What a name of a volume is called in a folder of the system.
pub fn system_name(alloc: Global, name: &[u8]) -> Result<SystemName, AllocError> {
    if is_bad(name) {
        return Ok(SystemName::Bad);
    }
    match str::from_utf8(name) {
        Ok(text) if !has_controls(text) => { Ok(SystemName::Same(String::from_str(alloc, text)?)) }
        _ => Ok(SystemName::Escaped(shown(alloc, name)?)),
    }
}
