// Commands that there aren't.

use crate::forms::{Form, Place, forms_of};
use std::alloc::{AllocError, Global};
use strsim::jaro;

/// How near a name is to a word at least that is told as meant.
const NEAR: f64 = 0.8;

/// A command that there isn't, and the one that may be meant.
#[derive(Clone, Copy, Debug)]
pub struct Unknown<'a> {
    /// The disk that the line names; nothing in a shell.
    pub image: &'a str,
    pub word: &'a str,
    pub meant: Option<&'static str>,
}

/// Adds the names of the commands of these forms.
fn add_names(names: &mut Vec<&'static str>, forms: &[Form]) -> Result<(), AllocError> {
    for form in forms {
        names.push(form.name)?;
    }
    Ok(())
}

/// The names of all commands of a place.
fn names_of(alloc: Global, place: Place) -> Result<Vec<&'static str>, AllocError> {
    let mut names = Vec::new(alloc);
    for forms in forms_of(place) {
        add_names(&mut names, forms)?;
    }
    Ok(names)
}

/// Whether there is such a command.
fn is_known(alloc: Global, place: Place, word: &str) -> Result<bool, AllocError> {
    let names = names_of(alloc, place)?;
    Ok(word == "help" || names.iter().any(|name| *name == word))
}

/// The command whose name is the nearest to a word, where one is near.
fn nearest(alloc: Global, place: Place, word: &str) -> Result<Option<&'static str>, AllocError> {
    let mut best = NEAR;
    let mut meant = None;
    for name in names_of(alloc, place)? {
        let likeness = jaro(alloc, word, name)?;
        if likeness > best {
            best = likeness;
            meant = Some(name);
        }
    }
    Ok(meant)
}

/// The names of the commands of a line, or of a shell, as they are told: with commas between them.
pub fn commands_told(alloc: Global, is_shell: bool) -> Result<String, AllocError> {
    let mut told = String::new(alloc);
    for name in names_of(alloc, place_of(is_shell))? {
        if !told.is_empty() {
            told.push_str(", ")?;
        }
        told.push_str(name)?;
    }
    Ok(told)
}

fn place_of(is_shell: bool) -> Place {
    if is_shell { Place::Shell } else { Place::Line }
}

/// The disk that a line names, and its command.
fn image_and_command<'a>(words: &'a [&'a str]) -> Option<(&'a str, &'a str)> {
    if words.first() == Some(&"format") {
        return None;
    }
    let mut image = None;
    let mut has_value = false;
    for word in words {
        if has_value {
            has_value = false;
        } else if word.starts_with('-') {
            has_value = *word == "--fs" || *word == "--stop";
        } else if let Some(image) = image {
            return Some((image, word));
        } else {
            image = Some(*word);
        }
    }
    None
}

/// A command that there isn't, with the one that may be meant. `None` where there is one of this name.
fn unknown_in<'a>(
    alloc: Global,
    place: Place,
    (image, word): (&'a str, &'a str),
) -> Result<Option<Unknown<'a>>, AllocError> {
    if is_known(alloc, place, word)? {
        return Ok(None);
    }
    Ok(Some(Unknown {
        image,
        word,
        meant: nearest(alloc, place, word)?,
    }))
}

/// Of a line whose words can't be read: its command, where there is no such command.
pub fn unknown_command<'a>(
    alloc: Global,
    words: &'a [&'a str],
) -> Result<Option<Unknown<'a>>, AllocError> {
    match image_and_command(words) {
        Some(found) => unknown_in(alloc, Place::Line, found),
        None => Ok(None),
    }
}

/// Of a shell's line whose words can't be read: its command, where there is no such command.
pub fn unknown_shell_command<'a>(
    alloc: Global,
    words: &'a [&'a str],
) -> Result<Option<Unknown<'a>>, AllocError> {
    match words.first() {
        Some(word) if !word.starts_with('-') => unknown_in(alloc, Place::Shell, ("", word)),
        _ => Ok(None),
    }
}
