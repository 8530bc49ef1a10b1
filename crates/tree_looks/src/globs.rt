// Patterns of names.

use std::alloc::{AllocError, Global};
use std::str;

/// A character has at most so many bytes.
const LONGEST: usize = 4;

/// A part of a pattern.
#[derive(Debug, Drop)]
enum Part {
    /// Any bytes, or none.
    Any,
    /// One character.
    One,
    /// This character.
    Only(char),
    /// One character of some, or one that is none of them.
    Of {
        is_not: bool,
        ranges: Vec<(char, char)>,
    },
}

/// A pattern of names: `*` stands for any characters, `?` for one, `[a-z]` for one of some, `[!a-z]` for one that is none of them, and a backslash takes the
/// meaning of what follows it away.
#[derive(Debug, Drop)]
pub struct Glob {
    parts: Vec<Part>,
}

/// The set of characters behind a bracket at a place of a pattern, and the place behind it. `None` where no bracket closes it.
fn set_at(
    alloc: Global,
    pattern: &[char],
    start: usize,
) -> Result<Option<(Part, usize)>, AllocError> {
    let is_not = pattern.get(start) == Some(&'!') || pattern.get(start) == Some(&'^');
    let first = if is_not {
        start.saturating_add(1)
    } else {
        start
    };
    let mut ranges = Vec::new(alloc);
    let mut passed = first;
    for at in first..pattern.len() {
        if at < passed {
            continue;
        }
        let from = pattern[at];
        if from == ']' && at > first {
            return Ok(Some((Part::Of { is_not, ranges }, at + 1)));
        }
        match (pattern.get(at + 1), pattern.get(at.saturating_add(2))) {
            (Some('-'), Some(to)) if *to != ']' => {
                ranges.push((from, *to))?;
                passed = at.saturating_add(3);
            }
            _ => {
                ranges.push((from, from))?;
                passed = at + 1;
            }
        }
    }
    Ok(None)
}

/// The part at a place of a pattern, and the place behind it.
fn part_at(alloc: Global, pattern: &[char], at: usize) -> Result<(Part, usize), AllocError> {
    let behind = at.saturating_add(1);
    Ok(match pattern.get(at) {
        Some('*') => (Part::Any, behind),
        Some('?') => (Part::One, behind),
        Some('[') => match set_at(alloc, pattern, behind)? {
            Some(set) => set,
            None => (Part::Only('['), behind),
        },
        Some('\\') => match pattern.get(behind) {
            Some(next) => (Part::Only(*next), behind.saturating_add(1)),
            None => (Part::Only('\\'), behind),
        },
        Some(only) => (Part::Only(*only), behind),
        None => (Part::Any, behind),
    })
}

/// The first character of some bytes, if they begin with one, and how many bytes it takes; a byte that begins none is taken alone.
fn first_char(bytes: &[u8]) -> (Option<char>, usize) {
    for length in 1..=LONGEST {
        if let Some(front) = bytes.get(..length)
            && let Ok(text) = str::from_utf8(front)
            && let Some(first) = text.chars().next()
        {
            return (Some(first), length);
        }
    }
    (None, 1)
}

impl Part {
    /// Whether one character is as this part asks.
    fn takes(&self, found: Option<char>) -> bool {
        match (self, found) {
            (Part::Any | Part::One, _) => true,
            (Part::Only(only), Some(found)) => *only == found,
            (Part::Only(_), None) => false,
            (Part::Of { is_not, ranges }, Some(found)) => {
                let is_in = ranges
                    .iter()
                    .any(|(from, to)| *from <= found && found <= *to);
                is_in != *is_not
            }
            (Part::Of { is_not, ranges: _ }, None) => *is_not,
        }
    }

    /// Where this part may end in a name, by where it may begin, and by where its characters begin and it ends.
    fn ends(
        &self,
        alloc: Global,
        name: &[u8],
        begins: &[bool],
        borders: &[bool],
    ) -> Result<Vec<bool>, AllocError> {
        let mut ends = vec![in alloc; false; name.len().saturating_add(1)]?;
        let mut is_passed = false;
        for (at, begin) in begins.iter().enumerate() {
            is_passed = is_passed || *begin;
            match self {
                Part::Any => {
                    let is_border = borders.get(at) == Some(&true);
                    set_end(&mut ends, at, is_passed && is_border);
                }
                _ if *begin && at < name.len() => {
                    let (found, length) = first_char(&name[at..]);
                    set_end(&mut ends, at.saturating_add(length), self.takes(found));
                }
                _ => {}
            }
        }
        Ok(ends)
    }
}

/// Notes that a part may end at a place.
fn set_end(ends: &mut [bool], at: usize, is_end: bool) {
    if let Some(end) = ends.get_mut(at)
        && is_end
    {
        *end = true;
    }
}

/// Where the characters of a name begin, and where it ends.
fn borders_of(alloc: Global, name: &[u8]) -> Result<Vec<bool>, AllocError> {
    let mut borders = vec![in alloc; false; name.len().saturating_add(1)]?;
    let mut next = 0usize;
    for at in 0..name.len() {
        if at < next {
            continue;
        }
        set_end(&mut borders, at, true);
        let (_found, length) = first_char(&name[at..]);
        next = at.saturating_add(length);
    }
    set_end(&mut borders, name.len(), true);
    Ok(borders)
}

impl Glob {
    /// Reads a pattern. `Err` comes only for want of memory.
    pub fn read(alloc: Global, pattern: &str) -> Result<Glob, AllocError> {
        let pattern: Vec<char> = pattern.chars().collect(alloc)?;
        let mut parts = Vec::new(alloc);
        let mut passed = 0;
        for at in 0..pattern.len() {
            if at >= passed {
                let (part, behind) = part_at(alloc, &pattern, at)?;
                parts.push(part)?;
                passed = behind;
            }
        }
        Ok(Glob { parts })
    }

    /// Whether a name is as the pattern says. `Err` comes only for want of memory.
    pub fn fits(&self, alloc: Global, name: &[u8]) -> Result<bool, AllocError> {
        let borders = borders_of(alloc, name)?;
        let mut places = vec![in alloc; false; name.len().saturating_add(1)]?;
        set_end(&mut places, 0, true);
        for part in self.parts.iter() {
            places = part.ends(alloc, name, &places, &borders)?;
        }
        Ok(places.get(name.len()) == Some(&true))
    }
}
