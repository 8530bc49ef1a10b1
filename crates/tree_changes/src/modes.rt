// Modes as they are told on a line.

ghost use Rattle.std.specs.Prelude.{◌≡◌, ◌∷◌, IfOk, MatchOption, None, false, option_copied, option_map};
ghost use Rattle.std.specs.Str.Parse.{digits_value};
ghost use Rattle.tree_changes.specs.ModeTexts.{IsModeTold, IsOctal, bits_named, clause_behind, clauses_told, doing_named, mask_named, mode_parts, parts_in};
ghost use Rattle.tree_changes.specs.ModeTexts.{rights_behind};
ghost use Rattle.tree_changes.specs.Modes.{clause_applied, mode_applied};

use crate::numbers::read_number;
use std::alloc::{AllocError, Global};

/// What a clause does with its bits.
#[derive(Clone, Copy, Debug, PartialEq, Eq)]
enum Doing {
    Add,
    Take,
    Set,
}

/// A clause of a mode, as `u+x`.
#[derive(Clone, Copy, Debug, PartialEq, Eq)]
struct Clause {
    doing: Doing,
    /// The bits that it is about.
    mask: u16,
    /// Those of them that it adds, takes or sets.
    bits: u16,
    /// Whether it also is about the right to execute where some have it, or of a folder.
    is_large: bool,
}

/// Permissions that are to be: in octal, or clauses.
#[derive(Debug, Drop)]
pub struct Modes {
    octal: Option<u16>,
    clauses: Vec<Clause>,
}

/// The bits of those whom a letter names.
fn mask_of(letter: u8) -> Option<u16>
    ensures { result ≡ mask_named letter }
{
    match letter {
        b'u' => Some(0o4700),
        b'g' => Some(0o2070),
        b'o' => Some(0o1007),
        b'a' => Some(0o7777),
        _ => None,
    }
}

/// What a sign stands for.
fn doing_of(sign: u8) -> Option<Doing>
    ensures { result ≡ doing_named sign }
{
    match sign {
        b'+' => Some(Doing::Add),
        b'-' => Some(Doing::Take),
        b'=' => Some(Doing::Set),
        _ => None,
    }
}

/// The bits of a right.
fn bits_of(letter: u8) -> Option<u16>
    ensures { result ≡ bits_named letter }
{
    match letter {
        b'r' => Some(0o444),
        b'w' => Some(0o222),
        b'x' => Some(0o111),
        b's' => Some(0o6000),
        b't' => Some(0o1000),
        _ => None,
    }
}

/// The rights behind the sign of a clause: their bits, and whether `X` is among them.
fn read_rights(letters: &[u8]) -> Option<(u16, bool)>
    ensures { result ≡ rights_behind 0 false letters.now }
{
    let (mut bits, mut is_large) = (0u16, false);
    let mut rest = letters;
    while let [letter, behind @ ..] = rest {
        if *letter == b'X' {
            is_large = true;
        } else {
            bits |= bits_of(*letter)?;
        }
        rest = behind;
    }
    Some((bits, is_large))
}

/// Reads a clause.
fn read_clause(clause: &[u8]) -> Option<Clause>
    ensures { result ≡ clause_behind None clause.now }
{
    let mut mask = None;
    let mut rest = clause;
    while let [letter, behind @ ..] = rest {
        if let Some(doing) = doing_of(*letter) {
            let (bits, is_large) = read_rights(behind)?;
            return Some(Clause {
                doing,
                mask: mask.unwrap_or(0o7777),
                bits,
                is_large,
            });
        }
        mask = Some(mask.unwrap_or(0) | mask_of(*letter)?);
        rest = behind;
    }
    None
}

/// The first part of a text that commas cut, and what stands behind the comma, where there is one.
fn first_part(text: &str) -> (&str, Option<&str>)
    ensures { mode_parts text.now ≡ result.0.now ∷ parts_in (option_copied result.1) }
{
    match text.split_once(',') {
        Some((part, rest)) => (part, Some(rest)),
        None => (text, None),
    }
}

/// Reads clauses with commas between them. `Err` comes only for want of memory.
fn read_clauses(alloc: Global, text: &str) -> Result<Option<Vec<Clause>>, AllocError>
    ensures { IfOk result (λ read. option_map (λ clauses. clauses.items) read ≡ clauses_told (mode_parts text.now)) }
{
    let mut clauses = Vec::new(alloc);
    let mut rest = Some(text);
    while let Some(text) = rest {
        let (part, behind) = first_part(text);
        match read_clause(part.as_bytes()) {
            Some(clause) => clauses.push(clause)?,
            None => return Ok(None),
        }
        rest = behind;
    }
    Ok(Some(clauses))
}

/// Reads octal digits of permissions, with any zeros before them.
fn read_octal(text: &str) -> Option<u16>
    ensures { MatchOption result (¬ IsOctal text.now) (λ bits. IsOctal text.now × (bits ≡ digits_value 8 text.now)) }
{
    match read_number(text, 8) {
        Some(bits) if bits < 0o10000 => Some(bits as u16),
        _ => None,
    }
}

impl Clause {
    /// Permissions behind this clause, of a folder or of something else.
    fn apply(self, permissions: u16, is_folder: bool) -> u16
        ensures { result ≡ clause_applied self permissions is_folder }
    {
        let runs = self.is_large && (is_folder || permissions & 0o111 != 0);
        let bits = if runs { self.bits | 0o111 } else { self.bits };
        let bits = bits & self.mask;
        match self.doing {
            Doing::Add => permissions | bits,
            Doing::Take => permissions & (0o7777 ^ bits),
            Doing::Set => (permissions & (0o7777 ^ self.mask)) | bits,
        }
    }
}

impl Modes {
    /// Reads a mode in octal, or clauses with commas between them: letters of `ugoa`, one of `+-=`, letters of `rwxXst`. `None` where the text is neither;
    /// `Err` comes only for want of memory.
    pub fn read(alloc: Global, text: &str) -> Result<Option<Modes>, AllocError>
        ensures { IfOk result (IsModeTold text.now) }
    {
        if let Some(bits) = read_octal(text) {
            return Ok(Some(Modes {
                octal: Some(bits),
                clauses: Vec::new(alloc),
            }));
        }
        match read_clauses(alloc, text)? {
            Some(clauses) => Ok(Some(Modes {
                octal: None,
                clauses,
            })),
            None => Ok(None),
        }
    }

    /// The permissions of something that has these, a folder or something else.
    pub fn apply(&self, permissions: u16, is_folder: bool) -> u16
        ensures { result ≡ mode_applied self.now permissions is_folder }
    {
        if let Some(bits) = self.octal {
            return bits;
        }
        let mut permissions = permissions;
        for clause in self.clauses.iter() {
            permissions = clause.apply(permissions, is_folder);
        }
        permissions
    }
}
