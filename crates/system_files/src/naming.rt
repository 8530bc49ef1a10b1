// The name of a new file beside another one.

ghost use Rattle.std.specs.Prelude.{◌≡◌, ◌≤◌, ◌++◌, [], ◌∷◌, length, take, string_bytes, IfOk};
ghost use Rattle.system_files.specs.Naming.{IsBeside, ending};

use std::alloc::{AllocError, Global};

/// How many bytes a name in a folder may have.
const NAME_LEN: usize = 255;

/// The folder of a path.
pub fn folder_of(path: &str) -> &str {
    match path.rsplit_once('/') {
        Some(("", _)) => "/",
        Some((folder, _)) => folder,
        None => ".",
    }
}

/// The first bytes of a text, as many as whole characters have in so many.
fn cut(text: &str, most: usize) -> &str
    ensures fits { length result.now ≤ most }
    ensures front { result.now ≡ take (length result.now) text.now }
{
    for end in (0..=most.min(text.len())).rev() {
        if let Some((front, _)) = text.split_at_checked(end) {
            return front;
        }
    }
    ""
}

/// What the name of a new file ends in.
fn ending_of(alloc: Global, number: u64) -> Result<String, AllocError>
    ensures text { IfOk result (λ text. string_bytes text ≡ ending number) }
    ensures short { IfOk result (λ text. length (string_bytes text) ≤ 24) }
{
    format!(in alloc; ".new{number}")
}

/// The path of what has this name in a folder.
fn path_in(alloc: Global, folder: &str, name: &str, end: &str) -> Result<String, AllocError>
    ensures { IfOk result (λ path. string_bytes path ≡ (folder.now ++ 47 ∷ []) ++ (name.now ++ end.now)) }
{
    format!(in alloc; "{folder}/{name}{end}")
}

/// A name for a file beside that of a path: as much of its name as fits, then `.new` and the number.
pub fn name_beside(alloc: Global, path: &str, number: u64) -> Result<String, AllocError>
    ensures { IfOk result (λ name. IsBeside path.now number (string_bytes name)) }
{
    let end = ending_of(alloc, number)?;
    let end = end.as_str();
    let most = NAME_LEN.saturating_sub(end.len());
    match path.rsplit_once('/') {
        Some((folder, own)) => path_in(alloc, folder, cut(own, most), end),
        None => {
            let front = cut(path, most);
            format!(in alloc; "{front}{end}")
        }
    }
}
