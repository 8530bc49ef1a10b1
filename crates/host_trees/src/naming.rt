// Paths of the system, and names at their ends.

ghost use Rattle.std.specs.Prelude.{◌≡◌};
ghost use Rattle.host_trees.specs.Naming.{is_dots, last_part, own_name, without_slashes};

use std::alloc::{AllocError, Global};

/// A path without the slashes at its end.
fn trimmed(path: &str) -> &str
    ensures { result.now ≡ without_slashes path.now }
{
    path.trim_end_matches('/')
}

/// What stands behind the last slash of a path, or all where there is none.
fn last_part(path: &str) -> &str
    ensures { result.now ≡ last_part path.now }
{
    match path.rsplit_once('/') {
        Some((_, name)) => name,
        None => path,
    }
}

/// Whether a name is `.` or `..`.
fn is_dots(name: &str) -> bool
    ensures { result ≡ is_dots name.now }
{
    name == "." || name == ".."
}

/// The last name of a path of the system; nothing where that is no name of its own.
pub fn own_name(source: &str) -> &str
    ensures { result.now ≡ own_name source.now }
{
    let name = last_part(trimmed(source));
    if is_dots(name) { "" } else { name }
}

/// A path of the system with a name behind it.
pub fn joined(alloc: Global, path: &str, name: &str) -> Result<String, AllocError> {
    let before = path.trim_end_matches('/');
    format!(in alloc; "{before}/{name}")
}
