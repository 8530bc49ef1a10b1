// The file that is to be written is found, and locked.

ghost use Rattle.std.specs.Prelude.{◌≡◌, IfOk, IfSome, true};
ghost use Rattle.system_files.specs.Calls.{IsLocked, Looked};
ghost use Rattle.system_files.specs.Targets.{IsLockedTarget, IsTarget};

use crate::{Found, System, WriteFault};
use std::alloc::Global;

/// Whether the name of a file may be that of a link.
#[derive(Clone, Copy, Debug, PartialEq, Eq)]
pub enum Links {
    /// The file that it leads to is written.
    Followed,
    /// It is refused with `WriteFault::Link`.
    Refused,
}

/// How often a file is looked for that others replace meanwhile.
const TRIES: u32 = 100;

/// A file that is to be written.
#[derive(Drop)]
pub enum Target<H> {
    /// A new file takes this path. The regular file that has it, if there is one, is open and locked.
    Replaced { path: String, old: Option<H> },
    /// What is open is no regular file.
    InPlace(H),
}

/// Whether an open file is regular, could be locked, and is the one under this path then; a link is not followed.
fn is_locked_at<Y: System>(system: &mut Y, file: &Y::Handle, path: &str) -> Result<bool, WriteFault>
    ensures looked { Looked (Y.calls system.old) (Y.calls system.new) }
    ensures locked { result ≡ Ok true → IsLocked path.now (Y.calls system.old) (Y.calls system.new) }
{
    if system.kind(file)? != Found::Regular {
        return Ok(false);
    }
    system.lock(file)?;
    system.is_at(file, path)
}

/// The file under a path without links, open and locked. `None` where it is another one by then.
fn lock_at<Y: System>(system: &mut Y, path: String) -> Result<Option<Target<Y::Handle>>, WriteFault>
    ensures looked { Looked (Y.calls system.old) (Y.calls system.new) }
    ensures target { IfOk result (λ found. IfSome found (IsLockedTarget (Y.calls system.old) (Y.calls system.new))) }
{
    let file = system.open(path.as_str())?;
    if !is_locked_at(system, &file, path.as_str())? {
        return Ok(None);
    }
    Ok(Some(Target::Replaced {
        path,
        old: Some(file),
    }))
}

/// What has a name and is no regular file, opened. `None` where it is one by then.
fn open_in_place<Y: System>(
    system: &mut Y,
    name: &str,
) -> Result<Option<Target<Y::Handle>>, WriteFault>
    ensures looked { Looked (Y.calls system.old) (Y.calls system.new) }
    ensures target { IfOk result (λ found. IfSome found (IsTarget name.now (Y.calls system.old) (Y.calls system.new))) }
{
    let file = system.open(name)?;
    match system.kind(&file)? {
        Found::Regular => Ok(None),
        _ => Ok(Some(Target::InPlace(file))),
    }
}

/// The file that a link leads to.
fn follow<Y: System>(system: &mut Y, name: &str) -> Result<Option<Target<Y::Handle>>, WriteFault>
    ensures looked { Looked (Y.calls system.old) (Y.calls system.new) }
    ensures target { IfOk result (λ found. IfSome found (IsTarget name.now (Y.calls system.old) (Y.calls system.new))) }
{
    match system.look_through(name)? {
        Found::Regular => {
            let path = system.resolve(name)?;
            lock_at(system, path)
        }
        Found::Folder => Err(WriteFault::Folder),
        _ => open_in_place(system, name),
    }
}

/// The file of a name. `None` where another one took its place meanwhile.
fn try_take<Y: System>(
    system: &mut Y,
    alloc: Global,
    name: &str,
    links: Links,
) -> Result<Option<Target<Y::Handle>>, WriteFault>
    ensures looked { Looked (Y.calls system.old) (Y.calls system.new) }
    ensures target { IfOk result (λ found. IfSome found (IsTarget name.now (Y.calls system.old) (Y.calls system.new))) }
{
    match (system.look(name)?, links) {
        (Found::Nothing, _) => Ok(Some(Target::Replaced {
            path: String::from_str(alloc, name)?,
            old: None,
        })),
        (Found::Regular, _) => lock_at(system, String::from_str(alloc, name)?),
        (Found::Folder, _) => Err(WriteFault::Folder),
        (Found::Link, Links::Refused) => Err(WriteFault::Link),
        (Found::Link, Links::Followed) => follow(system, name),
        (Found::Other, _) => open_in_place(system, name),
    }
}

/// The file of a name. It is looked for again where another one took its place meanwhile, so often and then it is in use.
pub fn take<Y: System>(
    system: &mut Y,
    alloc: Global,
    name: &str,
    links: Links,
) -> Result<Target<Y::Handle>, WriteFault>
    ensures looked { Looked (Y.calls system.old) (Y.calls system.new) }
    ensures target { IfOk result (IsTarget name.now (Y.calls system.old) (Y.calls system.new)) }
{
    for _ in 0..TRIES {
        if let Some(target) = try_take(system, alloc, name, links)? {
            return Ok(target);
        }
    }
    Err(WriteFault::InUse)
}
