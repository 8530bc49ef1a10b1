// A new file takes the place of another one.

ghost use Rattle.std.specs.Prelude.{is_some, string_bytes, IfOk, OnErr};
ghost use Rattle.system_files.specs.Calls.{Goes, Makes, MakesNone, Replaces, kept_steps, plan};

use crate::naming::{folder_of, name_beside};
use crate::{Source, System, WriteFault};
use std::alloc::Global;
use std::io::ErrorKind;

/// A new file beside that of a path, with its own name. Names that are taken are passed over.
fn make_beside<Y: System>(
    system: &mut Y,
    alloc: Global,
    path: &str,
) -> Result<(String, Y::Handle), WriteFault>
    ensures made { IfOk result (λ made. Makes path.now (string_bytes made.0) (Y.calls system.old) (Y.calls system.new)) }
    ensures fault { OnErr result (MakesNone (Y.calls system.old) (Y.calls system.new)) }
{
    for number in 0..u64::MAX {
        let name = name_beside(alloc, path, number)?;
        match system.make(name.as_str())? {
            Some(file) => return Ok((name, file)),
            None => {}
        }
    }
    Err(WriteFault::System(ErrorKind::AlreadyExists.into()))
}

/// Gives a new file what the old one has, if there is an old one.
fn keep_old<Y: System>(
    system: &mut Y,
    file: &Y::Handle,
    old: &Option<Y::Handle>,
) -> Result<(), WriteFault>
    ensures { Goes (kept_steps (is_some old.now)) (Y.calls system.old) (Y.calls system.new) result }
{
    match old {
        Some(old) => system.keep(file, old),
        None => Ok(()),
    }
}

/// Writes a new file and gives it its name.
fn fill<Y: System, S: Source + Drop>(
    system: &mut Y,
    beside: &str,
    file: &mut Y::Handle,
    path: &str,
    old: &Option<Y::Handle>,
    source: S,
) -> Result<(), WriteFault>
    ensures { Goes (plan (is_some old.now) (S.bytes_of source) beside.now path.now) (Y.calls system.old) (Y.calls system.new) result }
{
    keep_old(system, file, old)?;
    system.write(file, source)?;
    system.sync(file)?;
    system.rename(beside, path)
}

/// Puts a new file of these bytes in the place of that of a path, which is no link. Where there is an old one, it is open and locked.
pub fn replace<Y: System, S: Source + Drop>(
    system: &mut Y,
    alloc: Global,
    path: &str,
    old: &Option<Y::Handle>,
    source: S,
) -> Result<(), WriteFault>
    ensures { Replaces (is_some old.now) (S.bytes_of source) path.now (Y.calls system.old) (Y.calls system.new) result }
{
    let folder = system.open_folder(folder_of(path))?;
    let (beside, mut file) = make_beside(system, alloc, path)?;
    match fill(system, beside.as_str(), &mut file, path, old, source) {
        Ok(()) => system.sync_folder(&folder),
        Err(fault) => {
            system.remove(beside.as_str());
            Err(fault)
        }
    }
}
