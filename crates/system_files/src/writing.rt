// A file is written.

ghost use Rattle.system_files.specs.Calls.{Writes};

use crate::replacing::replace;
use crate::taking::{Target, take};
use crate::{Links, Source, System, WriteFault};
use std::alloc::Global;

/// Writes the bytes of a source to the file of a name, by the calls of this system.
pub fn write_by<Y: System, S: Source + Drop>(
    system: &mut Y,
    alloc: Global,
    name: &str,
    links: Links,
    source: S,
) -> Result<(), WriteFault>
    ensures { Writes name.now (S.bytes_of source) (Y.calls system.old) (Y.calls system.new) result }
{
    if name.is_empty() {
        return Err(WriteFault::Name);
    }
    match take(system, alloc, name, links)? {
        Target::Replaced { path, old } => replace(system, alloc, path.as_str(), &old, source),
        Target::InPlace(mut file) => system.write(&mut file, source),
    }
}
