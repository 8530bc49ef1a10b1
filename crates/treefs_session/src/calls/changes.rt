// Calls that change names, sizes, attributes and times, and answer nothing.

ghost use Rattle.std.specs.Prelude.{◌≡◌};
ghost use Rattle.treefs_session.specs.Changes.{ChangeDoes};

use crate::call::Call;
use flush_store::FlushStore;
use std::alloc::Global;
use treefs::{Settings, Volume};
use treefs_model::Fault;

/// A change that answers nothing. Each is the call of a volume that has its name.
#[derive(Clone, Copy)]
pub enum Change<'a> {
    /// Takes the name of a file or a symbolic link out of a directory.
    Unlink {
        directory: u32,
        name: &'a [u8],
    },
    /// Takes the name of an empty directory out of another one.
    Rmdir {
        directory: u32,
        name: &'a [u8],
    },
    /// Gives a file or a symbolic link one more name.
    Link {
        number: u32,
        directory: u32,
        name: &'a [u8],
    },
    /// Moves a name of a directory to another one, maybe of another directory.
    Rename {
        directory: u32,
        name: &'a [u8],
        new_directory: u32,
        new_name: &'a [u8],
    },
    /// Sets the size of a file or a symbolic link.
    Truncate {
        number: u32,
        size: u64,
    },
    /// Sets permissions, owner and the time of the last change of the content.
    SetAttributes {
        number: u32,
        settings: Settings,
    },
    /// Sets when the content of an inode changed, which a flush writes.
    SetMtime {
        number: u32,
        mtime: i64,
    },
}

impl Call for Change<'_> {
    type Answer = ();

    ghost does = { λ c T old new volume volume' result. ChangeDoes c T old new volume volume' result };

    fn make<S: FlushStore>(
        &self,
        alloc: Global,
        store: &mut S,
        volume: &mut Volume,
    ) -> Result<(), Fault> {
        match *self {
            Change::Unlink { directory, name } => volume.unlink(alloc, store, directory, name),
            Change::Rmdir { directory, name } => volume.rmdir(alloc, store, directory, name),
            Change::Link {
                number,
                directory,
                name,
            } => volume.link(alloc, store, number, directory, name),
            Change::Rename {
                directory,
                name,
                new_directory,
                new_name,
            } => volume.rename(alloc, store, directory, name, new_directory, new_name),
            Change::Truncate { number, size } => volume.truncate(alloc, store, number, size),
            Change::SetAttributes { number, settings } => {
                volume.set_attributes(alloc, store, number, settings)
            }
            Change::SetMtime { number, mtime } => volume.set_mtime(store, number, mtime),
        }
    }
}
