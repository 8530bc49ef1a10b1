// The calls of the system, as a trait.

ghost use Rattle.std.specs.Prelude.{◌≡◌, [], ◌∷◌, is_ok, true};
ghost use Rattle.system_files.specs.Calls.{Compare, Keep, Lock, Make, Remove, Rename, Sync, SyncFolder, Write, is_made, is_yes, with_calls};

use crate::{Source, WriteFault};

/// What a name is that of.
#[derive(Clone, Copy, Debug, PartialEq, Eq)]
pub enum Found {
    Nothing,
    Regular,
    Folder,
    Link,
    /// A device, a pipe, a socket or the like.
    Other,
}

/// The calls of a system by which a file is written.
pub trait System {
    ghost use Rattle.system_files.specs.Calls.{Calls};

    /// An open file or folder.
    type Handle: Drop;

    /// The calls that were made, where they are known. Of the system that runs the program they are not, since it knows no list.
    ghost calls: { Self → Calls };

    /// What stands under a name; a link is not followed.
    fn look(&mut self, name: &str) -> Result<Found, WriteFault>
        ensures { calls self.new ≡ calls self.old };

    /// What a link leads to, by one link or more. A fault where it leads to nothing.
    fn look_through(&mut self, name: &str) -> Result<Found, WriteFault>
        ensures { calls self.new ≡ calls self.old };

    /// The path, without links, of what a link leads to.
    fn resolve(&mut self, name: &str) -> Result<String, WriteFault>
        ensures { calls self.new ≡ calls self.old };

    /// Opens a file that is there, to be written.
    fn open(&mut self, name: &str) -> Result<Self::Handle, WriteFault>
        ensures { calls self.new ≡ calls self.old };

    /// What an open file is.
    fn kind(&mut self, file: &Self::Handle) -> Result<Found, WriteFault>
        ensures { calls self.new ≡ calls self.old };

    /// Takes the lock of an open file, or fails at once with `InUse`.
    fn lock(&mut self, file: &Self::Handle) -> Result<(), WriteFault>
        ensures { calls self.new ≡ with_calls (calls self.old) ((Lock, is_ok result) ∷ []) };

    /// Whether an open file is still the one under this path; a link is not followed.
    fn is_at(&mut self, file: &Self::Handle, path: &str) -> Result<bool, WriteFault>
        ensures { calls self.new ≡ with_calls (calls self.old) ((Compare path.now, is_yes result) ∷ []) };

    /// Opens a folder, to be synced.
    fn open_folder(&mut self, name: &str) -> Result<Self::Handle, WriteFault>
        ensures { calls self.new ≡ calls self.old };

    /// Makes a new file and opens it, or answers `None` where anything has the name.
    fn make(&mut self, name: &str) -> Result<Option<Self::Handle>, WriteFault>
        ensures { calls self.new ≡ with_calls (calls self.old) ((Make name.now, is_made result) ∷ []) };

    /// Gives a new file the mode of another one, and its owner and group where that may be done.
    fn keep(&mut self, file: &Self::Handle, old: &Self::Handle) -> Result<(), WriteFault>
        ensures { calls self.new ≡ with_calls (calls self.old) ((Keep, is_ok result) ∷ []) };

    /// Writes the bytes of a source to an open file.
    fn write<S: Source + Drop>(
        &mut self,
        file: &mut Self::Handle,
        source: S,
    ) -> Result<(), WriteFault>
        ensures { calls self.new ≡ with_calls (calls self.old) ((Write (S.bytes_of source), is_ok result) ∷ []) };

    /// Settles what was written to an open file.
    fn sync(&mut self, file: &Self::Handle) -> Result<(), WriteFault>
        ensures { calls self.new ≡ with_calls (calls self.old) ((Sync, is_ok result) ∷ []) };

    /// Gives a file another name, in place of what has that name.
    fn rename(&mut self, from: &str, to: &str) -> Result<(), WriteFault>
        ensures { calls self.new ≡ with_calls (calls self.old) ((Rename from.now to.now, is_ok result) ∷ []) };

    /// Settles the names in a folder.
    fn sync_folder(&mut self, folder: &Self::Handle) -> Result<(), WriteFault>
        ensures { calls self.new ≡ with_calls (calls self.old) ((SyncFolder, is_ok result) ∷ []) };

    /// Removes a file, if it can be removed.
    fn remove(&mut self, name: &str)
        ensures { calls self.new ≡ with_calls (calls self.old) ((Remove name.now, true) ∷ []) };
}
