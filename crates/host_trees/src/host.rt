// The files of the system as a tree.

ghost use Rattle.std.specs.Prelude.{◌≤◌, IfOk, length};

use crate::attributes::{Attributes, Settings};
use crate::sink::Filler;
use std::alloc::Global;
use std::io;
use system_files::{Links, WriteFault};

/// So many bytes of a file are read at once at most.
pub const PIECE: usize = 1_048_576;

/// The names in a folder of the system.
#[derive(Debug, Drop)]
pub struct Names {
    /// Those that are text, rising by their bytes.
    pub names: Vec<String>,
    /// How many others there are.
    pub odd: u64,
    /// Why the rest of the folder could not be read, where that is so.
    pub fault: Option<io::Error>,
}

/// The files of the system as a tree. Each error is what the system answered; the path is told by who calls.
pub trait Host {
    /// An open file.
    type File: Drop;

    /// What stands at a path. A symbolic link at its end is not followed.
    fn attributes(&self, path: &str) -> io::Result<Attributes>;

    /// What stands at a path. Symbolic links are followed.
    fn attributes_through(&self, path: &str) -> io::Result<Attributes>;

    /// The names in a folder.
    fn names(&self, alloc: Global, path: &str) -> io::Result<Names>;

    /// What a symbolic link leads to. `InvalidData` or the like comes where that is no text.
    fn target(&self, path: &str) -> io::Result<String>;

    /// Opens what stands at a path, to be read. Symbolic links are followed.
    fn open(&self, path: &str) -> io::Result<Self::File>;

    /// Opens what stands at a path, to be read, and tells of it. `None` where a symbolic link is there, or where something else took its place meanwhile.
    fn open_below(&self, path: &str) -> io::Result<Option<(Self::File, Attributes)>>;

    /// Reads the next bytes of an open file, and answers how many they are: none at its end.
    fn read(&self, file: &mut Self::File, bytes: &mut [u8]) -> io::Result<usize>
        ensures { IfOk result (λ count. count ≤ length bytes.new) };

    /// Makes a folder, which nobody but its owner may enter yet.
    fn make_folder(&self, path: &str) -> io::Result<()>;

    /// Makes a folder where none is, with those above it. They have the permissions that the system gives.
    fn make_folders(&self, path: &str) -> io::Result<()>;

    /// The user and the group of who runs the program; 0 where the system doesn't tell.
    fn own_ids(&self) -> (u32, u32);

    /// Makes a symbolic link; in the place of one that is there where that is told. The owner is set where that may be done.
    fn make_symbolic_link(
        &self,
        alloc: Global,
        target: &str,
        path: &str,
        is_over: bool,
        settings: Option<&Settings>,
    ) -> io::Result<()>;

    /// Gives the file at a path one more name; in the place of a regular file where that is told, which is locked first.
    fn make_hard_link(
        &self,
        alloc: Global,
        old: &str,
        path: &str,
        is_over: bool,
    ) -> Result<(), WriteFault>;

    /// Writes the file of a name. A regular file is replaced as a whole, synced, by one that has what is told to be set, or else what the old one has; one that
    /// is locked is refused. Nobody but its owner may read it before it has what is to be set. What is no regular file is written in place.
    fn write_file<F: Filler>(
        &self,
        path: &str,
        links: Links,
        settings: Option<&Settings>,
        filler: &mut F,
    ) -> Result<(), WriteFault>;

    /// Sets owner, where that may be done, permissions and time of a folder.
    fn set_folder(&self, path: &str, settings: &Settings) -> io::Result<()>;

    /// The time since some moment, in milliseconds; it never goes back.
    fn milliseconds(&self) -> u64;

    /// Writes to standard error, where that is a terminal.
    fn tell_terminal(&self, text: &str);
}
