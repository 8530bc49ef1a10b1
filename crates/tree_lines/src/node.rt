// What stands in a volume, as words see it.

ghost use Rattle.std.specs.Prelude.{◌≡◌, ◌↔◌, IsTrue};
ghost use Rattle.treefs_format.specs.declared.kind.Kind.TheVariants.{SymbolicLink};
ghost use Rattle.tree_lines.specs.Places.{IsFolder};

use treefs_format::Kind;

/// What stands at a number of a volume.
#[derive(Clone, Copy, Debug, PartialEq, Eq)]
pub struct Node {
    pub number: u32,
    pub kind: Kind,
    /// The 12 permission bits.
    pub permissions: u16,
    /// How many names it has, or may have after a call that was cut short.
    pub links: u32,
    pub uid: u32,
    pub gid: u32,
    /// In bytes; of a folder of trees 0.
    pub size: u64,
    /// When its content changed, in nanoseconds since 1970.
    pub modified: i64,
    /// When it changed itself, in nanoseconds since 1970.
    pub changed: i64,
}

impl Node {
    /// Whether it is a folder.
    pub fn is_folder(&self) -> bool
        ensures { IsTrue result ↔ IsFolder self.now }
    {
        self.kind == Kind::Directory
    }

    /// Whether it is a symbolic link.
    pub fn is_link(&self) -> bool
        ensures { IsTrue result ↔ (self.now.kind ≡ SymbolicLink) }
    {
        self.kind == Kind::SymbolicLink
    }
}

/// A name in a folder, and the number to which it leads.
#[derive(Debug, Drop, PartialEq, Eq, PartialOrd, Ord)]
pub struct Named {
    pub name: Vec<u8>,
    pub number: u32,
}

/// Bytes of a file that follow one another and stand in blocks.
#[derive(Clone, Copy, Debug, PartialEq, Eq)]
pub struct Stretch {
    /// The first of them.
    pub at: u64,
    /// How many they are, never 0.
    pub length: u64,
}

/// What of a volume is taken and left, and its limits.
#[derive(Clone, Copy, Debug, PartialEq, Eq)]
pub struct Usage {
    /// How many blocks of the disk are free.
    pub free_blocks: u32,
    /// How many blocks the disk has.
    pub blocks: u32,
    /// How many numbers are in use, and how many there are, where that is counted.
    pub numbers: Option<(u32, u32)>,
    /// How many bytes a name has at most.
    pub longest_name: u32,
    /// How many bytes a file has at most.
    pub largest_file: u64,
}
