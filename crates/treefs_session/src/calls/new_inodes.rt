// Calls that make an inode, and name it.

ghost use Rattle.std.specs.Prelude.{◌≡◌, ◌<◌, ◌≤◌, length};
ghost use Rattle.treefs.specs.Committing.{CommitDoes};
ghost use Rattle.treefs.specs.Creating.{BeginDoes, CreateDoes, MkdirDoes, SymlinkDoes};

use crate::call::Call;
use flush_store::FlushStore;
use std::alloc::Global;
use treefs::{Attributes, Volume};
use treefs_format::Kind;
use treefs_model::Fault;

/// Makes an empty file in a directory, and answers its number: `create` of a volume.
#[derive(Clone, Copy)]
pub struct Create<'a> {
    pub directory: u32,
    pub name: &'a [u8],
    pub attributes: Attributes,
    ghost in_range: { attributes.permissions < 4096 },
}

impl Call for Create<'_> {
    type Answer = u32;

    ghost does = { λ c T old new volume volume' result. CreateDoes T old new volume volume' c.directory c.name.now c.attributes result };

    fn make<S: FlushStore>(
        &self,
        alloc: Global,
        store: &mut S,
        volume: &mut Volume,
    ) -> Result<u32, Fault> {
        volume.create(alloc, store, self.directory, self.name, self.attributes)
    }
}

/// Makes an empty directory in another one, and answers its number: `mkdir` of a volume.
#[derive(Clone, Copy)]
pub struct Mkdir<'a> {
    pub directory: u32,
    pub name: &'a [u8],
    pub attributes: Attributes,
    ghost in_range: { attributes.permissions < 4096 },
}

impl Call for Mkdir<'_> {
    type Answer = u32;

    ghost does = { λ c T old new volume volume' result. MkdirDoes T old new volume volume' c.directory c.name.now c.attributes result };

    fn make<S: FlushStore>(
        &self,
        alloc: Global,
        store: &mut S,
        volume: &mut Volume,
    ) -> Result<u32, Fault> {
        volume.mkdir(alloc, store, self.directory, self.name, self.attributes)
    }
}

/// Makes a symbolic link whose target has at most 384 bytes, and answers its number: `symlink` of a volume. A longer one is put.
#[derive(Clone, Copy)]
pub struct Symlink<'a> {
    pub directory: u32,
    pub name: &'a [u8],
    pub attributes: Attributes,
    pub target: &'a [u8],
    ghost in_range: { attributes.permissions < 4096 },
    ghost short: { length target.now ≤ 384 },
}

impl Call for Symlink<'_> {
    type Answer = u32;

    ghost does = { λ c T old new volume volume' result.
        SymlinkDoes T old new volume volume' c.directory c.name.now c.attributes c.target.now result };

    fn make<S: FlushStore>(
        &self,
        alloc: Global,
        store: &mut S,
        volume: &mut Volume,
    ) -> Result<u32, Fault> {
        volume.symlink(
            alloc,
            store,
            self.directory,
            self.name,
            self.attributes,
            self.target,
        )
    }
}

/// Begins a file or a symbolic link with the first bytes of its content, at most 384, and answers its block: `begin` of a volume.
#[derive(Clone, Copy)]
pub struct Begin<'a> {
    pub kind: Kind,
    pub attributes: Attributes,
    pub head: &'a [u8],
    ghost in_range: { attributes.permissions < 4096 },
    ghost short: { length head.now ≤ 384 },
}

impl Call for Begin<'_> {
    type Answer = u32;

    ghost does = { λ c T old new volume volume' result. BeginDoes T old new volume c.kind c.attributes c.head.now result × (volume' ≡ volume) };

    fn make<S: FlushStore>(
        &self,
        _alloc: Global,
        store: &mut S,
        volume: &mut Volume,
    ) -> Result<u32, Fault> {
        volume.begin(store, self.kind, self.attributes, self.head)
    }
}

/// Gives an inode that was begun, whose block is told, a name of a directory, and answers its number: `commit` of a volume.
#[derive(Clone, Copy)]
pub struct Commit<'a> {
    pub block: u32,
    pub directory: u32,
    pub name: &'a [u8],
    /// Whether it takes the place of what has the name.
    pub replace: bool,
}

impl Call for Commit<'_> {
    type Answer = u32;

    ghost does = { λ c T old new volume volume' result. CommitDoes T old new volume volume' c.block c.directory c.name.now c.replace result };

    fn make<S: FlushStore>(
        &self,
        alloc: Global,
        store: &mut S,
        volume: &mut Volume,
    ) -> Result<u32, Fault> {
        volume.commit(
            alloc,
            store,
            self.block,
            self.directory,
            self.name,
            self.replace,
        )
    }
}
