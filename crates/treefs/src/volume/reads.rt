// The calls that only look.

ghost use Rattle.std.specs.Prelude.{◌≡◌, length};
ghost use Rattle.treefs_lookup.specs.Bytes.{read_count, read_into};
ghost use Rattle.treefs_lookup.specs.Inodes.{file_found, link_found};
ghost use Rattle.treefs_lookup.specs.Readable.{readable};
ghost use Rattle.treefs.specs.Reads.{IsReadDirectory, lookup_of, stat_of, with_times};

use crate::volume::Volume;
use treefs_edits::Times;
use treefs_edits::memory::touched_times;
use treefs_format::Fields;
use treefs_lookup::{Bucket, Found, Sought, find_directory, find_entry, find_inode, next_bucket};
use treefs_model::Fault;
use xn_state::Store;

/// An inode with other times.
fn with_times(found: Found, times: Times) -> Found
    ensures { result ≡ with_times found times }
{
    let fields = Fields {
        mtime: times.mtime,
        ctime: times.ctime,
        ..found.fields
    };
    Found { fields, ..found }
}

impl Volume {
    /// The number to which a name of a directory leads. The faults are, in this order, those of the directory (`NoEntry`, `NotDir`, `NoEntry` where it has no
    /// link), `BadName`, `NoEntry`.
    pub fn lookup<S: Store>(&self, store: &S, directory: u32, name: &[u8]) -> Result<u32, Fault>
        ensures { result ≡ lookup_of (readable (S.state_of store.now) self.now.tree.fs.number) self.now.tree.top directory name.now }
    {
        let slot = find_entry(store, self.tree.fs, self.tree.top, directory, name)?;
        Ok(slot.number)
    }

    /// What an inode says, with its newest times. The fault is `NoEntry`.
    pub fn stat<S: Store>(&self, store: &S, number: u32) -> Result<Found, Fault>
        ensures { result ≡ stat_of (readable (S.state_of store.now) self.now.tree.fs.number) self.now.tree.top self.now.memory number }
    {
        let found = find_inode(store, self.tree.fs, self.tree.top, number)?;
        let stored = Times {
            mtime: found.fields.mtime,
            ctime: found.fields.ctime,
        };
        Ok(with_times(found, touched_times(&self.memory.touched, number, stored)))
    }

    /// The first bucket of a directory at or past one that has names: its live records, each with its number. Who begins with 0, and goes on behind the bucket
    /// that was answered last, is told each name that stays once. The faults are `NoEntry`, `NotDir`, and `NoEntry` where it has no link.
    pub fn read_directory<'s, S: Store>(
        &self,
        store: &'s S,
        number: u32,
        from: u32,
    ) -> Result<Option<Bucket<'s>>, Fault>
        ensures { IsReadDirectory (S.state_of store.now) self.now.tree number from result }
    {
        let tree = self.tree;
        let directory = find_directory(store, tree.fs, tree.top, number)?;
        Ok(next_bucket(store, tree.fs, directory.block, Sought::Live, from))
    }

    /// Reads a file or a symbolic link from a byte on, up to its size, and answers how many bytes there were. Holes are zeros. The faults are `NoEntry` and
    /// `IsDir`; then nothing is read.
    pub fn read<S: Store>(
        &self,
        store: &S,
        number: u32,
        at: u64,
        bytes: &mut [u8],
    ) -> Result<usize, Fault>
        ensures count { result ≡ read_count (file_found (readable (S.state_of store.now) self.now.tree.fs.number) self.now.tree.top number) at
            (length bytes.old) }
        ensures bytes { bytes.new ≡ read_into (readable (S.state_of store.now) self.now.tree.fs.number)
            (file_found (readable (S.state_of store.now) self.now.tree.fs.number) self.now.tree.top number) at bytes.old }
    {
        treefs_lookup::read(store, self.tree.fs, self.tree.top, number, at, bytes)
    }

    /// Reads the target of a symbolic link, as `read` does. The faults are `NoEntry` and `NotLink`.
    pub fn read_link<S: Store>(
        &self,
        store: &S,
        number: u32,
        at: u64,
        bytes: &mut [u8],
    ) -> Result<usize, Fault>
        ensures count { result ≡ read_count (link_found (readable (S.state_of store.now) self.now.tree.fs.number) self.now.tree.top number) at
            (length bytes.old) }
        ensures bytes { bytes.new ≡ read_into (readable (S.state_of store.now) self.now.tree.fs.number)
            (link_found (readable (S.state_of store.now) self.now.tree.fs.number) self.now.tree.top number) at bytes.old }
    {
        treefs_lookup::read_link(store, self.tree.fs, self.tree.top, number, at, bytes)
    }
}
