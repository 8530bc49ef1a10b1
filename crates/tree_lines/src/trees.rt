// An open volume of trees is looked at.

ghost use Rattle.std.specs.Prelude.{◌≡◌, ◌++◌, OnOk, map};
ghost use Rattle.tree_lines.specs.Contents.{HasStretch, HasTarget, ReadsIn};
ghost use Rattle.tree_lines.specs.Listing.{ListsFolder, ReadsFolder, live_names};
ghost use Rattle.tree_lines.specs.Looks.{FindsPath, node_seen, number_seen};
ghost use Rattle.tree_lines.specs.Walks.{entry_of, names_of};

use crate::counting::block_count;
use crate::node::{Named, Node, Stretch, Usage};
use crate::reason::{Reason, path_reason_of, reason_of};
use crate::stretches::{blocks_of, stretch_of};
use crate::view::View;
use flush_store::FlushStore;
use std::alloc::{AllocError, Global};
use treefs_format::Records;
use treefs_format::kind::permissions;
use treefs_format::names::NAME_LEN;
use treefs_format::paths::LEAVES;
use treefs_format::sizes::GREATEST_SIZE;
use treefs_lookup::Bucket;
use treefs_paths::find_path;
use treefs_session::Session;

/// How many bytes the target of a symbolic link has at most.
const TARGET_LEN: u64 = 4_096;

/// Adds the names of a bucket.
fn push_names(alloc: Global, names: &mut Vec<Named>, bucket: &Bucket) -> Result<(), AllocError>
    ensures { OnOk result (map entry_of names.new.items ≡ map entry_of names.old.items ++ live_names bucket.now.bytes.now) }
{
    for record in Records::new(bucket.bytes) {
        if record.number != 0 {
            names.push(Named {
                name: Vec::from_slice(alloc, record.name)?,
                number: record.number,
            })?;
        }
    }
    Ok(())
}

/// The names of a folder, in the order of its buckets.
fn read_names<S: FlushStore + Drop>(
    session: &Session<S>,
    alloc: Global,
    folder: u32,
) -> Result<Vec<Named>, Reason>
    ensures { ReadsFolder (S.state_of session.now.store) session.now.volume folder (names_of result) }
{
    let mut names = Vec::new(alloc);
    let mut from = 0u32;
    for _bucket in 0..LEAVES + 1 {
        match session
            .volume()
            .read_directory(session.store(), folder, from)
        {
            Ok(Some(bucket)) => {
                push_names(alloc, &mut names, &bucket)?;
                from = bucket.number.saturating_add(1);
            }
            Ok(None) => return Ok(names),
            Err(fault) => return Err(reason_of(fault, 0)),
        }
    }
    Ok(names)
}

impl<S: FlushStore + Drop> View for Session<S> {
    ghost leads = { λ s folder path last result. FindsPath (S.state_of s.store) s.volume folder path last result };

    ghost names_number = { λ s folder name result. result ≡ number_seen (S.state_of s.store) s.volume folder name };

    ghost lists = { λ s folder result. ListsFolder (S.state_of s.store) s.volume folder result };

    ghost shows = { λ s number result. result ≡ node_seen (S.state_of s.store) s.volume number };

    ghost reads = { λ s number at old new result. ReadsIn (S.state_of s.store) s.volume number at old new result };

    ghost points = { λ s number result. HasTarget (S.state_of s.store) s.volume number result };

    ghost stretches = { λ s number at most result. HasStretch (S.state_of s.store) s.volume number at most result };

    fn node(&self, number: u32) -> Result<Node, Reason> {
        match self.volume().stat(self.store(), number) {
            Ok(found) => Ok(Node {
                number,
                kind: found.kind,
                permissions: permissions(found.fields.mode),
                links: found.fields.links,
                uid: found.fields.uid,
                gid: found.fields.gid,
                size: found.fields.size,
                modified: found.fields.mtime,
                changed: found.fields.ctime,
            }),
            Err(fault) => Err(reason_of(fault, 0)),
        }
    }

    fn look_up(&self, folder: u32, name: &[u8]) -> Result<u32, Reason> {
        match self.volume().lookup(self.store(), folder, name) {
            Ok(number) => Ok(number),
            Err(fault) => Err(reason_of(fault, 0)),
        }
    }

    fn names(&self, alloc: Global, folder: u32) -> Result<Vec<Named>, Reason> {
        match read_names(self, alloc, folder) {
            Ok(mut names) => {
                names.sort_unstable();
                Ok(names)
            }
            Err(reason) => Err(reason),
        }
    }

    fn read(&self, number: u32, at: u64, bytes: &mut [u8]) -> Result<usize, Reason> {
        match self.volume().read(self.store(), number, at, bytes) {
            Ok(count) => Ok(count),
            Err(fault) => Err(reason_of(fault, 0)),
        }
    }

    fn target(&self, alloc: Global, number: u32) -> Result<Vec<u8>, Reason> {
        let node = View::node(self, number)?;
        if node.is_link() && node.size > TARGET_LEN {
            return Err(Reason::LongTarget);
        }
        let mut target = vec![in alloc; 0u8; node.size.min(TARGET_LEN) as usize]?;
        match self
            .volume()
            .read_link(self.store(), number, 0, &mut target)
        {
            Ok(_) => Ok(target),
            Err(fault) => Err(reason_of(fault, 0)),
        }
    }

    fn stretch(&self, number: u32, at: u64, most: u64) -> Result<Option<Stretch>, Reason> {
        let fs = self.volume().tree.fs;
        match self.volume().stat(self.store(), number) {
            Ok(found) => {
                let file = (found.block, found.fields.size);
                Ok(stretch_of(self.store(), fs, file, at, most))
            }
            Err(fault) => Err(reason_of(fault, 0)),
        }
    }

    fn blocks_held(&self, number: u32) -> Result<u64, Reason> {
        match self.volume().stat(self.store(), number) {
            Ok(found) => Ok(blocks_of(self.store(), self.volume().tree.fs, found.block)),
            Err(fault) => Err(reason_of(fault, 0)),
        }
    }

    fn find(
        &self,
        alloc: Global,
        folder: u32,
        path: &[u8],
        is_followed: bool,
    ) -> Result<u32, Reason> {
        let tree = self.volume().tree;
        match find_path(alloc, self.store(), tree, folder, path, is_followed) {
            Ok(number) => Ok(number),
            Err(fault) => Err(path_reason_of(fault)),
        }
    }

    fn usage(&self) -> Usage {
        Usage {
            free_blocks: self.store().state().free(),
            blocks: block_count(self.store(), self.volume().tree.fs),
            numbers: None,
            longest_name: NAME_LEN as u32,
            largest_file: GREATEST_SIZE,
        }
    }
}
