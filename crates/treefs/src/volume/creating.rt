// The calls that make an inode.

ghost use Rattle.std.specs.Prelude.{◌≡◌, ◌<◌, ◌≤◌, Ok, length};
ghost use Rattle.treefs_format.specs.Inodes.{inode_bytes};
ghost use Rattle.treefs.specs.Committing.{BeginsInRoom};
ghost use Rattle.treefs.specs.Creating.{BeginDoes, CreateDoes, MkdirDoes, NewDoes, SymlinkDoes, moved_volume, new_fields};

use crate::attributes::Attributes;
use crate::beginning::begin_one;
use crate::memory::naming_entry;
use crate::volume::Volume;
use std::alloc::Global;
use store_types::BLOCK_LEN;
use treefs_edits::{Memory, Tree, has_room};
use treefs_format::inodes::new_inode;
use treefs_format::types::LEAF_TYPE;
use treefs_format::{Fields, Kind};
use treefs_model::Fault;
use treefs_name_plans::{CommitPlan, MakingNew, plan_new};
use xn_state::Store;

/// What a new inode says before its pointers. `parent` is the directory that a directory stands in, else 0.
fn new_fields(
    tree: Tree,
    memory: &Memory,
    kind: Kind,
    attributes: Attributes,
    parent: u32,
    size: u64,
) -> Fields
    requires { attributes.permissions < 4096 }
    ensures { result ≡ new_fields tree memory.now kind attributes parent size }
{
    Fields {
        leaf_type: LEAF_TYPE,
        node_type: tree.node_type,
        mode: kind.mode(attributes.permissions),
        links: 1,
        uid: attributes.uid,
        gid: attributes.gid,
        size,
        mtime: memory.clock,
        ctime: memory.clock,
        parent,
        generation: attributes.generation,
    }
}

/// The block of a new inode whose content is these bytes.
fn new_block(
    tree: Tree,
    memory: &Memory,
    kind: Kind,
    attributes: Attributes,
    parent: u32,
    content: &[u8],
) -> [u8; BLOCK_LEN]
    requires permissions { attributes.permissions < 4096 }
    requires short { length content.now ≤ 384 }
    ensures { result ≡ inode_bytes (new_fields tree memory.now kind attributes parent (length content.now)) content.now }
{
    let size = content.len() as u64;
    let fields = new_fields(tree, memory, kind, attributes, parent, size);
    new_inode(&fields, content)
}

/// Begins an inode with these bytes in its block, where there is room. The faults are `Full` and `NoSpace`; all others are the kernel's.
fn begin_block<S: Store>(
    store: &mut S,
    tree: Tree,
    memory: &Memory,
    inode: &[u8; BLOCK_LEN],
) -> Result<u32, Fault>
    ensures types { S.types_of store.new ≡ S.types_of store.old }
    ensures does { BeginsInRoom (S.types_of store.old) tree.fs.number (length memory.now.touched) (record { ty = tree.inode_type; bytes = inode.now })
        (S.state_of store.old) (S.state_of store.new) result }
{
    if !has_room(store, tree.fs, memory.touched.len(), 2, &[]) {
        return Err(Fault::Full);
    }
    begin_one(store, tree.fs, tree.inode_type, inode)
}

impl Volume {
    /// Begins a file or a symbolic link with these first bytes of its content, at most 384, and answers its block. `commit` gives it a name. The
    /// faults are `Full` and `NoSpace`; `Kernel` comes where the store refuses it.
    pub fn begin<S: Store>(
        &self,
        store: &mut S,
        kind: Kind,
        attributes: Attributes,
        head: &[u8],
    ) -> Result<u32, Fault>
        requires permissions { attributes.permissions < 4096 }
        requires short { length head.now ≤ 384 }
        ensures types { S.types_of store.new ≡ S.types_of store.old }
        ensures does { BeginDoes (S.types_of store.old) (S.state_of store.old) (S.state_of store.new) self.now kind attributes head.now result }
    {
        let inode = new_block(self.tree, &self.memory, kind, attributes, 0, head);
        begin_block(store, self.tree, &self.memory, &inode)
    }

    /// Makes an inode with these bytes in its block, and its first name.
    fn make<S: Store>(
        &mut self,
        alloc: Global,
        store: &mut S,
        directory: u32,
        name: &[u8],
        inode: &[u8; BLOCK_LEN],
    ) -> Result<CommitPlan, Fault>
        ensures types { S.types_of store.new ≡ S.types_of store.old }
        ensures does { NewDoes (S.types_of store.old) (S.state_of store.old) (S.state_of store.new) self.old self.new directory name.now inode.now result }
    {
        match plan_new(store, self.tree, &self.memory, directory, name) {
            Ok(plan) => {
                let making = MakingNew { plan, inode, name };
                match self.name_inode(alloc, store, directory, &making, &plan) {
                    Ok(()) => Ok(plan),
                    Err(fault) => Err(fault),
                }
            }
            Err(fault) => Err(fault),
        }
    }

    /// Makes an empty file in a directory, and answers its number. The faults are, in this order, those of the directory (`NoEntry`, `NotDir`,
    /// `NoEntry` where it has no link), `BadName`, `Exists`, `Full`, `Full` or `NoInode` where there is no number, `Full` or `TooLarge` where there is
    /// no place for the name, `Full`, `NoSpace`. `Kernel` comes for want of memory, or where the store refuses an edit.
    pub fn create<S: Store>(
        &mut self,
        alloc: Global,
        store: &mut S,
        directory: u32,
        name: &[u8],
        attributes: Attributes,
    ) -> Result<u32, Fault>
        requires { attributes.permissions < 4096 }
        ensures types { S.types_of store.new ≡ S.types_of store.old }
        ensures does { CreateDoes (S.types_of store.old) (S.state_of store.old) (S.state_of store.new) self.old self.new directory name.now attributes result }
    {
        let inode = new_block(self.tree, &self.memory, Kind::File, attributes, 0, &[]);
        match self.make(alloc, store, directory, name, &inode) {
            Ok(plan) => Ok(plan.number),
            Err(fault) => Err(fault),
        }
    }

    /// Makes a symbolic link whose target has at most 384 bytes, and answers its number. The faults are those of `create`.
    pub fn symlink<S: Store>(
        &mut self,
        alloc: Global,
        store: &mut S,
        directory: u32,
        name: &[u8],
        attributes: Attributes,
        target: &[u8],
    ) -> Result<u32, Fault>
        requires permissions { attributes.permissions < 4096 }
        requires short { length target.now ≤ 384 }
        ensures types { S.types_of store.new ≡ S.types_of store.old }
        ensures does { SymlinkDoes (S.types_of store.old) (S.state_of store.old) (S.state_of store.new) self.old self.new directory name.now attributes
            target.now result }
    {
        let inode = new_block(
            self.tree,
            &self.memory,
            Kind::SymbolicLink,
            attributes,
            0,
            target,
        );
        match self.make(alloc, store, directory, name, &inode) {
            Ok(plan) => Ok(plan.number),
            Err(fault) => Err(fault),
        }
    }

    /// Notes that the record of a new directory is the last one by which a directory was made or moved.
    fn note_directory<S: Store>(&mut self, store: &S, plan: &CommitPlan)
        ensures { self.new ≡ moved_volume (S.state_of store.now) self.old (Ok plan.now) }
    {
        let fs = self.tree.fs;
        let memory = &mut self.memory;
        let CommitPlan {
            directory,
            naming,
            ..
        } = plan;
        memory.last_dir = naming_entry(store, fs, *directory, naming, memory.last_dir);
    }

    /// Makes an empty directory in another one, and answers its number. The faults are those of `create`.
    pub fn mkdir<S: Store>(
        &mut self,
        alloc: Global,
        store: &mut S,
        directory: u32,
        name: &[u8],
        attributes: Attributes,
    ) -> Result<u32, Fault>
        requires { attributes.permissions < 4096 }
        ensures types { S.types_of store.new ≡ S.types_of store.old }
        ensures does { MkdirDoes (S.types_of store.old) (S.state_of store.old) (S.state_of store.new) self.old self.new directory name.now attributes result }
    {
        let inode = new_block(
            self.tree,
            &self.memory,
            Kind::Directory,
            attributes,
            directory,
            &[],
        );
        match self.make(alloc, store, directory, name, &inode) {
            Ok(plan) => {
                self.note_directory(store, &plan);
                Ok(plan.number)
            }
            Err(fault) => Err(fault),
        }
    }
}
