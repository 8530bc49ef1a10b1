// How a volume is made: inode 0, the root, and inode 1, the top directory.

ghost use Rattle.std.specs.Prelude.{◌≡◌, []};
ghost use Rattle.treefs_format.specs.Inodes.{inode_bytes};
ghost use Rattle.treefs.specs.Making.{HasRoot, MakesRoot, SetsRoot, first_fields, first_plan, fresh_memory, root_bytes, root_fields, root_planned};

use crate::beginning::begin_one;
use crate::block_types::BlockTypes;
use edit_list::Fs;
use std::alloc::{AllocError, Global};
use store_types::{BLOCK_LEN, Refusal};
use treefs_edits::{Act, Memory, Planned, Start, Tree, forget_all, kinds};
use treefs_format::inodes::new_inode;
use treefs_format::roots::root_content;
use treefs_format::types::LEAF_TYPE;
use treefs_format::{Fields, Kind};
use treefs_lookup::pointer_at;
use treefs_model::Fault;
use xn_state::Store;

/// The byte of inode 0 at which the pointer to inode 1 begins.
pub const FIRST_POINTER: u16 = 48;

/// Inode 1 is attached to inode 0.
#[derive(Clone, Copy)]
pub struct FirstPlan {
    /// Where the volume stands.
    pub tree: Tree,
    /// The times of inode 1.
    pub time: i64,
}

impl FirstPlan {
    /// The block of inode 1.
    fn start(&self) -> Start
        ensures { result ≡ record { ty = self.now.tree.inode_type; bytes = inode_bytes (first_fields self.now.tree.node_type self.now.time) [] } }
    {
        Start {
            ty: u32::from(self.tree.inode_type),
            bytes: first_block(self.tree.node_type, self.time),
        }
    }
}

impl Planned for FirstPlan {
    ghost plan = { λ p. first_plan p.tree p.time };

    fn push_starts(&self, starts: &mut Vec<Start>) -> Result<(), AllocError> {
        starts.push(self.start())?;
        Ok(())
    }

    fn push_acts(
        &self,
        alloc: Global,
        acts: &mut Vec<Act>,
        begun: &[u32],
    ) -> Result<(), AllocError> {
        let tree = self.tree;
        let ty = u32::from(tree.inode_type);
        let act = kinds::attach(alloc, tree.top, FIRST_POINTER, ty, begun, None)?;
        acts.push(act)?;
        Ok(())
    }
}

/// What a new inode 0 says.
fn root_fields(types: BlockTypes) -> Fields
    ensures { result ≡ root_fields types }
{
    Fields {
        leaf_type: types.inode,
        node_type: types.node,
        mode: 0,
        links: 0,
        uid: 0,
        gid: 0,
        size: 0,
        mtime: 0,
        ctime: 0,
        parent: 0,
        generation: 0,
    }
}

/// The block of a new inode 0.
fn root_block(types: BlockTypes, key: &[u8; 16]) -> [u8; BLOCK_LEN]
    ensures { result ≡ root_bytes types key.now }
{
    new_inode(&root_fields(types), &root_content(key, false))
}

/// What a new inode 1 says.
fn first_fields(node_type: u8, time: i64) -> Fields
    ensures { result ≡ first_fields node_type time }
{
    Fields {
        leaf_type: LEAF_TYPE,
        node_type,
        mode: Kind::Directory.mode(0o755),
        links: 1,
        uid: 0,
        gid: 0,
        size: 0,
        mtime: time,
        ctime: time,
        parent: 1,
        generation: 0,
    }
}

/// The block of a new inode 1.
fn first_block(node_type: u8, time: i64) -> [u8; BLOCK_LEN]
    ensures { result ≡ inode_bytes (first_fields node_type time) [] }
{
    new_inode(&first_fields(node_type, time), &[])
}

/// The root that is there, if one is, and has no inode 1. The faults are `Kernel`(19) where it has another type, and `Exists` where it has an inode 1.
fn find_root<S: Store>(store: &S, fs: Fs, types: BlockTypes) -> Result<Option<u32>, Fault>
    ensures { result ≡ root_planned (S.state_of store.now) fs.number types.inode }
{
    let Some(top) = store.root(fs) else {
        return Ok(None);
    };
    match store.kind(fs, top) {
        Ok(ty) if ty == u32::from(types.inode) => {}
        Ok(_) => return Err(Fault::Kernel(Refusal::RootTaken)),
        Err(reason) => return Err(Fault::Kernel(reason)),
    }
    if pointer_at(store, fs, top, FIRST_POINTER) == 0 {
        Ok(Some(top))
    } else {
        Err(Fault::Exists)
    }
}

/// Sets the root slot to a fresh block. Where that is refused, the block is forgotten.
fn set_root<S: Store>(store: &mut S, fs: Fs, block: u32) -> Result<u32, Fault>
    ensures types { S.types_of store.new ≡ S.types_of store.old }
    ensures sets { SetsRoot (S.types_of store.old) fs.number block (S.state_of store.old) (S.state_of store.new) result }
{
    match store.make_root(fs, block) {
        Ok(_) => Ok(block),
        Err(reason) => {
            forget_all(store, fs, &[block]);
            Err(Fault::Kernel(reason))
        }
    }
}

/// Begins inode 0, and sets the root slot to it.
fn make_root<S: Store>(
    store: &mut S,
    fs: Fs,
    types: BlockTypes,
    key: &[u8; 16],
) -> Result<u32, Fault>
    ensures types { S.types_of store.new ≡ S.types_of store.old }
    ensures makes { MakesRoot (S.types_of store.old) fs.number (record { ty = types.inode; bytes = root_bytes types key.now }) (S.state_of store.old)
        (S.state_of store.new) result }
{
    let root = root_block(types, key);
    match begin_one(store, fs, types.inode, &root) {
        Ok(block) => set_root(store, fs, block),
        Err(fault) => Err(fault),
    }
}

/// Sees to it that there is a root, and answers it. One that is there, and has no inode 1, is kept.
pub fn prepare_root<S: Store>(
    store: &mut S,
    fs: Fs,
    types: BlockTypes,
    key: &[u8; 16],
) -> Result<u32, Fault>
    ensures types { S.types_of store.new ≡ S.types_of store.old }
    ensures has { HasRoot (S.types_of store.old) fs.number (record { ty = types.inode; bytes = root_bytes types key.now })
        (root_planned (S.state_of store.old) fs.number types.inode) (S.state_of store.old) (S.state_of store.new) result }
{
    match find_root(store, fs, types) {
        Ok(Some(top)) => Ok(top),
        Ok(None) => make_root(store, fs, types, key),
        Err(fault) => Err(fault),
    }
}

/// What a session remembers of a volume that was just made or opened.
pub fn fresh_memory(alloc: Global, time: i64) -> Memory
    ensures { result ≡ fresh_memory time }
{
    Memory {
        clock: time,
        touched: Vec::new(alloc),
        last_dir: 0,
        last_link: 0,
        hint: 1,
        orphans: Vec::new(alloc),
    }
}
