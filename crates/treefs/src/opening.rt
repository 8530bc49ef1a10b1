// How a volume that was made is found, and how it is marked as closed.

ghost use Rattle.std.specs.Prelude.{◌≡◌, []};
ghost use Rattle.treefs_lookup.specs.Readable.{readable};
ghost use Rattle.xn_model.specs.Calls.{kind_of};
ghost use Rattle.treefs.specs.Opening.{has_type, is_root, mark_plan, root_found};

use crate::block_types::BlockTypes;
use crate::making::FIRST_POINTER;
use edit_list::Fs;
use std::alloc::{AllocError, Global};
use treefs_edits::{Act, ActsAlone, kinds};
use treefs_format::inodes::content;
use treefs_format::roots::{CLEAN, is_marked};
use treefs_lookup::{pointer_at, read_block};
use treefs_model::Fault;
use xn_state::Store;

/// Inode 0 says that the volume is closed, or open.
#[derive(Clone, Copy)]
pub struct MarkPlan {
    /// The block of inode 0.
    pub top: u32,
    /// Whether the volume is closed.
    pub clean: bool,
}

impl ActsAlone for MarkPlan {
    ghost acts_of = { λ p. (mark_plan p.top p.clean).acts [] };

    fn push_alone(&self, alloc: Global, acts: &mut Vec<Act>) -> Result<(), AllocError> {
        let mark = [u8::from(self.clean)];
        acts.push(kinds::write_content(alloc, self.top, CLEAN, &mark, None)?)?;
        Ok(())
    }
}

/// Whether a block is of a type.
fn has_type<S: Store>(store: &S, fs: Fs, block: u32, ty: u32) -> bool
    ensures { result ≡ has_type (kind_of (S.state_of store.now) fs.number block) ty }
{
    match store.kind(fs, block) {
        Ok(found) => found == ty,
        Err(_) => false,
    }
}

/// Whether a block has the mark of inode 0, and a pointer to inode 1.
fn is_root<S: Store>(store: &S, fs: Fs, top: u32) -> bool
    ensures { result ≡ is_root (readable (S.state_of store.now) fs.number) top }
{
    match read_block(store, fs, top) {
        Some(block) => {
            is_marked(content(block)) && pointer_at(store, fs, top, FIRST_POINTER) != 0
        }
        None => false,
    }
}

/// The root of a volume that was made. The fault is `NoEntry`.
pub fn find_root<S: Store>(store: &S, fs: Fs, types: BlockTypes) -> Result<u32, Fault>
    ensures { result ≡ root_found (S.state_of store.now) fs.number types.inode }
{
    let Some(top) = store.root(fs) else {
        return Err(Fault::NoEntry);
    };
    if has_type(store, fs, top, u32::from(types.inode)) && is_root(store, fs, top) {
        Ok(top)
    } else {
        Err(Fault::NoEntry)
    }
}
