// Types of blocks, and what the edits of a volume are made of.

ghost use Rattle.std.specs.Prelude.{◌≡◌, ◌<◌, ◌≤◌, ◌^◌, ◌+◌, IfOk, OnOk, OnErr, length};
ghost use Rattle.xn_model.specs.Calls.{forget_of};
ghost use Rattle.xn_model.specs.Lists.{put};
ghost use Rattle.ffs_model.specs.Library.{inode_blocks, zero_block};
ghost use Rattle.ffs_lib.specs.Edits.{data_of_inode, data_of_pointers};
ghost use Rattle.ffs_lib.specs.Outcomes.{Keeps};
ghost use Rattle.ffs_lib.specs.Steps.{left_by};

use edit_list::Fs;
use ffs_format::inodes::DIRECT_POINTERS;
use ffs_format::{Inode, pointer};
use ffs_lookup::FfsFault;
use std::alloc::{AllocError, Global};
use store_types::BLOCK_LEN;
use xn_state::Store;

/// The type of a block of inodes.
pub const INODE_BLOCK: u32 = 4;

/// The type of a block of pointers.
pub const POINTER_BLOCK: u32 = 5;

/// How many pointers a block of pointers has.
pub const POINTERS: usize = 128;

/// A block's number is a word.
pub fn is_word(block: u32)
    ensures { block < 2 ^ 32 }
{
    let _ = block;
}

/// Forgets a new block that was to be attached, where that was refused.
pub fn forgotten<S: Store, A>(
    store: &mut S,
    fs: Fs,
    block: u32,
    attached: Result<A, FfsFault>,
) -> Result<A, FfsFault>
    ensures types { S.types_of store.new ≡ S.types_of store.old }
    ensures same { result ≡ attached }
    ensures ok { OnOk result (S.state_of store.new ≡ S.state_of store.old) }
    ensures keeps { Keeps (S.types_of store.old) fs.number (S.state_of store.old) (S.state_of store.new) }
    ensures forgotten { OnErr result (S.state_of store.new ≡ left_by (forget_of (S.types_of store.old) (S.state_of store.old) fs.number block)
        (S.state_of store.old)) }
{
    if attached.is_err() {
        let _ = store.forget(fs, block);
    }
    attached
}

/// How many of its own pointers an inode has set.
pub fn count_blocks(inode: &Inode) -> u32
    ensures few { result ≤ 12 }
    ensures exact { result ≡ length (inode_blocks inode.now) }
{
    let mut count = 0;
    for i in 0..DIRECT_POINTERS {
        if inode.direct(i) != 0 {
            count += 1;
        }
    }
    count
}

/// A block of zeros with bytes written at a place.
pub fn block_with(at: usize, bytes: &[u8]) -> [u8; BLOCK_LEN]
    requires { at + length bytes.now ≤ 512 }
    ensures { result ≡ put zero_block at bytes.now }
{
    let mut block = [0; BLOCK_LEN];
    block[at..at + bytes.len()].copy_from_slice(bytes);
    block
}

/// The blocks that a block of pointers points to.
pub fn blocks_in(alloc: Global, bytes: &[u8; BLOCK_LEN]) -> Result<Vec<u32>, AllocError>
    ensures { IfOk result (λ blocks. blocks.items ≡ data_of_pointers bytes.now) }
{
    let mut blocks = Vec::new(alloc);
    for place in 0..POINTERS {
        let block = pointer(bytes, place);
        if block != 0 {
            blocks.push(block)?;
        }
    }
    Ok(blocks)
}

/// The blocks that an inode points to.
pub fn blocks_of(alloc: Global, inode: &Inode) -> Result<Vec<u32>, AllocError>
    ensures { IfOk result (λ blocks. blocks.items ≡ data_of_inode inode.now) }
{
    let mut blocks = Vec::new(alloc);
    for i in 0..DIRECT_POINTERS {
        let block = inode.direct(i);
        if block != 0 {
            blocks.push(block)?;
        }
    }
    if inode.indirect() != 0 {
        blocks.push(inode.indirect())?;
    }
    Ok(blocks)
}
