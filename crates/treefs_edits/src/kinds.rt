// The kinds of acts. Each function fails for want of memory alone.

ghost use Rattle.std.specs.Prelude.{◌≡◌, ◌≢◌, ◌+◌, ◌≤◌, ◌∷◌, ◌++◌, [], length, map, IfOk, IsTrue};
ghost use Rattle.treefs_format.specs.Fields.{are_adjoining, changes_patch};
ghost use Rattle.treefs_format.specs.Numbers.{word_bytes};
ghost use Rattle.treefs_model.specs.Acts.{attach_act, bytes_act, changes_act, content_act, drop_act, number_act, patch_act, record_act, wait_act};
ghost use Rattle.treefs_edits.specs.Kinds.{links_act, parent_parts, rewritten_act, time_parts};

use crate::act::Act;
use crate::times::Times;
use edit_list::{Edit, Patch};
use std::alloc::{AllocError, Global};
use treefs_format::records::{RECORD_HEAD, append_record};
use treefs_format::{Change, buckets, inodes};

/// Patches of a block that change nothing of what it points to.
fn patch_act(alloc: Global, block: u32, patches: Vec<Patch>, behind: Option<u32>) -> Act
    ensures { result ≡ patch_act block patches.items behind }
{
    Act {
        block,
        edit: Edit {
            patches,
            adds: Vec::new(alloc),
            drops: Vec::new(alloc),
            after: None,
        },
        behind,
    }
}

/// One patch of a block that changes nothing of what it points to.
fn one_patch(
    alloc: Global,
    block: u32,
    patch: Patch,
    behind: Option<u32>,
) -> Result<Act, AllocError>
    ensures { IfOk result (λ act. act ≡ patch_act block (patch ∷ []) behind) }
{
    Ok(patch_act(alloc, block, Vec::from_array(alloc, [patch])?, behind))
}

/// Bytes of a block from an offset on, which are none of its pointers.
pub fn write_bytes(
    alloc: Global,
    block: u32,
    offset: u16,
    bytes: &[u8],
    behind: Option<u32>,
) -> Result<Act, AllocError>
    ensures { IfOk result (λ act. act ≡ bytes_act block offset bytes.now behind) }
{
    let patch = Patch {
        offset,
        bytes: bytes.to_vec(alloc)?,
    };
    one_patch(alloc, block, patch, behind)
}

/// Bytes of the content that stand in the inode block, from a place of the content on.
pub fn write_content(
    alloc: Global,
    inode: u32,
    at: usize,
    bytes: &[u8],
    behind: Option<u32>,
) -> Result<Act, AllocError>
    requires { at + length bytes.now ≤ 384 }
    ensures { IfOk result (λ act. act ≡ content_act inode at bytes.now behind) }
{
    let patch = inodes::write_content(alloc, at, bytes)?;
    one_patch(alloc, inode, patch, behind)
}

/// Nothing changes: byte 0 of a block, which is `first`, is written again, behind all of another block.
pub fn wait(alloc: Global, block: u32, first: u8, other: u32) -> Result<Act, AllocError>
    ensures { IfOk result (λ act. act ≡ wait_act block (first ∷ []) other) }
{
    write_bytes(alloc, block, 0, &[first], Some(other))
}

/// A record is made at a byte of a block. The store refuses one that goes past the block.
pub fn make_record(
    alloc: Global,
    block: u32,
    offset: u16,
    number: u32,
    name: &[u8],
    behind: Option<u32>,
) -> Result<Act, AllocError>
    requires { length name.now ≤ 255 }
    ensures { IfOk result (λ act. act ≡ record_act block offset (record { number = number; name = name.now }) behind) }
{
    let mut bytes = Vec::with_capacity(alloc, RECORD_HEAD + name.len())?;
    append_record(&mut bytes, number, name)?;
    one_patch(alloc, block, Patch { offset, bytes }, behind)
}

/// The number in the record at a byte of a block is set.
pub fn set_number(
    alloc: Global,
    block: u32,
    offset: u16,
    number: u32,
    behind: Option<u32>,
) -> Result<Act, AllocError>
    ensures { IfOk result (λ act. act ≡ number_act block offset number behind) }
{
    write_bytes(alloc, block, offset, &number.to_le_bytes(), behind)
}

/// The live records of a bucket are written anew, in their order, without the dead ones. `offset` is the byte of the block at which the
/// bucket begins.
pub fn rewrite(alloc: Global, block: u32, offset: usize, bucket: &[u8]) -> Result<Act, AllocError>
    requires { offset + length bucket.now ≤ 512 }
    ensures { IfOk result (λ act. act ≡ rewritten_act block offset bucket.now) }
{
    let patch = buckets::rewrite(alloc, offset, bucket)?;
    one_patch(alloc, block, patch, None)
}

/// Fields of an inode that stand side by side.
pub fn change_fields(
    alloc: Global,
    inode: u32,
    changes: &[Change],
    behind: Option<u32>,
) -> Result<Act, AllocError>
    requires some { changes.now ≢ [] }
    requires adjoining { IsTrue (are_adjoining changes.now) }
    ensures { IfOk result (λ act. act ≡ changes_act inode (changes.now ∷ []) behind) }
{
    let patch = Change::patch(alloc, changes)?;
    one_patch(alloc, inode, patch, behind)
}

/// The links of an inode; and where told its times and its parent, a patch each.
pub fn change_links(
    alloc: Global,
    inode: u32,
    links: u32,
    times: Option<Times>,
    parent: Option<u32>,
    behind: Option<u32>,
) -> Result<Act, AllocError>
    ensures { IfOk result (λ act. act ≡ links_act inode links times parent behind) }
{
    let mut patches = Vec::from_array(alloc, [Change::patch(alloc, &[Change::Links(links)])?])?;
    push_times(alloc, &mut patches, times)?;
    push_parent(alloc, &mut patches, parent)?;
    Ok(patch_act(alloc, inode, patches, behind))
}

/// Adds the patch of an inode's times, if some are told.
fn push_times(
    alloc: Global,
    patches: &mut Vec<Patch>,
    times: Option<Times>,
) -> Result<(), AllocError>
    ensures { IfOk result (λ _. patches.new.items ≡ patches.old.items ++ map changes_patch (time_parts times)) }
{
    if let Some(times) = times {
        patches.push(write_times(alloc, times)?)?;
    }
    Ok(())
}

/// The patch that writes an inode's times.
fn write_times(alloc: Global, times: Times) -> Result<Patch, AllocError>
    ensures { IfOk result (λ patch. patch ≡ changes_patch (Change.Mtime times.mtime ∷ Change.Ctime times.ctime ∷ [])) }
{
    Change::patch(
        alloc,
        &[Change::Mtime(times.mtime), Change::Ctime(times.ctime)],
    )
}

/// Adds the patch of an inode's parent, if one is told.
fn push_parent(
    alloc: Global,
    patches: &mut Vec<Patch>,
    parent: Option<u32>,
) -> Result<(), AllocError>
    ensures { IfOk result (λ _. patches.new.items ≡ patches.old.items ++ map changes_patch (parent_parts parent)) }
{
    if let Some(parent) = parent {
        patches.push(Change::patch(alloc, &[Change::Parent(parent)])?)?;
    }
    Ok(())
}

/// Pointers to blocks of a type, side by side from an offset on, which the block owns from then on.
pub fn attach(
    alloc: Global,
    block: u32,
    offset: u16,
    ty: u32,
    blocks: &[u32],
    behind: Option<u32>,
) -> Result<Act, AllocError>
    ensures { IfOk result (λ act. act ≡ attach_act block offset ty blocks.now behind) }
{
    let patch = Patch {
        offset,
        bytes: words(alloc, blocks)?,
    };
    Ok(Act {
        block,
        edit: Edit {
            patches: Vec::from_array(alloc, [patch])?,
            adds: with_type(alloc, blocks, ty)?,
            drops: Vec::new(alloc),
            after: None,
        },
        behind,
    })
}

/// The bytes of pointers, side by side.
fn words(alloc: Global, blocks: &[u32]) -> Result<Vec<u8>, AllocError>
    ensures { IfOk result (λ bytes. bytes.items ≡ word_bytes blocks.now) }
{
    let mut bytes = Vec::with_capacity(alloc, 4 * blocks.len())?;
    for block in blocks {
        bytes.extend_from_slice(&block.to_le_bytes())?;
    }
    Ok(bytes)
}

/// Blocks, each with a type.
fn with_type(alloc: Global, blocks: &[u32], ty: u32) -> Result<Vec<(u32, u32)>, AllocError>
    ensures { IfOk result (λ adds. adds.items ≡ map (λ b. (b, ty)) blocks.now) }
{
    let mut adds = Vec::with_capacity(alloc, blocks.len())?;
    for block in blocks {
        adds.push((*block, ty))?;
    }
    Ok(adds)
}

/// So many pointers from an offset on become 0, and the blocks to which they led are dropped.
pub fn drop_blocks(
    alloc: Global,
    block: u32,
    offset: u16,
    count: u16,
    blocks: &[u32],
    behind: Option<u32>,
) -> Result<Act, AllocError>
    ensures { IfOk result (λ act. act ≡ drop_act block offset count blocks.now behind) }
{
    let patch = Patch {
        offset,
        bytes: vec![in alloc; 0; 4 * usize::from(count)]?,
    };
    Ok(Act {
        block,
        edit: Edit {
            patches: Vec::from_array(alloc, [patch])?,
            adds: Vec::new(alloc),
            drops: blocks.to_vec(alloc)?,
            after: None,
        },
        behind,
    })
}
