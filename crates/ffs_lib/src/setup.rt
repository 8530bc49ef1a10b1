// How a volume is made: a root block, and a first block of inodes with the top directory.

ghost use Rattle.std.specs.Prelude.{◌≡◌, true, ℕ, Contains, Ok, OnOk, length};
ghost use Rattle.xn_model.specs.Lists.{put};
ghost use Rattle.xn_model.specs.Calls.{slot_now};
ghost use Rattle.xn_model.specs.Rules.{IsConsistent};
ghost use Rattle.xn_model.specs.Types.{Types};
ghost use Rattle.ffs_model.specs.Cuts.{latest};
ghost use Rattle.ffs_model.specs.Names.{IsRoot};
ghost use Rattle.ffs_model.specs.Library.{library_layout, zero_block};
ghost use Rattle.ffs_model.specs.Volumes.{no_edits};
ghost use Rattle.ffs_lookup.specs.Newest.{has_pointer, make_in};
ghost use Rattle.ffs_lookup.specs.Counts.{make_from};
ghost use Rattle.ffs_lookup.specs.Files.{empty_volume};
ghost use Rattle.ffs_lookup.specs.FileValues.{files_of};
ghost use Rattle.ffs_lib.specs.Making.{IsBegun, Rooted, StopsFirst, StopsRooting, StopsTop, first_pointer, with_root};
ghost use Rattle.ffs_lib.specs.NewOrder.{made_top, rooted_by, top_attached};
ghost use Rattle.ffs_lib.specs.Results.{new_inode};
ghost use Rattle.ffs_lib.specs.Steps.{Ends, Proposed, Stage, newest_block};

use crate::put::put;
use crate::steps::{INODE_BLOCK, block_with, forgotten};
use edit_list::{EditId, Fs};
use ffs_format::{Inode, pointer, pointer_bytes};
use ffs_lookup::{DIRECTORY, FfsFault, INODE_BLOCKS, ROOT, read_block, root_block};
use std::alloc::Global;
use store_types::{BLOCK_LEN, Refusal};
use xn_state::Store;

/// Whether a root block points to a block of inodes.
fn has_pointer(block: &[u8; BLOCK_LEN]) -> bool
    ensures { result ≡ has_pointer block.now }
{
    (0..INODE_BLOCKS).any(|index| pointer(block, index) != 0)
}

/// Whether a root block is there, without any block of inodes.
fn is_begun<S: Store>(store: &S, fs: Fs) -> Result<bool, FfsFault>
    ensures { result ≡ make_in (latest (S.state_of store.now).lives) fs.number }
{
    let Some(root) = store.root(fs) else {
        return Ok(false);
    };
    if store.kind(fs, root)? != ROOT {
        return Err(FfsFault::Kernel(Refusal::RootTaken));
    }
    let bytes = read_block(store, fs, root)?;
    if pointer(bytes, 0) != 0 {
        return Err(FfsFault::Exists);
    }
    if has_pointer(bytes) {
        return Err(FfsFault::Unsound(1));
    }
    Ok(true)
}

/// The same, where nothing of the file system is pending.
pub fn look_up_root<S: Store>(store: &S, fs: Fs) -> Result<bool, FfsFault>
    ensures exact { result ≡ make_from (S.state_of store.now) fs.number }
    ensures rules { IsConsistent (S.types_of store.now) (S.state_of store.now) }
{
    if store.pending(fs) > 0 {
        return Err(FfsFault::Pending);
    }
    is_begun(store, fs)
}

/// The first inode block, with the top directory, which has no block yet.
pub fn first_inodes() -> [u8; BLOCK_LEN]
    ensures exact { result ≡ put zero_block 0 (new_inode 2) }
    ensures bare { (p block : ℕ) → Contains (library_layout.direct result p) block → ⊥ }
{
    let mut inode = Inode::free();
    inode.set_mode(DIRECTORY);
    inode.set_links(1);
    block_with(0, inode.bytes())
}

/// Makes a root block without pointers, and sets the root slot to it.
fn make_root<S: Store>(store: &mut S, fs: Fs) -> Result<EditId, FfsFault>
    ensures types { S.types_of store.new ≡ S.types_of store.old }
    ensures rooted { (T : Types) → S.types_of store.old ≡ T → Rooted T fs.number (S.state_of store.old) (S.state_of store.new) result }
{
    let (block, _) = store.init(fs, ROOT, &[0; BLOCK_LEN])?;
    let made = store.make_root(fs, block).map_err(FfsFault::Kernel);
    forgotten(store, fs, block, made)
}

/// Sees to it that there is a root block.
fn prepare_root<S: Store>(store: &mut S, fs: Fs, begun: bool) -> Result<(), FfsFault>
    ensures types { S.types_of store.new ≡ S.types_of store.old }
    ensures ends { (T : Types) (block : ℕ) → S.types_of store.old ≡ T → Stage T fs.number no_edits (S.state_of store.old) →
        Ok begun ≡ make_in (newest_block (S.state_of store.old)) fs.number → IsBegun (S.state_of store.old) fs.number block →
        Ends T fs.number no_edits (S.state_of store.new) result
        (λ _. (Ok true ≡ make_in (newest_block (S.state_of store.new)) fs.number) × IsBegun (S.state_of store.new) fs.number block
        × (S.state_of store.new ≡ with_root T fs.number (S.state_of store.old)))
        (λ fault. ((slot_now (S.state_of store.old) fs.number).0 ≡ 0)
        × StopsRooting T fs.number (λ s. s) (S.state_of store.old) (S.state_of store.new) fault) }
    ensures order { (T : Types) → S.types_of store.old ≡ T → Stage T fs.number no_edits (S.state_of store.old) →
        Ok begun ≡ make_in (newest_block (S.state_of store.old)) fs.number →
        OnOk result (rooted_by T fs.number (S.state_of store.old) ≡ Ok (S.state_of store.new)) }
{
    if begun {
        return Ok(());
    }
    let _ = make_root(store, fs)?;
    Ok(())
}

/// Lets the root block point to the first block of inodes.
fn put_pointer<S: Store>(
    alloc: Global,
    store: &mut S,
    fs: Fs,
    block: u32,
) -> Result<EditId, FfsFault>
    ensures types { S.types_of store.new ≡ S.types_of store.old }
    ensures put { (T : Types) (root : ℕ) → S.types_of store.old ≡ T → IsRoot (newest_block (S.state_of store.old)) fs.number root →
        (length (newest_block (S.state_of store.old) root) ≡ 512)
        × Proposed T fs.number root (first_pointer block) (S.state_of store.old) (S.state_of store.new) result }
{
    let root = root_block(store, fs)?;
    let _ = read_block(store, fs, root)?;
    let bytes = pointer_bytes(block);
    put(
        alloc,
        store,
        fs,
        root,
        0,
        &bytes,
        &[(block, INODE_BLOCK)],
        &[],
        None,
    )
}

/// Attaches the first block of inodes to a root block.
fn attach_first<S: Store>(
    alloc: Global,
    store: &mut S,
    fs: Fs,
    begun: bool,
    block: u32,
) -> Result<EditId, FfsFault>
    ensures types { S.types_of store.new ≡ S.types_of store.old }
    ensures ends { (T : Types) → S.types_of store.old ≡ T → Stage T fs.number no_edits (S.state_of store.old) →
        Ok begun ≡ make_in (newest_block (S.state_of store.old)) fs.number → IsBegun (S.state_of store.old) fs.number block →
        Ends T fs.number no_edits (S.state_of store.new) result
        (λ _. (n : ℕ) → files_of (newest_block (S.state_of store.new)) fs.number n ≡ empty_volume n)
        (StopsFirst T fs.number (λ s. s) block (S.state_of store.old) (S.state_of store.new)) }
    ensures order { (T : Types) → S.types_of store.old ≡ T → Stage T fs.number no_edits (S.state_of store.old) →
        Ok begun ≡ make_in (newest_block (S.state_of store.old)) fs.number → IsBegun (S.state_of store.old) fs.number block →
        OnOk result (top_attached T fs.number block (S.state_of store.old) ≡ Ok (S.state_of store.new)) }
{
    prepare_root(store, fs, begun)?;
    put_pointer(alloc, store, fs, block)
}

/// Makes the first block of inodes, where a root block may be there.
pub fn make_first<S: Store>(
    alloc: Global,
    store: &mut S,
    fs: Fs,
    begun: bool,
) -> Result<EditId, FfsFault>
    ensures types { S.types_of store.new ≡ S.types_of store.old }
    ensures ends { (T : Types) → S.types_of store.old ≡ T → Stage T fs.number no_edits (S.state_of store.old) →
        Ok begun ≡ make_in (newest_block (S.state_of store.old)) fs.number →
        Ends T fs.number no_edits (S.state_of store.new) result
        (λ _. (n : ℕ) → files_of (newest_block (S.state_of store.new)) fs.number n ≡ empty_volume n)
        (StopsTop T fs.number (S.state_of store.old) (S.state_of store.new)) }
    ensures order { (T : Types) → S.types_of store.old ≡ T → Stage T fs.number no_edits (S.state_of store.old) →
        Ok begun ≡ make_in (newest_block (S.state_of store.old)) fs.number →
        OnOk result (made_top T fs.number (S.state_of store.old) ≡ Ok (S.state_of store.new)) }
{
    let (block, _) = store.init(fs, INODE_BLOCK, &first_inodes())?;
    let attached = attach_first(alloc, store, fs, begun, block);
    forgotten(store, fs, block, attached)
}
