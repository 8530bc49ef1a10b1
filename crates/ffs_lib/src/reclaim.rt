// Inodes in use without a name, and inodes with more links than names, as a crash may leave them.

ghost use Rattle.std.specs.Prelude.{◌≡◌, ◌≢◌, ℕ, Option};
ghost use Rattle.xn_model.specs.Types.{Types};
ghost use Rattle.ffs_model.specs.Cuts.{Under};
ghost use Rattle.ffs_lib.specs.Orders.{Orders};
ghost use Rattle.ffs_lib.specs.RepairOrder.{repaired_edits};
ghost use Rattle.ffs_lib.specs.Reclaiming.{Emptied, MayRepair, RepairedOne, StopsRepairing};
ghost use Rattle.ffs_lib.specs.Steps.{Ends, Stage, newest_block};

use crate::put::{put, put_inode};
use crate::steps::{blocks_in, blocks_of};
use edit_list::{EditId, Fs};
use ffs_format::Inode;
use ffs_lookup::{FfsFault, Found, Repair, find_inode, read_block};
use std::alloc::Global;
use store_types::BLOCK_LEN;
use xn_state::Store;

/// Drops the blocks that a block of pointers points to, if there are any.
fn empty_pointers<S: Store>(
    alloc: Global,
    store: &mut S,
    fs: Fs,
    block: u32,
) -> Result<(), FfsFault>
    ensures types { S.types_of store.new ≡ S.types_of store.old }
    ensures put { (T : Types) → S.types_of store.old ≡ T → (block ≢ 0 → Under T (newest_block (S.state_of store.old)) fs.number block 5) →
        Emptied T fs.number block (S.state_of store.old) (S.state_of store.new) result }
{
    if block == 0 {
        return Ok(());
    }
    let dropped = blocks_in(alloc, read_block(store, fs, block)?)?;
    if dropped.is_empty() {
        return Ok(());
    }
    let _ = put(
        alloc,
        store,
        fs,
        block,
        0,
        &[0; BLOCK_LEN],
        &[],
        &dropped,
        None,
    )?;
    Ok(())
}

/// Gives an inode up, with its blocks.
fn give_up<S: Store>(alloc: Global, store: &mut S, fs: Fs, number: u16) -> Result<EditId, FfsFault>
    ensures types { S.types_of store.new ≡ S.types_of store.old }
    ensures ends { (T : Types) (array : ℕ → Option ℕ) → S.types_of store.old ≡ T → Stage T fs.number array (S.state_of store.old) →
        MayRepair (S.state_of store.old) fs.number number Repair.GiveUp → Ends T fs.number array (S.state_of store.new) result
        (λ _. RepairedOne (S.state_of store.old) (S.state_of store.new) fs.number number Repair.GiveUp)
        (StopsRepairing T fs.number (S.state_of store.old) (S.state_of store.new) number Repair.GiveUp) }
    ensures order { (T : Types) (array : ℕ → Option ℕ) → S.types_of store.old ≡ T → Stage T fs.number array (S.state_of store.old) →
        Orders T fs.number (repaired_edits (newest_block (S.state_of store.old)) fs.number number Repair.GiveUp)
        (S.state_of store.old) (S.state_of store.new) result }
{
    let found = find_inode(store, fs, number)?;
    empty_pointers(alloc, store, fs, found.inode.indirect())?;
    let found = find_inode(store, fs, number)?;
    let drops = blocks_of(alloc, &found.inode)?;
    put_inode(
        alloc,
        store,
        fs,
        found.block,
        found.place,
        &Inode::free(),
        &[],
        &drops,
        None,
    )
}

/// Sets the links of an inode.
fn set_links<S: Store>(
    alloc: Global,
    store: &mut S,
    fs: Fs,
    number: u16,
    links: u16,
) -> Result<EditId, FfsFault>
    ensures types { S.types_of store.new ≡ S.types_of store.old }
    ensures ends { (T : Types) (array : ℕ → Option ℕ) → S.types_of store.old ≡ T → Stage T fs.number array (S.state_of store.old) →
        MayRepair (S.state_of store.old) fs.number number (Repair.SetLinks links) → Ends T fs.number array (S.state_of store.new) result
        (λ _. RepairedOne (S.state_of store.old) (S.state_of store.new) fs.number number (Repair.SetLinks links))
        (StopsRepairing T fs.number (S.state_of store.old) (S.state_of store.new) number (Repair.SetLinks links)) }
    ensures order { (T : Types) (array : ℕ → Option ℕ) → S.types_of store.old ≡ T → Stage T fs.number array (S.state_of store.old) →
        Orders T fs.number (repaired_edits (newest_block (S.state_of store.old)) fs.number number (Repair.SetLinks links))
        (S.state_of store.old) (S.state_of store.new) result }
{
    let Found {
        block,
        place,
        mut inode,
    } = find_inode(store, fs, number)?;
    inode.set_links(links);
    put_inode(alloc, store, fs, block, place, &inode, &[], &[], None)
}

/// Does with an inode what it needs.
pub fn repair_inode<S: Store>(
    alloc: Global,
    store: &mut S,
    fs: Fs,
    number: u16,
    repair: Repair,
) -> Result<(), FfsFault>
    ensures types { S.types_of store.new ≡ S.types_of store.old }
    ensures ends { (T : Types) (array : ℕ → Option ℕ) → S.types_of store.old ≡ T → Stage T fs.number array (S.state_of store.old) →
        MayRepair (S.state_of store.old) fs.number number repair → Ends T fs.number array (S.state_of store.new) result
        (λ _. RepairedOne (S.state_of store.old) (S.state_of store.new) fs.number number repair)
        (StopsRepairing T fs.number (S.state_of store.old) (S.state_of store.new) number repair) }
    ensures order { (T : Types) (array : ℕ → Option ℕ) → S.types_of store.old ≡ T → Stage T fs.number array (S.state_of store.old) →
        Orders T fs.number (repaired_edits (newest_block (S.state_of store.old)) fs.number number repair) (S.state_of store.old) (S.state_of store.new) result }
{
    let _ = match repair {
        Repair::Keep => return Ok(()),
        Repair::GiveUp => give_up(alloc, store, fs, number)?,
        Repair::SetLinks(links) => set_links(alloc, store, fs, number, links)?,
    };
    Ok(())
}
