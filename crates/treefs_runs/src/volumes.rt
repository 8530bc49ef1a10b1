// A fresh volume of file system 1 on a disk in memory.

use crate::recorder::Recorder;
use crate::text::without_end;
use crash_check::mount;
use disk::{MemLane, fresh_lanes};
use edit_list::Fs;
use std::alloc::{AllocError, Global};
use std::thread::Threads;
use store_types::BLOCK_LEN;
use templates::{format_image, write_block};
use treefs::{BlockTypes, Volume};
use treefs_format::types::tree_templates;
use xn_kernel::Kernel;

/// How many bytes a disk has at most.
const GREATEST: usize = 16_777_216;

/// The type of nodes, and that of inodes, on a fresh disk.
const NODE_TYPE: u8 = 3;

const INODE_TYPE: u8 = 4;

/// A kernel of a disk in memory that notes what is asked of it.
pub type Disk = Recorder<Kernel<MemLane>>;

/// A volume, on a store that notes what is asked of it.
#[derive(Drop)]
pub struct Made {
    pub store: Disk,
    pub volume: Volume,
}

/// A fresh disk without types; `None` where there is none of so many blocks.
fn fresh_disk(rt: &(impl Threads + Sync), alloc: Global, blocks: u32) -> Option<Kernel<MemLane>> {
    let image = format_image(alloc, blocks, &[]).ok()?;
    if image.len() % BLOCK_LEN != 0 || image.len() > GREATEST {
        return None;
    }
    let lanes = fresh_lanes(alloc, &image).ok()?;
    mount(rt, alloc, lanes, 1).ok()
}

/// Installs both types.
fn install_types(alloc: Global, store: &mut Disk) -> Result<(), AllocError> {
    let templates = tree_templates(alloc)?;
    let mut block = 1u32;
    for template in templates.iter() {
        let bytes = write_block(template);
        let _installed = store.store.install(&bytes);
        store.note("  install ");
        store.note_bytes(without_end(&bytes));
        store.note_number(" > type ", block.saturating_add(2));
        store.note_number(" block ", block);
        store.note("\n");
        block = block.saturating_add(1);
    }
    Ok(())
}

/// Makes the volume, all of which is on the disk then.
pub fn make_volume(
    rt: &(impl Threads + Sync),
    alloc: Global,
    blocks: u32,
    seed: u32,
) -> Result<Option<Made>, AllocError> {
    let (Some(fs), Some(disk)) = (Fs::new(1), fresh_disk(rt, alloc, blocks)) else {
        return Ok(None);
    };
    let mut store = Recorder::new(alloc, disk);
    install_types(alloc, &mut store)?;
    let types = BlockTypes {
        node: NODE_TYPE,
        inode: INODE_TYPE,
    };
    let mut key = [0u8; 16];
    key[..4].copy_from_slice(&seed.to_le_bytes());
    let Ok(volume) = Volume::mkfs(alloc, &mut store, fs, types, &key, 0) else {
        return Ok(None);
    };
    store.drain();
    Ok(Some(Made { store, volume }))
}
