// What a mount finds on a disk: the blocks that its root block reaches, by the bytes alone.

use crate::held::word_at;
use crate::record::{Life, Record};
use crate::types::{FIRST_NAMED, PAST_NAMED};
use std::alloc::{AllocError, Global};

/// How many file systems have a root slot.
const SLOTS: u8 = 32;

/// The offset of a file system's root slot in block 0: four bytes of the block, and four of its type.
pub fn slot(fs: u8) -> u16 {
    72 + 8 * u16::from(fs)
}

/// The blocks that were reached so far, in that order, and whether each was on the disk and named once.
#[derive(Drop)]
struct Walk {
    found: Vec<u32>,
    is_sound: bool,
}

impl Record {
    /// Takes a block that a pointer names.
    fn reach(&mut self, walk: &mut Walk, block: u32, life: Life) -> Result<(), AllocError> {
        if block >= self.blocks || self.life(block).is_some() || !self.is_installed(life.ty) {
            walk.is_sound = false;
            return Ok(());
        }
        self.set(block, Some(life));
        walk.found.push(block)?;
        Ok(())
    }

    /// Takes the blocks of the types that block 0 names; each has the bytes with which its life began.
    fn reach_templates(&mut self, walk: &mut Walk) -> Result<(), AllocError> {
        for ty in FIRST_NAMED..PAST_NAMED {
            let block = self.named(ty);
            if block != 0 {
                self.reach(walk, block, Life::found(None, 1, 0))?;
                if self.held(block).newest != self.start_of(block, 1) {
                    walk.is_sound = false;
                }
            }
        }
        Ok(())
    }

    /// Takes the blocks that the root slots name.
    fn reach_roots(&mut self, walk: &mut Walk) -> Result<(), AllocError> {
        let bytes = self.held(0).newest;
        for fs in 0..SLOTS {
            let block = word_at(&bytes, slot(fs));
            if block != 0 {
                let ty = word_at(&bytes, slot(fs).saturating_add(4));
                self.reach(walk, block, Life::found(Some(fs), ty, 0))?;
            }
        }
        Ok(())
    }

    /// Takes the blocks that this one names.
    fn reach_named(&mut self, walk: &mut Walk, block: u32) -> Result<(), AllocError> {
        let Some(life) = self.life(block) else {
            return Ok(());
        };
        let bytes = self.held(block).newest;
        for at in 0..self.pointers(life.ty) {
            if let Some(place) = self.pointer_at(life.ty, at) {
                let named = word_at(&bytes, place.offset);
                if named != 0 {
                    self.reach(walk, named, Life::found(life.fs, place.ty, block))?;
                }
            }
        }
        Ok(())
    }

    /// Begins anew with what the disk holds; whether each block is named at most once, with a type that block 0 names, and each that is
    /// named is on the disk.
    pub fn mount(&mut self, alloc: Global) -> Result<bool, AllocError> {
        self.restart();
        let mut walk = Walk {
            found: Vec::new(alloc),
            is_sound: true,
        };
        self.reach_templates(&mut walk)?;
        self.reach_roots(&mut walk)?;
        for at in 0..self.blocks as usize {
            if let Some(block) = walk.found.get(at) {
                let block = *block;
                self.reach_named(&mut walk, block)?;
            }
        }
        Ok(walk.is_sound)
    }
}
