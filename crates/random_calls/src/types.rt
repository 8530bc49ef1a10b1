// The types that block 0 names, and how one more is installed.

use crate::edits::Pointer;
use crate::held::{Bytes, word_at};
use crate::record::{Entry, Life, Record, Status};
use crate::shapes::{Shape, shape_of_number};
use std::alloc::AllocError;
use xn_kernel::Refusal;

/// The first type that block 0 names, and the one past the last.
pub const FIRST_NAMED: u32 = 3;

pub const PAST_NAMED: u32 = 19;

/// The first type that isn't there when the disk is formatted, and how many such types there are.
pub const FIRST_ADDED: u32 = 8;

pub const ADDED: u32 = 11;

/// The offset of the pointer in block 0 that names the template of a type.
fn place_of(ty: u32) -> u16 {
    let place = (ty.saturating_sub(FIRST_NAMED) & 0xf) as u16;
    8 + 4 * place
}

impl Record {
    /// The block that block 0 names for a type as the disk has it; between a sync and the end of the write that is the newest state's.
    pub fn named(&self, ty: u32) -> u32 {
        match self.held.get(0) {
            Some(held) => word_at(&held.settled, place_of(ty)),
            None => 0,
        }
    }

    /// Whether a pending entry of block 0 names this type.
    fn is_naming(&self, ty: u32) -> bool {
        for entry in &self.entries {
            if entry.block == 0 {
                for (offset, _) in entry.words {
                    if offset == place_of(ty) {
                        return true;
                    }
                }
            }
        }
        false
    }

    /// Whether block 0's newest state has a type.
    pub fn is_installed(&self, ty: u32) -> bool {
        ty < FIRST_NAMED || ty < PAST_NAMED && (self.named(ty) != 0 || self.is_naming(ty))
    }

    /// Whether block 0 has a type on the disk.
    pub fn is_on_disk(&self, ty: u32) -> bool {
        ty < FIRST_NAMED || ty < PAST_NAMED && self.named(ty) != 0 && !self.is_naming(ty)
    }

    /// How many types block 0's newest state names, and how many of them it doesn't on the disk.
    pub fn count_types(&self) -> (u32, u32) {
        let (mut installed, mut pending) = (0u32, 0u32);
        for ty in FIRST_NAMED..PAST_NAMED {
            if self.is_installed(ty) {
                installed = installed.saturating_add(1);
                if !self.is_on_disk(ty) {
                    pending = pending.saturating_add(1);
                }
            }
        }
        (installed, pending)
    }

    /// The least type that isn't there.
    pub fn next_type(&self) -> Option<u32> {
        for ty in FIRST_NAMED..PAST_NAMED {
            if !self.is_installed(ty) {
                return Some(ty);
            }
        }
        None
    }

    /// The block and the first entry of the next template.
    pub fn next_install(&self, is_template: bool) -> Result<(u32, u64), Refusal> {
        if self.next_type().is_none() {
            return Err(Refusal::NoSlot);
        }
        if self.count_of(0) >= 64 {
            return Err(Refusal::TooManyPending);
        }
        if self.next >= u64::MAX - 1 {
            return Err(Refusal::Exhausted);
        }
        let Some(block) = self.lowest_free() else {
            return Err(Refusal::NoSpace);
        };
        if !is_template {
            return Err(Refusal::BadTemplate);
        }
        Ok((block, self.next))
    }

    /// A life of nobody begins with a template's bytes.
    fn begin_template(&mut self, block: u32, bytes: &Bytes) {
        let found = Life::found(None, 1, 0);
        let (status, is_durable) = (Status::Fresh, false);
        self.set(
            block,
            Some(Life {
                status,
                is_durable,
                ..found
            }),
        );
        self.start_with(block, bytes);
    }

    /// A life of nobody begins with a template's bytes, and block 0 names it as a type of this shape.
    pub fn install(
        &mut self,
        ty: u32,
        shape: u16,
        block: u32,
        number: u64,
        bytes: &Bytes,
    ) -> Result<(), AllocError> {
        self.begin_template(block, bytes);
        if let Some(place) = self.shapes.get_mut(ty.saturating_sub(FIRST_NAMED) as usize) {
            *place = shape;
        }
        let begun = Entry {
            block,
            number,
            fs: None,
            adds: None,
            drops: None,
            after: None,
            words: [(0, word_at(bytes, 0)); 2],
        };
        self.accept(begun)?;
        self.accept(Entry {
            block: 0,
            number: number.saturating_add(1),
            adds: Some(block),
            words: [(place_of(ty), block); 2],
            ..begun
        })
    }

    /// The lowest free block.
    pub fn lowest_free(&self) -> Option<u32> {
        for block in 0..self.blocks {
            if self.life(block).is_none() {
                return Some(block);
            }
        }
        None
    }

    /// The shape of a type that isn't there when the disk is formatted.
    fn shape_of(&self, ty: u32) -> Option<Shape> {
        if ty < FIRST_ADDED {
            return None;
        }
        match self.shapes.get((ty - FIRST_NAMED) as usize) {
            Some(number) => Some(shape_of_number(*number)),
            None => None,
        }
    }

    /// How many pointers of a block of this type are taken.
    pub fn pointers(&self, ty: u32) -> u16 {
        match ty {
            3 | 5 => 3,
            4 => 6,
            6 | 7 => 2,
            _ => match self.shape_of(ty) {
                Some(shape) => shape.pointers(),
                None => 0,
            },
        }
    }

    /// One of the pointers of a block of this type.
    pub fn pointer_at(&self, ty: u32, at: u16) -> Option<Pointer> {
        let Some(shape) = self.shape_of(ty) else {
            return formatted_pointer(ty, at);
        };
        match at {
            0 => {
                let (offset, ty) = (0, shape.first);
                Some(Pointer { offset, ty })
            }
            1 => {
                let (offset, ty) = (8, shape.second);
                Some(Pointer { offset, ty })
            }
            _ => None,
        }
    }

    /// Whether blocks of this type may point to blocks of that one.
    pub fn points_to(&self, ty: u32, pointed: u32) -> bool {
        for at in 0..self.pointers(ty) {
            if let Some(place) = self.pointer_at(ty, at)
                && place.ty == pointed
            {
                return true;
            }
        }
        false
    }

    /// Whether blocks of this type have bytes 4 to 7 free for a number of each state, so that no two states are the same.
    pub fn has_stamp(&self, ty: u32) -> bool {
        match self.shape_of(ty) {
            Some(shape) => shape.size >= 8,
            None => ty == 2 || ty == 4 || ty == 6 || ty == 7,
        }
    }
}

/// One of the pointers of a block of a type with which the disk is formatted.
fn formatted_pointer(ty: u32, at: u16) -> Option<Pointer> {
    let offset = match (ty, at) {
        (3 | 5 | 6 | 7, 0) => 0,
        (3 | 5, 1) => 4,
        (3 | 5, 2) | (4 | 6 | 7, 1) => 8,
        (4, 2) => 12,
        (4, 0) => 56,
        (4, 4) => 72,
        (4, 5) => 76,
        (4, 3) => 120,
        _ => return None,
    };
    let ty = match ty {
        3 => 4,
        4 if at % 3 == 0 => 5,
        6 => 6,
        7 => 8,
        _ => 2,
    };
    Some(Pointer { offset, ty })
}
