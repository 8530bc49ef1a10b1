// Pseudo-random edits.

use crate::answers::Asked;
use crate::record::{Entry, Record, Status};
use pseudo_random::Numbers;
use std::alloc::{AllocError, Global};
use xn_kernel::{Edit, EditId, Patch};

/// A pointer of a block: its offset, and the type to which it points. Of some types a few pointers are taken alone.
#[derive(Clone, Copy)]
pub struct Pointer {
    pub offset: u16,
    pub ty: u32,
}

/// A pointer of a block of this type, which has none where it is a type of data.
pub fn some_pointer(numbers: &mut Numbers, record: &Record, ty: u32) -> Option<Pointer> {
    let count = record.pointers(ty);
    if count == 0 {
        return None;
    }
    record.pointer_at(ty, numbers.below(count))
}

/// The number of the next state, which is no block's.
pub fn stamp(record: &Record) -> u32 {
    (record.next & 0x7fff_ffff) as u32 | 0x8000_0000
}

/// The patch that writes a number.
fn word_patch(alloc: Global, offset: u16, word: u32) -> Result<Patch, AllocError> {
    let bytes = Vec::from_slice(alloc, &word.to_le_bytes())?;
    Ok(Patch { offset, bytes })
}

/// The words that an edit of a block of this type writes: a pointer, where it sets one, and the number of the state, or a zero that is
/// there already.
pub fn words_of(record: &Record, ty: u32, pointer: Option<(u16, u32)>) -> [(u16, u32); 2] {
    let last = if record.has_stamp(ty) {
        (4, stamp(record))
    } else {
        (60, 0)
    };
    match pointer {
        Some(word) => [word, last],
        None => [last, last],
    }
}

/// The edit that is asked for.
pub fn edit_of(alloc: Global, asked: &Asked) -> Result<Edit, AllocError> {
    let mut patches = Vec::new(alloc);
    let [first, last] = asked.entry.words;
    if first != last {
        patches.push(word_patch(alloc, first.0, first.1)?)?;
    }
    patches.push(word_patch(alloc, last.0, last.1)?)?;
    let mut adds = Vec::new(alloc);
    if let Some(block) = asked.entry.adds {
        adds.push((block, asked.added_type))?;
    }
    let mut drops = Vec::new(alloc);
    if let Some(block) = asked.entry.drops {
        drops.push(block)?;
    }
    let after = match asked.entry.after {
        Some(number) => Some(EditId(number)),
        None => None,
    };
    Ok(Edit {
        patches,
        adds,
        drops,
        after,
    })
}

/// The number that an edit comes after, for some: mostly one that was given.
fn some_after(numbers: &mut Numbers, record: &Record) -> Option<u64> {
    if numbers.below(3) > 0 {
        return None;
    }
    let back = u64::from(numbers.below(40));
    Some(record.next.saturating_sub(back))
}

/// A block of a file system, from a place on: any, or a fresh one of a type. Where there is none, the block at that place.
pub fn search(record: &Record, start: u32, fs: u8, fresh: Option<u32>) -> u32 {
    for step in 0..record.blocks {
        let block = record.behind(start, step);
        let Some(life) = record.life(block) else {
            continue;
        };
        let fits = match fresh {
            Some(ty) => life.ty == ty && life.status == Status::Fresh,
            None => true,
        };
        if fits && life.fs == Some(fs) {
            return block;
        }
    }
    start
}

/// An edit that changes no pointer.
pub fn plain(numbers: &mut Numbers, record: &Record, fs: u8, block: u32) -> Asked {
    let entry = Entry {
        block,
        number: record.next,
        fs: Some(fs),
        adds: None,
        drops: None,
        after: some_after(numbers, record),
        words: [(60, 0); 2],
    };
    Asked {
        entry,
        fs,
        added_type: 0,
        is_claimed: true,
    }
}

/// The block of a type to which an edit sets a pointer that has pointed to `old`, 0 for none. A block that may not be added is mostly
/// passed over.
pub fn some_target(
    numbers: &mut Numbers,
    record: &Record,
    asked: &Asked,
    ty: u32,
    old: u32,
) -> u32 {
    if old != 0 && numbers.below(4) > 0 {
        return 0;
    }
    let start = record.some_number(numbers, 0);
    let (end, _) = record.chain_end(asked.entry.block);
    let mut found = search(record, start, asked.fs, Some(ty));
    if found == end && numbers.below(4) > 0 {
        found = search(record, found.wrapping_add(1), asked.fs, Some(ty));
    }
    let is_taken = found != end && record.is_fresh(found);
    if is_taken || numbers.below(4) == 0 {
        found
    } else {
        0
    }
}

/// The same edit with what it claims of a pointer that is set; each sixteenth claim is left out.
pub fn claiming(numbers: &mut Numbers, asked: Asked, ty: u32, old: u32, new: u32) -> Asked {
    let mut asked = asked;
    let is_changed = old != new;
    asked.added_type = ty;
    if new != 0 && numbers.below(16) > 0 {
        asked.entry.adds = Some(new);
    }
    if old != 0 && numbers.below(16) > 0 {
        asked.entry.drops = Some(old);
    }
    asked.is_claimed = asked.entry.adds.is_some() == (is_changed && new != 0)
        && asked.entry.drops.is_some() == (is_changed && old != 0);
    asked
}
