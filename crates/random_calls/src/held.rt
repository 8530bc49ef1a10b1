// What each block of a device holds that keeps writes back until a sync, as the rules of such a device say it.

use crate::record::Record;
use store_types::BLOCK_LEN;

/// The bytes of a block.
pub type Bytes = [u8; BLOCK_LEN];

/// A block of the device.
#[derive(Clone, Copy)]
pub struct Held {
    /// What a read gives.
    pub newest: Bytes,
    pub settled: Bytes,
    /// The last bytes that were given to a write, well done or not, since the last good sync.
    pub given: Option<Bytes>,
}

impl Held {
    /// A block with no open write.
    pub fn rest(bytes: Bytes) -> Held {
        Held {
            newest: bytes,
            settled: bytes,
            given: None,
        }
    }

    /// A write is given these bytes, and a read finds them or the ones before.
    pub fn write(&mut self, bytes: &Bytes, stays: bool) {
        if stays {
            self.newest = *bytes;
        }
        self.given = Some(*bytes);
    }

    /// A sync that answers well.
    pub fn sync(&mut self) {
        self.settled = self.newest;
        self.given = None;
    }

    /// What a crash leaves, where it keeps the open write or loses it.
    pub fn left(&self, is_kept: bool) -> Bytes {
        match self.given {
            Some(given) if is_kept => given,
            _ => self.settled,
        }
    }
}

/// Writes a number, the lowest byte first.
pub fn put_word(bytes: &mut Bytes, offset: u16, word: u32) {
    let mut at = usize::from(offset);
    for byte in word.to_le_bytes() {
        if let Some(place) = bytes.get_mut(at) {
            *place = byte;
        }
        at = at.saturating_add(1);
    }
}

/// The number at an offset, the lowest byte first.
pub fn word_at(bytes: &Bytes, offset: u16) -> u32 {
    let mut word = [0u8; 4];
    let mut at = usize::from(offset);
    for place in 0..4usize {
        if let Some(byte) = bytes.get(at) {
            word[place] = *byte;
        }
        at = at.saturating_add(1);
    }
    u32::from_le_bytes(word)
}

impl Record {
    /// What a block of the device holds.
    pub fn held(&self, block: u32) -> Held {
        match self.held.get(block as usize) {
            Some(held) => *held,
            None => Held::rest([0; BLOCK_LEN]),
        }
    }

    /// The device holds this in a block from now on.
    pub fn hold(&mut self, block: u32, held: Held) {
        if let Some(place) = self.held.get_mut(block as usize) {
            *place = held;
        }
    }

    /// With what the first entry of a block that has no state on the disk begins: a template's bytes, or zeros.
    pub fn start_of(&self, block: u32, ty: u32) -> Bytes {
        match self.starts.get(block as usize) {
            Some(bytes) if ty == 1 => *bytes,
            _ => [0; BLOCK_LEN],
        }
    }

    /// The bytes of a block after so many of its pending entries.
    pub fn bytes_after(&self, block: u32, count: u32) -> Bytes {
        let mut bytes = match self.life(block) {
            Some(life) if life.is_durable => self.held(block).settled,
            Some(life) => self.start_of(block, life.ty),
            None => [0; BLOCK_LEN],
        };
        let mut left = count;
        for entry in &self.entries {
            if entry.block == block && left > 0 {
                for (offset, word) in entry.words {
                    put_word(&mut bytes, offset, word);
                }
                left = left.saturating_sub(1);
            }
        }
        bytes
    }

    /// The device crashes in this block, and keeps its open write or loses it.
    pub fn crash(&mut self, block: u32, is_kept: bool) {
        let left = self.held(block).left(is_kept);
        self.hold(block, Held::rest(left));
    }
}
