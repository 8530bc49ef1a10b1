ghost use Rattle.std.specs.Prelude.{◌≡◌, ◌≢◌, IsErr, Contains, ◌⊎◌, ℕ, ◌+◌, ◌*◌, ◌/◌, ◌%◌, ◌^◌, ◌<◌, ◌≤◌, List, length, Option, Some, None, IfOk, OnOk, OnErr};
ghost use Rattle.std.specs.Prelude.{IfErr, IsOk, IsNone, IsSome, IfSome, ◌↔◌, slice_get, slice_set, slice_range, take, IsTrue, true, false};
ghost use Rattle.disk.specs.Lanes.{CountsOne};
ghost use Rattle.disk.specs.Images.{HoldsBytes, block_of_image};
ghost use Rattle.disk.specs.Mem.{MemoryLane, AreFreshLanes, fresh_lane, read_failed, write_failed, sync_failed};
ghost use Rattle.disk.specs.Mem.{synced, crashed_lane, memory_read, memory_write};
ghost use Rattle.disk.specs.Mem.{memory_sync, memory_leaves, IsGivenAfterFault};

use crate::blocks::Blocks;
use crate::lane::{DeviceFault, Lane};
use crate::lanes::Lanes;
use std::alloc::{AllocError, Allocator, Global};
use std::marker::Model;
use store_types::BLOCK_LEN;

/// Whether a block holds a write that is not settled, and what its two lots of bytes are then.
#[derive(Clone, Copy)]
enum OpenWrite {
    /// It holds none: what a read gives is settled.
    Absent,
    /// A read gives what the write was given, and the other bytes are the settled ones.
    Newest,
    /// What a read gives is settled, and the other bytes are those that the write was given.
    Unread,
}

/// What a block in memory has: its bytes, whether some are not settled, how often it failed, and what it was told to let fail.
#[derive(Drop)]
struct Held<A: Allocator> {
    blocks: Blocks<A>,
    open_write: OpenWrite,
    faults: u64,
    write_fault: Option<bool>,
    read_fault: bool,
    sync_fault: bool,
}

/// A block in memory that holds writes until they are synced. A test may tell its next read, write or sync to fail.
///
/// A lane goes from hand to hand with each write, so what it has stands behind a pointer and stays where it is. A write goes into the lot
/// of bytes that is not settled, so that nothing is copied but what it was given.
#[derive(Drop)]
pub struct MemLane<A: Allocator = Global> {
    number: u32,
    held: Box<Held<A>>,
}

impl<A: Allocator> Model for MemLane<A> {
    ghost use Rattle.disk.specs.Mem.{MemoryLane};
    ghost use Rattle.disk.specs.OpenWrites.{settled_by, given_by};

    ghost Value = { MemoryLane };

    ghost view = { λ a. record {
      number = a.number;
      bytes = a.held.value.blocks.bytes;
      settled = settled_by a.held.value.open_write a.held.value.blocks.bytes a.held.value.blocks.other;
      given = given_by a.held.value.open_write a.held.value.blocks.bytes a.held.value.blocks.other;
      faults = a.held.value.faults;
      write_fault = a.held.value.write_fault;
      read_fault = a.held.value.read_fault;
      sync_fault = a.held.value.sync_fault;
    } };
}

impl<A: Allocator> MemLane<A> {
    /// A lane over these bytes, whose second lot has its memory from `rooms`. The bytes are put where they stay, so that they are copied once.
    fn new(
        alloc: Global,
        rooms: A,
        number: u32,
        bytes: &[u8; BLOCK_LEN],
    ) -> Result<MemLane<A>, AllocError>
        ensures { IfOk result (λ lane. lane ≡ fresh_lane number bytes.now) }
    {
        let held = Held {
            blocks: Blocks::new(rooms)?,
            open_write: OpenWrite::Absent,
            faults: 0,
            write_fault: None,
            read_fault: false,
            sync_fault: false,
        };
        let mut held = Box::new(alloc, held)?;
        held.blocks.set_bytes(bytes);
        Ok(MemLane { number, held })
    }

    /// The bytes of the block.
    pub fn bytes(&self) -> &[u8; BLOCK_LEN]
        ensures { result.now ≡ self.now.bytes }
    {
        self.held.blocks.bytes()
    }

    /// Lets the next write fail, and that one alone. The block then holds the new bytes or keeps the old ones, as asked
    /// here; of several such calls before a write the last one stands.
    pub fn fail_write(&mut self, new_bytes_stay: bool)
        ensures { self.new ≡ record self.old { write_fault = Some new_bytes_stay } }
    {
        self.held.write_fault = Some(new_bytes_stay);
    }

    /// Lets the next read fail, and that one alone.
    pub fn fail_read(&mut self)
        ensures { self.new ≡ record self.old { read_fault = true } }
    {
        self.held.read_fault = true;
    }

    /// Lets the next sync fail, and that one alone.
    pub fn fail_sync(&mut self)
        ensures { self.new ≡ record self.old { sync_fault = true } }
    {
        self.held.sync_fault = true;
    }

    /// Crashes: the block then has the last bytes that were given to a write since its last good sync, where there are such
    /// and they are kept, and else its settled ones.
    pub fn crash(&mut self, kept: bool)
        ensures { self.new ≡ crashed_lane self.old kept }
    {
        match self.held.open_write {
            OpenWrite::Absent => {}
            OpenWrite::Newest if kept => {}
            OpenWrite::Unread if !kept => {}
            OpenWrite::Newest | OpenWrite::Unread => self.held.blocks.turn(),
        }
        self.held.open_write = OpenWrite::Absent;
    }

    /// Fails where a read was told to, and then counts one fault and forgets what it was told.
    #[inline(always)]
    fn fail_if_told(&mut self) -> Result<(), DeviceFault>
        ensures gives { memory_read self.old result self.new }
        ensures counts { OnErr result (CountsOne self.old.faults self.new.faults) }
    {
        if !self.held.read_fault {
            return Ok(());
        }
        self.held.read_fault = false;
        self.held.faults = self.held.faults.wrapping_add(1);
        Err(DeviceFault)
    }

    /// A write was given these bytes, and a read finds them.
    #[inline(always)]
    fn put(&mut self, from: &[u8; BLOCK_LEN])
        ensures { self.new ≡ record self.old { bytes = from.now; given = Some from.now } }
    {
        match self.held.open_write {
            OpenWrite::Newest => {}
            OpenWrite::Absent | OpenWrite::Unread => self.held.blocks.turn(),
        }
        self.held.blocks.set_bytes(from);
        self.held.open_write = OpenWrite::Newest;
    }

    /// A write was given these bytes, and a read finds the ones before. Where those are an open write's, they stay what a
    /// crash may leave, as the lane has no room for a third lot of bytes.
    fn hold(&mut self, from: &[u8; BLOCK_LEN])
        ensures rest { self.new ≡ record self.old { given = self.new.given } }
        ensures given { IsGivenAfterFault (Some false) self.old from.now self.new.given }
    {
        let is_newest = match self.held.open_write {
            OpenWrite::Absent => false,
            OpenWrite::Newest => true,
            OpenWrite::Unread => self.held.blocks.are_same(),
        };
        if !is_newest {
            self.held.blocks.set_other(from);
            self.held.open_write = OpenWrite::Unread;
        }
    }
}

impl<A: Allocator> Lane for MemLane<A> {
    ghost number_of = { λ lane. lane.number };

    ghost bytes_of = { λ lane. lane.bytes };

    ghost faults_of = { λ lane. lane.faults };

    ghost read_gives = { memory_read };

    ghost write_gives = { memory_write };

    ghost crash_leaves = { memory_leaves };

    ghost sync_gives = { memory_sync };

    fn number(&self) -> u32 {
        self.number
    }

    fn faults(&self) -> u64 {
        self.held.faults
    }

    /// Fails exactly where it was told to, and then counts one fault and forgets what it was told.
    fn read(&mut self, into: &mut [u8; BLOCK_LEN]) -> Result<(), DeviceFault>
        ensures fails { IsErr result ↔ IsTrue self.old.read_fault }
        ensures ok { OnOk result (self.new ≡ self.old) }
        ensures read { OnOk result (into.new ≡ self.old.bytes) }
        ensures err { OnErr result (self.new ≡ read_failed self.old) }
        ensures kept { OnErr result (into.new ≡ into.old) }
        ensures counts { OnErr result (CountsOne self.old.faults self.new.faults) }
    {
        self.fail_if_told()?;
        *into = *self.held.blocks.bytes();
        Ok(())
    }

    /// Fails where a read would, and else compares in place, so that nothing is copied where the bytes are the same.
    #[inline(always)]
    fn compare(
        &mut self,
        with: &[u8; BLOCK_LEN],
        other: &mut [u8; BLOCK_LEN],
    ) -> Result<bool, DeviceFault> {
        self.fail_if_told()?;
        let bytes = self.held.blocks.bytes();
        if bytes == with {
            return Ok(true);
        }
        *other = *bytes;
        Ok(false)
    }

    /// Fails exactly where it was told to, with the bytes that it was told to leave, and then counts one fault and forgets
    /// what it was told.
    #[inline(always)]
    fn write(&mut self, from: &[u8; BLOCK_LEN]) -> Result<(), DeviceFault>
        ensures fails { IsErr result ↔ IsSome self.old.write_fault }
        ensures ok { OnOk result (self.new ≡ record self.old { bytes = from.now; given = Some from.now }) }
        ensures err { OnErr result (self.new ≡ write_failed self.old from.now self.new.given) }
        ensures given { OnErr result (IsGivenAfterFault self.old.write_fault self.old from.now self.new.given) }
        ensures counts { OnErr result (CountsOne self.old.faults self.new.faults) }
    {
        match self.held.write_fault {
            None => {
                self.put(from);
                Ok(())
            }
            Some(new_bytes_stay) => {
                self.held.write_fault = None;
                self.held.faults = self.held.faults.wrapping_add(1);
                if new_bytes_stay {
                    self.put(from);
                } else {
                    self.hold(from);
                }
                Err(DeviceFault)
            }
        }
    }

    /// Fails exactly where it was told to, and then counts one fault and forgets what it was told.
    fn sync(&mut self) -> Result<(), DeviceFault>
        ensures fails { IsErr result ↔ IsTrue self.old.sync_fault }
        ensures ok { OnOk result (self.new ≡ synced self.old) }
        ensures err { OnErr result (self.new ≡ sync_failed self.old) }
        ensures counts { OnErr result (CountsOne self.old.faults self.new.faults) }
    {
        if self.held.sync_fault {
            self.held.sync_fault = false;
            self.held.faults = self.held.faults.wrapping_add(1);
            return Err(DeviceFault);
        }
        self.held.open_write = OpenWrite::Absent;
        Ok(())
    }
}

/// A disk in memory, as the bytes of its blocks one after another.
#[derive(Drop)]
pub struct MemDisk {
    bytes: Vec<u8>,
}

impl Model for MemDisk {
    ghost use Rattle.std.specs.Prelude.{◌≡◌, ◌<◌, ◌%◌, ◌*◌, ◌^◌, List, ℕ, length};

    ghost Value = { List ℕ };

    ghost view = { λ a. a.bytes.items };

    ghost invariant = { λ a. (length a.bytes.items % 512 ≡ 0) × (length a.bytes.items < 512 * 2 ^ 32) };
}

impl MemDisk {
    /// A disk of these bytes, which are whole blocks.
    pub fn new(alloc: Global, bytes: &[u8]) -> Result<MemDisk, AllocError>
        requires whole { length bytes.now % 512 ≡ 0 }
        requires small { length bytes.now < 512 * 2 ^ 32 }
        ensures { IfOk result (λ disk. disk ≡ bytes.now) }
    {
        let bytes = Vec::from_slice(alloc, bytes)?;
        Ok(MemDisk { bytes })
    }

    /// The bytes of the disk, block after block.
    pub fn bytes(&self) -> &[u8]
        ensures { result.now ≡ self.now }
    {
        self.bytes.as_slice()
    }

    /// A fresh lane for each block, all at home. `Err` gives the disk back and comes only for want of memory.
    pub fn split(self, alloc: Global) -> Result<Lanes<MemLane>, MemDisk>
        ensures ok { IfOk result (λ lanes. AreFreshLanes self lanes) }
        ensures holds { IfOk result (λ lanes. HoldsBytes (λ lane. lane.bytes) lanes self) }
        ensures err { IfErr result (λ disk. disk ≡ self) }
    {
        match fresh_lanes(alloc, &self.bytes) {
            Ok(lanes) => Ok(lanes),
            Err(_) => Err(self),
        }
    }

    /// The disk whose lanes these are. `Err` gives the lanes back: one is missing, or, where all are at home, there was no
    /// memory.
    pub fn join(alloc: Global, lanes: Lanes<MemLane>) -> Result<MemDisk, Lanes<MemLane>>
        ensures missing { Contains lanes None → IsErr result }
        ensures ok { IfOk result (λ disk. HoldsBytes (λ lane. lane.bytes) lanes disk) }
        ensures only { IfOk result (λ disk. (image : List ℕ) → HoldsBytes (λ lane. lane.bytes) lanes image → disk ≡ image) }
        ensures err { IfErr result (λ back. back ≡ lanes) }
    {
        match bytes_of_all(alloc, &lanes) {
            Some(bytes) => Ok(MemDisk { bytes }),
            None => Err(lanes),
        }
    }
}

/// A fresh lane for each block of these bytes, which are whole blocks, all at home. `Err` comes only for want of memory.
pub fn fresh_lanes(alloc: Global, image: &[u8]) -> Result<Lanes<MemLane>, AllocError>
    requires whole { length image.now % 512 ≡ 0 }
    requires small { length image.now < 512 * 2 ^ 32 }
    ensures { IfOk result (λ lanes. AreFreshLanes image.now lanes) }
{
    let blocks = (image.len() / BLOCK_LEN) as u32;
    let mut places = Vec::with_capacity(alloc, blocks as usize)?;
    for block in 0..blocks {
        let lane = MemLane::new(alloc, alloc, block, block_of(image, block))?;
        places.push_reserved(Some(lane));
    }
    Ok(Lanes::of_places(places))
}

/// How many blocks' bytes are given back at a time.
const GIVEN_BACK: usize = 64;

/// The same, where the bytes are not wanted any more: what the lanes stand in is taken from the memory of those that have their lanes already, as
/// memory that was used before costs less than new one. So it goes from the last block down. The memory of each lane's second lot of bytes is taken from
/// `rooms`.
pub fn lanes_from<A: Allocator + Copy>(
    alloc: Global,
    rooms: A,
    mut image: Vec<u8>,
) -> Result<Lanes<MemLane<A>>, AllocError>
    requires whole { length image.items % 512 ≡ 0 }
    requires small { length image.items < 512 * 2 ^ 32 }
    ensures { IfOk result (λ lanes. AreFreshLanes image.items lanes) }
{
    let blocks = (image.len() / BLOCK_LEN) as u32;
    let mut lanes = Lanes::new(alloc, blocks)?;
    for done in 0..blocks {
        let block = blocks - 1 - done;
        let lane = MemLane::new(alloc, rooms, block, block_of(&image, block))?;
        lanes.put(lane);
        give_back(&mut image, block as usize);
    }
    Ok(lanes)
}

/// Keeps the bytes of so many blocks, and gives memory back now and then.
fn give_back(image: &mut Vec<u8>, blocks: usize)
    requires { blocks < 2 ^ 32 }
    ensures { image.new.items ≡ take (512 * blocks) image.old.items }
{
    image.truncate(BLOCK_LEN * blocks);
    if blocks % GIVEN_BACK == 0 {
        image.shrink_to_fit();
    }
}

/// The bytes of all lanes, one after another, unless one is missing or there is no memory.
fn bytes_of_all(alloc: Global, lanes: &Lanes<MemLane>) -> Option<Vec<u8>>
    ensures some { IfSome result (λ bytes. HoldsBytes (λ lane. lane.bytes) lanes.now bytes.items) }
    ensures few { IfSome result (λ bytes. length bytes.items < 512 * 2 ^ 32) }
{
    let blocks = lanes.blocks();
    let mut bytes = Vec::with_capacity(alloc, BLOCK_LEN * blocks).ok()?;
    for block in 0..blocks {
        let lane = lanes.lane(block as u32)?;
        bytes.extend_from_slice(lane.bytes()).ok()?;
    }
    Some(bytes)
}

/// The bytes of one block of an image.
fn block_of(image: &[u8], block: u32) -> &[u8; BLOCK_LEN]
    requires { 512 * block + 512 ≤ length image.now }
    ensures { result.now ≡ block_of_image image.now block }
{
    let start = BLOCK_LEN * block as usize;
    match image[start..start + BLOCK_LEN].as_array() {
        Some(bytes) => bytes,
        None => unreachable!(),
    }
}
