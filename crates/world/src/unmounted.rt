// A disk that is not mounted.

ghost use Rattle.std.specs.Prelude.{◌≡◌, ◌≢◌, ◌⊎◌, ◌*◌, ◌%◌, ◌^◌, ◌<◌, List, All, length, replicate, Some, None, Err, IfOk, IfErr, IfSome, OnOk, slice_get};
ghost use Rattle.std.specs.Prelude.{slice_set, option_map, []};
ghost use Rattle.std.specs.List.{AllByRecursion};
ghost use Rattle.std.specs.Io.KnownBytes.{Appends};
ghost use Rattle.xn_model.specs.Images.{block_of, blocks_in, joined, IsSound};
ghost use Rattle.image_model.specs.Walk.{verdict};
ghost use Rattle.templates.specs.Language.{types_of_image};
ghost use Rattle.crash_check.specs.Mounts.{state_of};
ghost use Rattle.disk.specs.Mem.{crashed_lane};
ghost use Rattle.world.specs.Disks.{image_of, settled_image, given_to, lane_at, lanes_with, AreLong, AreWhole, HaveCrashed, IsLaneHome, IsLong, IsUnmounted};
ghost use Rattle.world.specs.Worlds.{mounted_value};

use crate::running::Running;
use crate::ticket::DroppableTicket;
use crate::tickets::Tickets;
use crash_check::{ImageFault, mount};
use disk::{Lanes, MemLane, lanes_from};
use std::alloc::{AllocError, Allocator, Global};
use std::io;
use std::io::Write;
use std::marker::Model;
use std::thread::Threads;
use store_types::BLOCK_LEN;
use xn_kernel::Kernel;
use xn_state::State;

/// The number of each kernel of a world. It has one at a time, and a crash takes its tickets with it, so that no other is needed.
const KERNEL: u64 = 1;

/// A disk in memory whose lanes are all at home, and the empty places of its tickets.
pub struct UnmountedDisk<A: Allocator> {
    lanes: Lanes<MemLane<A>>,
    tickets: Tickets<A>,
}

impl<A: Allocator> Model for UnmountedDisk<A> {
    ghost use Rattle.std.specs.Prelude.{List, ℕ};
    ghost use Rattle.world.specs.Disks.{image_of, IsUnmounted};

    ghost Value = { List (List ℕ) };

    ghost view = { λ a. image_of a.lanes a.tickets };

    ghost invariant = { λ a. IsUnmounted a.lanes a.tickets };
}

/// Written by hand, so that a function that drops one calls this: a derived drop is proved anew in each such function.
impl<A: Allocator> Drop for UnmountedDisk<A> {
    fn drop(self) {
        let UnmountedDisk {
            lanes: _,
            tickets: _,
        } = self;
    }
}

impl<A: Allocator> UnmountedDisk<A> {
    /// The disk of these lanes.
    pub fn new(lanes: Lanes<MemLane<A>>, tickets: Tickets<A>) -> UnmountedDisk<A>
        requires { IsUnmounted lanes tickets }
        ensures { result ≡ image_of lanes tickets }
    {
        UnmountedDisk { lanes, tickets }
    }

    /// A disk without blocks.
    pub fn none(alloc: Global) -> UnmountedDisk<A>
        ensures { result ≡ [] }
    {
        UnmountedDisk::new(Lanes::none(alloc), Tickets::none(alloc))
    }

    /// Mounts the disk. `Err` has the first fault and gives the disk back; of a sound disk it
    /// comes only for want of memory.
    pub fn mount(
        self,
        rt: &(impl Threads + Sync),
        alloc: Global,
    ) -> Result<Running<A>, (ImageFault, UnmountedDisk<A>)>
        ensures ok { IfOk result (λ disk. disk ≡ mounted_value self) }
        ensures sound { IfOk result (λ disk. IsSound (types_of_image self) (length self) (block_of self)) }
        ensures back { IfErr result (λ back. back.1 ≡ self) }
        ensures fault { IfErr result (λ back. (back.0 ≡ ImageFault.NoMemory) ⊎ (verdict (types_of_image self) (joined self) ≡ Err back.0)) }
        ensures memory { IfErr result (λ back. IsSound (types_of_image self) (length self) (block_of self) → back.0 ≡ ImageFault.NoMemory) }
    {
        let UnmountedDisk { lanes, tickets } = self;
        match mount(rt, alloc, lanes, KERNEL) {
            Ok(kernel) => Ok(Running::new(alloc, kernel, tickets)),
            Err((fault, lanes)) => Err((fault, UnmountedDisk::new(lanes, tickets))),
        }
    }

    /// Mounts the disk, which is sound and of which all is known: no lane is read.
    pub fn mount_known(self, alloc: Global, state: State) -> Running<A>
        requires sound { IsSound (types_of_image self) (length self) (block_of self) }
        requires known { state ≡ state_of self }
        ensures { result ≡ mounted_value self }
    {
        let UnmountedDisk { lanes, tickets } = self;
        let kernel = Kernel::over(KERNEL, lanes, state);
        Running::new(alloc, kernel, tickets)
    }

    /// The bytes that the disk holds now, block after block, in the memory of these where that is enough.
    pub fn image_into(&self, room: Vec<u8>) -> Result<Vec<u8>, AllocError>
        ensures { IfOk result (λ image. image.items ≡ joined self.now) }
    {
        let blocks = self.blocks();
        let mut image = room;
        image.clear();
        image.reserve_exact(BLOCK_LEN.saturating_mul(blocks as usize))?;
        for block in 0..blocks {
            image.extend_from_slice(self.block_bytes(block))?;
        }
        Ok(image)
    }

    /// Writes the bytes that the disk holds, block after block. The disk is given up for them.
    pub fn write_to<W: Write>(self, alloc: Global, out: &mut W) -> io::Result<()>
        ensures { OnOk result (Appends (W.contents out.old) (W.contents out.new) (joined self)) }
    {
        let UnmountedDisk { lanes, tickets: _ } = self;
        write_lanes(alloc, lanes, out)
    }

    /// How many blocks the disk has.
    fn blocks(&self) -> u32
        ensures { result ≡ length self.now }
    {
        self.lanes.blocks() as u32
    }

    /// The bytes of one block.
    fn block_bytes(&self, block: u32) -> &[u8; BLOCK_LEN]
        requires { block < length self.now }
        ensures { result.now ≡ block_of self.now block }
    {
        match self.lanes.lane(block) {
            Some(lane) => lane.bytes(),
            None => unreachable!(),
        }
    }
}

impl<A: Allocator + Copy> UnmountedDisk<A> {
    /// The disk of an image, which is whole blocks, with a place for the ticket of each block. The memory of each lane's second lot of bytes is taken
    /// from `rooms`.
    pub fn of_image(alloc: Global, rooms: A, image: Vec<u8>) -> Result<UnmountedDisk<A>, AllocError>
        requires whole { length image.items % 512 ≡ 0 }
        requires small { length image.items < 512 * 2 ^ 32 }
        ensures { IfOk result (λ disk. disk ≡ blocks_in image.items) }
    {
        let lanes = lanes_from(alloc, rooms, image)?;
        let tickets = Tickets::new(alloc, lanes.blocks())?;
        Ok(UnmountedDisk::new(lanes, tickets))
    }
}

/// How many bytes are written at a time.
const PIECE_LEN: usize = 128 * BLOCK_LEN;

/// Writes the bytes of all lanes, block after block. Each lane is dropped as soon as its bytes are copied, while what it stands in is in the
/// processor's memory.
pub fn write_lanes<A: Allocator, W: Write>(
    alloc: Global,
    mut lanes: Lanes<MemLane<A>>,
    out: &mut W,
) -> io::Result<()>
    requires { AllByRecursion IsLaneHome lanes }
    ensures { OnOk result (Appends (W.contents out.old) (W.contents out.new) (joined (image_of lanes (replicate (length lanes) None)))) }
{
    let mut piece = Vec::with_capacity(alloc, PIECE_LEN)?;
    for block in 0..lanes.blocks() as u32 {
        let lane = take_home(&mut lanes, block);
        piece.extend_from_slice(lane.bytes())?;
        if piece.len() >= PIECE_LEN {
            out.write_all(&piece)?;
            piece.clear();
        }
    }
    out.write_all(&piece)
}

/// Takes the lane of a block, which is at home.
fn take_home<A: Allocator>(lanes: &mut Lanes<MemLane<A>>, block: u32) -> MemLane<A>
    requires home { slice_get lanes.old block ≢ Some None }
    requires within { block < length lanes.old }
    ensures lane { slice_get lanes.old block ≡ Some (Some result) }
    ensures rest { lanes.new ≡ slice_set lanes.old block None }
{
    match lanes.take(block) {
        Some(lane) => lane,
        None => unreachable!(),
    }
}

/// Puts the lane of each ticket back in its place.
pub fn take_lanes_back<A: Allocator>(lanes: &mut Lanes<MemLane<A>>, tickets: &mut Tickets<A>)
    requires { AreWhole lanes.old tickets.old }
    ensures home { AllByRecursion IsLaneHome lanes.new }
    ensures empty { tickets.new ≡ replicate (length lanes.new) None }
    ensures image { image_of lanes.new tickets.new ≡ image_of lanes.old tickets.old }
    ensures settled { settled_image lanes.new tickets.new ≡ settled_image lanes.old tickets.old }
    ensures given { given_to lanes.new tickets.new ≡ given_to lanes.old tickets.old }
{
    for block in 0..lanes.blocks() as u32 {
        let ticket = tickets.take(block);
        give_back(lanes, ticket);
    }
}

/// Each lane crashes: the open writes of these blocks are kept, and no others.
pub fn crash_lanes<A: Allocator>(lanes: &mut Lanes<MemLane<A>>, kept: &[u32])
    ensures crashed { HaveCrashed kept.now lanes.old lanes.new }
    ensures long { AreLong lanes.new }
{
    for block in 0..lanes.blocks() as u32 {
        crash_lane(lanes, block, kept.contains(&block));
    }
}

/// The lane of a block crashes.
fn crash_lane<A: Allocator>(lanes: &mut Lanes<MemLane<A>>, block: u32, kept: bool)
    requires { block < length lanes.old }
    ensures crashed { lanes.new ≡ slice_set lanes.old block (option_map (λ lane. crashed_lane lane kept) (lane_at lanes.old block)) }
    ensures long { IsLong (lane_at lanes.new block) }
{
    match lanes.take(block) {
        None => {}
        Some(mut lane) => {
            lane.crash(kept);
            is_whole(lane.bytes());
            match lanes.give(lane) {
                Ok(()) => {}
                Err(_lane) => unreachable!(),
            }
        }
    }
}

/// A block has 512 bytes.
pub fn is_whole(bytes: &[u8; BLOCK_LEN])
    ensures { length bytes.now ≡ 512 }
{
    let _length = bytes.len();
}

/// Puts a ticket's lane back in its place.
fn give_back<A: Allocator>(lanes: &mut Lanes<MemLane<A>>, ticket: Option<DroppableTicket<A>>)
    requires { IfSome ticket (λ t. slice_get lanes.old t.block ≡ Some None) }
    ensures { lanes.new ≡ lanes_with lanes.old ticket }
{
    match ticket {
        None => {}
        Some(ticket) => match lanes.give(ticket.into_lane()) {
            Ok(()) => {}
            Err(_lane) => unreachable!(),
        },
    }
}
