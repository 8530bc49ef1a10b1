// A world.

ghost use Rattle.std.specs.Prelude.{◌≡◌, ◌≢◌, ℕ, ◌*◌, ◌<◌, List, All, length, map, None, IfOk, IfErr, OnOk, MatchResult, IsTrue, true, false};
ghost use Rattle.std.specs.Io.KnownBytes.{Appends};
ghost use Rattle.xn_model.specs.Images.{block_of, blocks_in, joined, IsSound};
ghost use Rattle.xn_model.specs.BareDisks.{mounted_disk};
ghost use Rattle.xn_model.specs.Worlds as model;
ghost use Rattle.xn_model.specs.Rules.{Holds, Agrees};
ghost use Rattle.xn_history.specs.Histories.{Histories};
ghost use Rattle.xn_history.specs.Moments.{RunWhere, Anything, IsMoment};
ghost use Rattle.xn_history.specs.Promises.{ImageHolds};
ghost use Rattle.image_model.specs.Walk.{head_fault};
ghost use Rattle.image_model.specs.Report.{IsSoundImage};
ghost use Rattle.crash_check.specs.Mounts.{state_of};
ghost use Rattle.ffs_model.specs.Cuts.{Choice, IsCut, IsCutImage, SameUnder, seen};
ghost use Rattle.ffs_model.specs.Events.{IsForeign};
ghost use Rattle.templates.specs.Templates.{IsTemplate};
ghost use Rattle.templates.specs.Formats.{formatted, format_fault, most_formatted, IsFormatFault};
ghost use Rattle.templates.specs.Language.{language, types_of_image};
ghost use Rattle.xn_kernel.specs.Kernels.{is_in_flight};
ghost use Rattle.xn_state.specs.Events.{event_of, reply_of, IsNoCrash};
ghost use Rattle.world.specs.Worlds.{is_any_in_flight, world_with, IsSoundDisk};
ghost use Rattle.world.specs.Opened.{IsHeldWhole, IsOpenFault};
ghost use Rattle.world.specs.WorldDisks.{disk_value, IsWorldDisk};

use crate::running::Running;
use crate::unmounted::{UnmountedDisk, is_whole};
use crash_check::{ImageFault, state_of};
use ffs_model::{events_keep_cuts, image_is_cut};
use std::alloc::{AllocError, Allocator, Global};
use std::io::Write;
use std::marker::Model;
use std::thread::Threads;
use std::{io, mem};
use store_types::{BLOCK_LEN, MAX_FORMAT_BLOCKS, Refusal};
use templates::{FormatFault, Template, format_image};
use xn_state::{Answer, EditId, Event, Landed, Reply, State, Stopped};

/// A disk in memory, its kernel, and the tickets of the writes that are under way. After a crash whose mount found no memory it
/// is down, and has no kernel. The second lots of its lanes' bytes have their memory from `A`.
pub struct World<A: Allocator = Global> {
    alloc: Global,
    disk: WorldDisk<A>,
}

/// The disk of a world, which is mounted or not.
#[derive(Drop)]
enum WorldDisk<A: Allocator> {
    Up(Running<A>),
    Down(UnmountedDisk<A>),
}

impl<A: Allocator> Model for World<A> {
    ghost use Rattle.world.specs.Worlds.{WorldValue};
    ghost use Rattle.world.specs.WorldDisks.{disk_value, IsWorldDisk};

    ghost Value = { WorldValue };

    ghost view = { λ a. disk_value a.disk };

    ghost invariant = { λ a. IsWorldDisk a.disk };
}

/// Written by hand, so that a function that drops one calls this: a derived drop is proved anew in each such function.
impl<A: Allocator> Drop for World<A> {
    fn drop(self) {
        let World { alloc: _, disk: _ } = self;
    }
}

impl World {
    /// A fresh disk of 32 to 32,768 blocks with at most 16 templates, whose types are 3 and those that follow, and its
    /// first mount. The faults come in the order `BadCount`, `TooManyTemplates`, `NoMemory`.
    pub fn format(
        rt: &(impl Threads + Sync),
        alloc: Global,
        blocks: u32,
        templates: &[Template],
    ) -> Result<World, FormatFault>
        ensures { MatchResult result
            (λ world. (format_fault blocks (length templates.now) ≡ None)
            × (world_with world ≡ mounted_disk language (formatted blocks templates.now)))
            (IsFormatFault blocks (length templates.now)) }
    {
        are_templates(templates);
        let image = format_image(alloc, blocks, templates)?;
        match World::open_image(rt, alloc, alloc, image) {
            Ok(world) => Ok(world),
            Err(fault) => Err(want_of_memory(fault)),
        }
    }

    /// The disk of an image, and its first mount, under the types of the image's own catalogue. `Err` has the image's first
    /// fault, as a check tells it, `BadLength` for one of more than 32,768 blocks too, or comes for want of memory: only where the image's
    /// length, mark and count are right.
    pub fn open(
        rt: &(impl Threads + Sync),
        alloc: Global,
        image: &[u8],
    ) -> Result<World, ImageFault>
        ensures ok { IfOk result (λ world. IsSoundImage (types_of_image (blocks_in image.now)) image.now
            × (world_with world ≡ mounted_disk language (blocks_in image.now))) }
        ensures held { OnOk result (IsHeldWhole image.now) }
        ensures err { IfErr result (IsOpenFault image.now) }
        ensures head_first { IfErr result (λ fault. fault ≡ ImageFault.NoMemory → head_fault image.now ≡ None) }
    {
        is_held_whole(image)?;
        let state = state_of(rt, alloc, image)?;
        match Vec::from_slice(alloc, image) {
            Ok(image) => World::known(alloc, alloc, image, state),
            Err(_) => Err(ImageFault::NoMemory),
        }
    }
}

impl<A: Allocator + Copy> World<A> {
    /// The disk of an image as `open` has it, where its bytes are not wanted any more: the disk takes their memory over. The memory of each
    /// lane's second lot of bytes is taken from `rooms`. It is asked for at once, since no write may want any, and first used by a write:
    /// from an allocator that keeps nothing beside what it gives, blocks that are never written take no page for it.
    pub fn open_image(
        rt: &(impl Threads + Sync),
        alloc: Global,
        rooms: A,
        image: Vec<u8>,
    ) -> Result<World<A>, ImageFault>
        ensures ok { IfOk result (λ world. IsSoundImage (types_of_image (blocks_in image.items)) image.items
            × (world_with world ≡ mounted_disk language (blocks_in image.items))) }
        ensures held { OnOk result (IsHeldWhole image.items) }
        ensures err { IfErr result (IsOpenFault image.items) }
        ensures head_first { IfErr result (λ fault. fault ≡ ImageFault.NoMemory → head_fault image.items ≡ None) }
    {
        is_held_whole(&image)?;
        let state = state_of(rt, alloc, &image)?;
        World::known(alloc, rooms, image, state)
    }

    /// The disk of a sound image, mounted with what is known of its blocks.
    fn known(alloc: Global, rooms: A, image: Vec<u8>, state: State) -> Result<World<A>, ImageFault>
        requires sound { IsSoundImage (types_of_image (blocks_in image.items)) image.items }
        requires state { state ≡ state_of (blocks_in image.items) }
        ensures ok { IfOk result (λ world. world_with world ≡ mounted_disk language (blocks_in image.items)) }
        ensures err { IfErr result (λ fault. fault ≡ ImageFault.NoMemory) }
    {
        match UnmountedDisk::of_image(alloc, rooms, image) {
            Ok(disk) => Ok(World::up(disk.mount_known(alloc, state))),
            Err(_) => Err(ImageFault::NoMemory),
        }
    }
}

impl<A: Allocator> World<A> {
    /// One event. The reply and the world after it are a step of the model; and each block that the
    /// root reaches in an image that a crash may leave holds a state of its life, from the durable to the begun one, and has
    /// one owner. After any event but a crash, or an edit by a file system, each cut of the lives reaches from that file system's
    /// root slot the same blocks and bytes as some cut before; and so does each such image, as some cut now.
    #[inline(always)]
    pub fn step(&mut self, rt: &(impl Threads + Sync), event: &Event) -> Reply
        ensures step { model.Step (world_with self.old) (event_of event.now) (reply_of result) (world_with self.new) }
        ensures rules { Holds (world_with self.new) }
        ensures agrees { (image : List (List ℕ)) → model.MayLeave (world_with self.new) image →
            Agrees (model.types_on (world_with self.new) image) (length image) (block_of image) self.new.state.lives }
        ensures cuts { (fs : ℕ) → fs < 32 → IsForeign fs (event_of event.now) → (k : Choice) → IsCut self.new.state.lives k →
            (j : Choice) × IsCut self.old.state.lives j
            × SameUnder (model.types_now (world_with self.old)) (seen self.new.state.lives k) (seen self.old.state.lives j) fs
            × SameUnder (model.types_now (world_with self.new)) (seen self.new.state.lives k) (seen self.old.state.lives j) fs }
        ensures images { (image : List (List ℕ)) → model.MayLeave (world_with self.new) image → (fs : ℕ) → fs < 32 →
            (k : Choice) × IsCut self.new.state.lives k × IsCutImage self.new.state.lives k (block_of image) ×
            SameUnder (model.types_now (world_with self.new)) (seen self.new.state.lives k) (block_of image) fs }
    {
        let mut reply = Reply::Down;
        self.step_into(rt, event, &mut reply);
        reply
    }

    /// One event, as `step` takes it, with its reply left in `reply`. A reply has room for a block, and this one is not copied.
    #[inline(always)]
    pub fn step_into(&mut self, rt: &(impl Threads + Sync), event: &Event, reply: &mut Reply)
        ensures step { model.Step (world_with self.old) (event_of event.now) (reply_of reply.new) (world_with self.new) }
        ensures rules { Holds (world_with self.new) }
        ensures agrees { (image : List (List ℕ)) → model.MayLeave (world_with self.new) image →
            Agrees (model.types_on (world_with self.new) image) (length image) (block_of image) self.new.state.lives }
        ensures cuts { (fs : ℕ) → fs < 32 → IsForeign fs (event_of event.now) → (k : Choice) → IsCut self.new.state.lives k →
            (j : Choice) × IsCut self.old.state.lives j
            × SameUnder (model.types_now (world_with self.old)) (seen self.new.state.lives k) (seen self.old.state.lives j) fs
            × SameUnder (model.types_now (world_with self.new)) (seen self.new.state.lives k) (seen self.old.state.lives j) fs }
        ensures images { (image : List (List ℕ)) → model.MayLeave (world_with self.new) image → (fs : ℕ) → fs < 32 →
            (k : Choice) × IsCut self.new.state.lives k × IsCutImage self.new.state.lives k (block_of image) ×
            SameUnder (model.types_now (world_with self.new)) (seen self.new.state.lives k) (block_of image) fs }
    {
        self.rules();
        is_event(event);
        events_keep_cuts();
        image_is_cut();
        self.take(rt, event, reply);
        self.rules();
    }

    /// Events in their order, and their replies. After all of them the rules hold, each image that a crash may leave is sound, and
    /// each block that the root reaches in it holds a state of its life, from the durable to the begun
    /// one, and has one owner. No block misses what the replies told durable of its present life. `Err` comes before the first event.
    pub fn run(
        &mut self,
        rt: &(impl Threads + Sync),
        events: &[Event],
    ) -> Result<Vec<Reply>, AllocError>
        ensures run { IfOk result (λ replies. model.Run (world_with self.old) (map event_of events.now) (map reply_of replies.items) (world_with self.new)) }
        ensures kept { IfErr result (λ error. self.new ≡ self.old) }
        ensures rules { Holds (world_with self.new) }
        ensures agrees { (image : List (List ℕ)) → model.MayLeave (world_with self.new) image →
            Agrees (model.types_on (world_with self.new) image) (length image) (block_of image) self.new.state.lives }
        ensures sound { (image : List (List ℕ)) → model.MayLeave (world_with self.new) image →
            IsSound (model.types_on (world_with self.new) image) (length image) (block_of image) }
        ensures told { IfOk result (λ replies. (hs : Histories) → IsMoment (world_with self.old) hs → (hs' : Histories) × IsMoment (world_with self.new) hs' ×
            RunWhere Anything (world_with self.old) hs (map event_of events.now) (map reply_of replies.items) (world_with self.new) hs' ×
            ((image : List (List ℕ)) → model.MayLeave (world_with self.new) image → ImageHolds (world_with self.new) image hs')) }
    {
        self.rules();
        are_events(events);
        // The prover looks for the types within a reply among those that this function names.
        let _types: Option<(Answer, EditId, Landed, Refusal, Stopped)> = None;
        let mut replies = Vec::with_capacity(self.alloc(), events.len())?;
        for at in 0..events.len() {
            let reply = self.step(rt, &events[at]);
            replies.push_reserved(reply);
        }
        Ok(replies)
    }

    /// The bytes that the disk holds now, block after block, also while the world is down.
    pub fn image(&self) -> Result<Vec<u8>, AllocError>
        ensures { IfOk result (λ image. image.items ≡ joined self.now.image) }
    {
        self.image_into(Vec::new(self.alloc))
    }

    /// The same, in the memory of these bytes where that is enough: memory that was used before costs less than new one.
    pub fn image_into(&self, room: Vec<u8>) -> Result<Vec<u8>, AllocError>
        ensures { IfOk result (λ image. image.items ≡ joined self.now.image) }
    {
        match &self.disk {
            WorldDisk::Up(running) => running.image_into(room),
            WorldDisk::Down(disk) => disk.image_into(room),
        }
    }

    /// Writes the bytes that the disk holds, block after block, also while the world is down. The world is given up for them: an `Err` of `out`, or for
    /// want of memory, may come behind some of them.
    pub fn write_to<W: Write>(self, out: &mut W) -> io::Result<()>
        ensures { OnOk result (Appends (W.contents out.old) (W.contents out.new) (joined self.image)) }
    {
        let World { alloc, disk } = self;
        match disk {
            WorldDisk::Up(running) => running.write_to(out),
            WorldDisk::Down(disk) => disk.write_to(alloc, out),
        }
    }

    /// Whether a write of the block is under way. While the world is down there is none.
    pub fn is_in_flight(&self, block: u32) -> bool
        ensures flight { result ≡ is_in_flight self.now.state block }
        ensures up { IsTrue result → self.now.down ≡ false }
    {
        match &self.disk {
            WorldDisk::Up(running) => {
                running.is_up();
                running.kernel().state().is_in_flight(block)
            }
            WorldDisk::Down(_) => false,
        }
    }

    /// Whether a write of some block is under way. While the world is down there is none.
    pub fn is_any_in_flight(&self) -> bool
        ensures { result ≡ is_any_in_flight self.now.state }
    {
        match &self.disk {
            WorldDisk::Up(running) => running.kernel().state().is_any_in_flight(),
            WorldDisk::Down(_) => false,
        }
    }

    /// Whether the last crash's mount found no memory.
    pub fn is_down(&self) -> bool
        ensures { result ≡ self.now.down }
    {
        match &self.disk {
            WorldDisk::Up(running) => {
                running.is_up();
                false
            }
            WorldDisk::Down(_) => true,
        }
    }

    /// The world that is up so.
    pub fn up(running: Running<A>) -> World<A>
        ensures { result ≡ running }
    {
        World {
            alloc: running.alloc,
            disk: WorldDisk::Up(running),
        }
    }

    /// The world as a store, for as long as no crash comes. `Err` gives it back, and comes only while it is down.
    pub fn into_running(self) -> Result<Running<A>, World<A>>
        ensures ok { IfOk result (λ running. (running ≡ self) × (running.down ≡ false)) }
        ensures err { IfErr result (λ back. (back ≡ self) × (back.down ≡ true)) }
    {
        let World { alloc, disk } = self;
        match disk {
            WorldDisk::Up(running) => {
                running.is_up();
                Ok(running)
            }
            WorldDisk::Down(disk) => Err(World {
                alloc,
                disk: WorldDisk::Down(disk),
            }),
        }
    }

    /// One event.
    #[inline(always)]
    fn take(&mut self, rt: &(impl Threads + Sync), event: &Event, reply: &mut Reply)
        ensures { model.Step (world_with self.old) (event_of event.now) (reply_of reply.new) (world_with self.new) }
    {
        match event {
            Event::Crash(kept) => self.crash_into(rt, kept, reply),
            Event::Call(_, _)
            | Event::Install(_)
            | Event::Begin(_)
            | Event::Land(_)
            | Event::Fail(_, _)
            | Event::Sync(_)
            | Event::FailSync(_)
            | Event::Finish(_) => self.go_on(event, reply),
        }
    }

    /// One event, any but a crash.
    #[inline(always)]
    fn go_on(&mut self, event: &Event, reply: &mut Reply)
        requires { IsNoCrash event.now }
        ensures { model.Step (world_with self.old) (event_of event.now) (reply_of reply.new) (world_with self.new) }
    {
        match &mut self.disk {
            WorldDisk::Up(running) => running.step_into(event, reply),
            WorldDisk::Down(_) => *reply = Reply::Down,
        }
    }

    /// The kernel is dropped, all lanes are put back, the disk crashes, which keeps the open writes of these blocks and no others, and
    /// is mounted anew. Where the mount finds no memory the world is down.
    fn crash(&mut self, rt: &(impl Threads + Sync), kept: &[u32]) -> Reply
        ensures { model.AfterCrash (world_with self.old) kept.now (reply_of result) (world_with self.new) }
    {
        let none = WorldDisk::Down(UnmountedDisk::none(self.alloc));
        let disk = mem::replace(&mut self.disk, none).left(kept);
        match disk.mount(rt, self.alloc) {
            Ok(running) => {
                let reply = running.counts();
                self.disk = WorldDisk::Up(running);
                reply
            }
            Err((ImageFault::NoMemory, disk)) => {
                self.disk = WorldDisk::Down(disk);
                Reply::Down
            }
            Err(_) => unreachable!(),
        }
    }

    /// The same, with the reply left in `reply`. It is not inlined, so that no other event clears the room of a reply for it.
    #[inline(never)]
    fn crash_into(&mut self, rt: &(impl Threads + Sync), kept: &[u32], reply: &mut Reply)
        ensures { model.AfterCrash (world_with self.old) kept.now (reply_of reply.new) (world_with self.new) }
    {
        *reply = self.crash(rt, kept);
    }

    /// The rules hold of every world. This does nothing.
    pub fn rules(&self)
        ensures { Holds (world_with self.now) }
    {
        match &self.disk {
            WorldDisk::Up(running) => running.rules(),
            WorldDisk::Down(_) => {}
        }
    }

    /// What its calls take their memory from.
    fn alloc(&self) -> Global {
        self.alloc
    }
}

impl<A: Allocator> WorldDisk<A> {
    /// What a crash leaves of the disk that keeps the open writes of these blocks and no others: all lanes are at home, with no open write.
    fn left(self, kept: &[u32]) -> UnmountedDisk<A>
        requires { IsWorldDisk self }
        ensures image { result ≡ model.left (world_with (disk_value self)) kept.now }
        ensures sound { IsSoundDisk result }
    {
        match self {
            WorldDisk::Up(running) => {
                running.rules();
                running.unmount(kept)
            }
            WorldDisk::Down(disk) => disk,
        }
    }
}

/// An image has no more blocks than a world holds.
fn is_held_whole(image: &[u8]) -> Result<(), ImageFault>
    ensures held { OnOk result (IsHeldWhole image.now) }
    ensures err { IfErr result (λ fault. (512 * most_formatted < length image.now) × (fault ≡ ImageFault.BadLength)) }
{
    if image.len() > BLOCK_LEN * MAX_FORMAT_BLOCKS as usize {
        return Err(ImageFault::BadLength);
    }
    Ok(())
}

/// The one fault of an image that is sound.
fn want_of_memory(_fault: ImageFault) -> FormatFault
    requires { _fault ≡ ImageFault.NoMemory }
    ensures { result ≡ FormatFault.NoMemory }
{
    FormatFault::NoMemory
}

/// Each template is one.
fn are_templates(templates: &[Template])
    ensures { All IsTemplate templates.now }
{
    for at in 0..templates.len() {
        let _owns = templates[at].owns();
    }
}

/// An event's template is a block.
fn is_event(event: &Event)
    ensures { model.IsEvent (event_of event.now) }
{
    if let Event::Install(template) = event {
        is_whole(template);
    }
}

/// Each event is one.
fn are_events(events: &[Event])
    ensures { All (λ e. model.IsEvent (event_of e)) events.now }
{
    for at in 0..events.len() {
        is_event(&events[at]);
    }
}
