// How the calls were answered, and what was met.

use crash_check::ImageFault;
use xn_kernel::Refusal;

/// What is called.
#[derive(Clone, Copy)]
pub enum Kind {
    Init,
    MakeRoot,
    DropRoot,
    Propose,
    Forget,
    Begin,
    Finish,
    Drain,
    Install,
}

impl Kind {
    /// Whether a call of this kind may ask for memory.
    fn takes_memory(self) -> bool {
        match self {
            Kind::Init | Kind::MakeRoot | Kind::DropRoot | Kind::Propose | Kind::Install => true,
            Kind::Forget | Kind::Begin | Kind::Finish | Kind::Drain => false,
        }
    }
}

/// The names of the kinds, in their order.
pub static KINDS: [&str; 9] = [
    "init",
    "make_root",
    "drop_root",
    "propose",
    "forget",
    "begin",
    "finish",
    "drain",
    "install",
];

/// What is counted beside the calls.
#[derive(Clone, Copy)]
pub enum Met {
    /// Installations that were refused since 16 templates were there, since 64 entries of block 0 were pending, since no block was free, and
    /// since the bytes were no template's.
    NoSlot,
    TooMany,
    NoSpace,
    Bad,
    /// Calls that were refused with BadType.
    Untyped,
    /// How often a block that was asked for had an entry that waits for a type, and not for the block that it adds.
    Awaiting,
    /// Disks that were formatted.
    Disks,
    /// Types that crashes took, and those that they kept and that were pending.
    TypesTaken,
    TypesKept,
    /// Entries that were pending at once, at most.
    MostPending,
    /// How often a block that was asked for had an entry that isn't safe.
    Tainted,
    /// Edits that were refused because they would close a cycle.
    Cycles,
    /// Blocks that own others and were attached to another block, and those that became roots.
    Trees,
    Rooted,
    /// Owners that a block had above it, at most.
    MostOwners,
    /// Entries that finished writes made durable, and blocks that were free by them.
    Durable,
    Freed,
    /// Syncs of tickets that answered well, and those that failed.
    Synced,
    Unsynced,
    /// Finishes that were refused with NotSynced.
    TooEarly,
    /// Crashes, and mounts that failed since a lane could not be synced.
    Crashes,
    Unmounted,
    /// Open writes that crashes kept and lost, and those that they kept and a read had not found.
    Kept,
    Lost,
    Unread,
    /// Blocks that the mounts after crashes reached, and those that they left free.
    Reached,
    Left,
    /// Answers that were compared with a scan's, and those that were others.
    Compared,
    Wrong,
    /// Groups of places that came to have a block in use, and those that came to have none.
    Made,
    Ended,
    /// Calls and mounts that found no memory.
    Lacking,
}

/// What was met as it is printed: each count with the text before it.
pub static REPORT: [(&str, Met); 29] = [
    ("at most ", Met::MostPending),
    (" entries pending, ", Met::Tainted),
    (
        " times a block with an entry that isn't safe\n",
        Met::Cycles,
    ),
    (" edits refused with Cycle, at most ", Met::MostOwners),
    (
        " owners above a block\nof the blocks that own others ",
        Met::Trees,
    ),
    (" were attached to a block, and ", Met::Rooted),
    (" became roots\nwrites made ", Met::Durable),
    (" entries durable, and ", Met::Freed),
    (" blocks free\ninstall refused: NoSlot ", Met::NoSlot),
    (" TooManyPending ", Met::TooMany),
    (" NoSpace ", Met::NoSpace),
    (" BadTemplate ", Met::Bad),
    ("\n", Met::Untyped),
    (" calls refused with BadType, ", Met::Awaiting),
    (
        " times a block with an entry that waits for a type\n",
        Met::Disks,
    ),
    (" disks formatted; the crashes took ", Met::TypesTaken),
    (" types, and kept ", Met::TypesKept),
    (" that were pending\nsync ", Met::Synced),
    (" failed ", Met::Unsynced),
    (", ", Met::TooEarly),
    (" finishes refused with NotSynced\n", Met::Crashes),
    (" crashes, ", Met::Unmounted),
    (" mounts failed by a sync\nopen writes: ", Met::Kept),
    (" kept, ", Met::Unread),
    (" of them never read, ", Met::Lost),
    (" lost\nthe mounts reached ", Met::Reached),
    (" blocks, and left ", Met::Left),
    (" free\ncompared ", Met::Compared),
    (" answers, ", Met::Wrong),
];

/// The same of the calls on the disk whose groups come and go.
pub static SEASONS_REPORT: [(&str, Met); 7] = [
    ("on 320 blocks ", Met::Made),
    (" groups came to be in use, and ", Met::Ended),
    (" to be in use no more; ", Met::Crashes),
    (" crashes, the mounts reached ", Met::Reached),
    (" blocks; ", Met::Lacking),
    (" calls found no memory\ncompared ", Met::Compared),
    (" answers, ", Met::Wrong),
];

/// Of each kind how many calls were made, and how many of them were accepted; what was met; a hash of all answers.
#[derive(Drop)]
pub struct Tally {
    pub made: [u32; 9],
    pub accepted: [u32; 9],
    pub met: [u32; 32],
    pub hash: u64,
    /// Whether a call that takes memory may find none.
    pub may_lack: bool,
}

/// Why an installation was refused.
pub fn uninstalled(refusal: Refusal) -> Met {
    match refusal {
        Refusal::NoSlot => Met::NoSlot,
        Refusal::TooManyPending => Met::TooMany,
        Refusal::NoSpace => Met::NoSpace,
        _ => Met::Bad,
    }
}

/// One more where there is such a count.
fn add_one(counts: &mut [u32], at: usize) {
    if let Some(count) = counts.get_mut(at) {
        *count = count.saturating_add(1);
    }
}

impl Tally {
    /// Before the first call.
    pub fn new() -> Tally {
        Tally {
            made: [0; 9],
            accepted: [0; 9],
            met: [0; 32],
            hash: 0xcbf29ce484222325,
            may_lack: false,
        }
    }

    /// How much was met.
    pub fn of(&self, what: Met) -> u32 {
        match self.met.get(what as usize) {
            Some(count) => *count,
            None => 0,
        }
    }

    /// Takes that so much more was met.
    pub fn add(&mut self, what: Met, more: u32) {
        if let Some(count) = self.met.get_mut(what as usize) {
            *count = count.saturating_add(more);
        }
    }

    /// Takes that so much was met at once.
    pub fn raise(&mut self, what: Met, most: u32) {
        if let Some(count) = self.met.get_mut(what as usize) {
            *count = most.max(*count);
        }
    }

    fn note(&mut self, answer: u64) {
        self.hash = (self.hash ^ answer).wrapping_mul(0x100000001b3);
    }

    /// Takes what a call answered, as two numbers or as a refusal, and what a scan says.
    pub fn take(
        &mut self,
        kind: Kind,
        answer: Result<(u32, u64), Refusal>,
        wanted: Result<(u32, u64), Refusal>,
    ) {
        if self.may_lack && kind.takes_memory() && answer == Err(Refusal::NoMemory) {
            return self.add(Met::Lacking, 1);
        }
        self.check(answer == wanted);
        add_one(&mut self.made, kind as usize);
        let (first, second) = match answer {
            Ok((first, second)) => {
                add_one(&mut self.accepted, kind as usize);
                (u64::from(first), second)
            }
            Err(refusal) => {
                match refusal {
                    Refusal::Cycle => self.add(Met::Cycles, 1),
                    Refusal::BadType => self.add(Met::Untyped, 1),
                    Refusal::NotSynced => self.add(Met::TooEarly, 1),
                    _ => {}
                }
                (u64::MAX, refusal as u64)
            }
        };
        self.note(first);
        self.note(second);
    }

    /// Takes whether an answer is a scan's.
    pub fn check(&mut self, is_same: bool) {
        self.add(Met::Compared, 1);
        if !is_same {
            self.add(Met::Wrong, 1);
        }
    }

    /// Takes why a mount failed of which a lane could not be synced.
    pub fn check_fault(&mut self, fault: ImageFault) {
        if self.may_lack && fault == ImageFault::NoMemory {
            return self.add(Met::Lacking, 1);
        }
        self.check(fault == ImageFault::Device);
    }

    /// Takes the answer to a question, and what a scan says.
    pub fn ask(&mut self, answer: u64, wanted: u64) {
        self.note(answer);
        self.check(answer == wanted);
    }
}
