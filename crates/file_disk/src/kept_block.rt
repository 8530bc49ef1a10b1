// What a lane keeps of its block, and what may change it.
ghost use Rattle.std.specs.Prelude.{◌≡◌, ◌≤◌, false, IfOk, ℕ, List, [], ◌∷◌};
ghost use Rattle.std.specs.Borrow.{ftrue};
ghost use Rattle.file_disk.specs.File.{KeptBytes, OpenWriteBytes, fresh_kept, with_found, with_given, with_settled};

use crate::found_block::FoundBlock;
use crate::shared_file::GoodSync;
use std::alloc::{AllocError, Global};
use std::marker::{Model, PhantomData};
use store_types::BLOCK_LEN;

/// All bytes that a crash may leave in a block. It takes no memory, and its methods do nothing when they run.
#[derive(Drop)]
struct CrashList {
    marker: PhantomData<u8>,
    pub ghost may_leave: { List (List ℕ) },
}

impl Model for CrashList {
    ghost also_owns = { λ _. ftrue };
}

// It owns nothing.
unsafe impl Send for CrashList {}

impl CrashList {
    fn new() -> CrashList
        ensures { result.may_leave ≡ [] }
    {
        CrashList {
            marker: PhantomData,
        }
    }

    /// These bytes were given to a write.
    fn give(&mut self, _bytes: &[u8])
        ensures { self.new.may_leave ≡ _bytes.now ∷ self.old.may_leave }
    {}
}

/// The bytes that a block has, and its writes that may not be settled. Each write puts the block in doubt, and nothing ends that but
/// a `FoundBlock`. No other code changes the list of what a crash may leave, and only a good sync that began after the newest write
/// shortens it.
///
/// The bytes stand behind a pointer, since a lane goes from hand to hand with each write.
#[derive(Drop)]
pub(crate) struct KeptBlock {
    number: u32,
    bytes: Box<[u8; BLOCK_LEN]>,
    /// Whether the newest write failed, and the file did not bring `bytes` since.
    in_doubt: bool,
    crash_list: CrashList,
    /// The number of the first sync that settles the newest write; 0 where there was none since the file was opened.
    settled_by: u64,
}

impl Model for KeptBlock {
    ghost use Rattle.file_disk.specs.File.{KeptBytes};

    ghost Value = { KeptBytes };

    ghost view = { λ a. record {
      number = a.number;
      bytes = a.bytes.value;
      in_doubt = a.in_doubt;
      writes = record { may_leave = a.crash_list.may_leave; settled_by = a.settled_by };
    } };
}

impl KeptBlock {
    /// A block that has these bytes in a file that was settled when it was opened.
    pub(crate) fn new(
        alloc: Global,
        found: &FoundBlock,
        _opened: &GoodSync,
    ) -> Result<KeptBlock, AllocError>
        ensures { IfOk result (λ block. block ≡ fresh_kept found.now.number found.now.bytes) }
    {
        let mut crash_list = CrashList::new();
        crash_list.give(found.bytes());
        let bytes = Box::new(alloc, *found.bytes())?;
        Ok(KeptBlock {
            number: found.number(),
            bytes,
            in_doubt: false,
            crash_list,
            settled_by: 0,
        })
    }

    pub(crate) fn number(&self) -> u32
        ensures { result ≡ self.now.number }
    {
        self.number
    }

    pub(crate) fn bytes(&self) -> &[u8; BLOCK_LEN]
        ensures { result.now ≡ self.now.bytes }
    {
        &self.bytes
    }

    pub(crate) fn is_in_doubt(&self) -> bool
        ensures { result ≡ self.now.in_doubt }
    {
        self.in_doubt
    }

    /// The number of the first sync that settles the newest write; 0 where there was none since the file was opened.
    pub(crate) fn settled_by(&self) -> u64
        ensures { result ≡ self.now.writes.settled_by }
    {
        self.settled_by
    }

    /// These bytes were given to a write, which the sync of this number settles.
    pub(crate) fn give(&mut self, bytes: &[u8; BLOCK_LEN], settled_by: u64)
        ensures { self.new ≡ with_given self.old bytes.now settled_by }
    {
        self.in_doubt = true;
        self.crash_list.give(bytes);
        self.settled_by = settled_by;
    }

    /// The file has these bytes in the place of the block.
    pub(crate) fn find(&mut self, found: &FoundBlock)
        requires { found.now.number ≡ self.old.number }
        ensures { self.new ≡ with_found self.old found.now.bytes }
    {
        let _number = found.number();
        *self.bytes = *found.bytes();
        self.in_doubt = false;
    }

    /// The bytes that the block has are settled by this sync.
    pub(crate) fn settle(&mut self, good: &GoodSync)
        requires number { self.old.writes.settled_by ≤ good.now.number }
        requires no_doubt { self.old.in_doubt ≡ false }
        ensures { self.new ≡ with_settled self.old }
    {
        let _is_in_doubt = self.in_doubt;
        let _number = good.number();
        self.crash_list = CrashList::new();
        self.crash_list.give(&*self.bytes);
    }
}
