// Why a call is refused.

use std::error::Error;
use std::fmt;

/// Why a call was refused. Each refusal is printed as its number and its name.
#[derive(Clone, Copy, Debug, PartialEq, Eq)]
pub enum Refusal {
    /// A growth was refused.
    NoMemory,
    /// The block number is at or past the disk's count.
    NoSuchBlock,
    /// The block is free; for a client's call also where it is dropped.
    NotInUse,
    /// Another file system's block, block 0, or a block that a catalogue entry names.
    NotYours,
    /// Patches, adds or drops outside their limits.
    BadPatch,
    /// The entry to come after has the number 0 or one that is not yet given.
    BadAfter,
    /// A block to be attached isn't fresh, is of another type or file system, or is repeated.
    NotFresh,
    /// A block to be dropped isn't owned by this block, or is repeated; an empty root slot.
    NotOwned,
    /// A block to be dropped owns something in its newest state.
    NotEmpty,
    /// The owned blocks change otherwise than claimed, or a block is named twice.
    ClaimWrong,
    /// A byte at or past the size isn't zero.
    SizeWrong,
    /// 64 pending entries in the block, or 4,096 in the file system.
    TooManyPending,
    /// No block is free.
    NoSpace,
    /// Type 0 or 1, or one that is not installed.
    BadType,
    /// The block's write is under way.
    InFlight,
    /// The ticket is of another kernel, its block isn't in flight here, or its lane holds neither the begun nor the
    /// durable bytes of a block that has a durable state.
    NotMine,
    /// A lane failed during this call.
    Device,
    /// The root slot isn't empty in its newest state.
    RootTaken,
    /// The block has no entry, or its first one isn't safe.
    NothingSafe,
    /// No entry number is left.
    Exhausted,
    /// A block to be attached is the one at which the edited block's chain of owners ends; of a fresh block that is the
    /// block itself.
    Cycle,
    /// The block was written, well or not, after its last good sync.
    NotSynced,
    /// The catalogue has 16 templates.
    NoSlot,
    /// The bytes are no template's block.
    BadTemplate,
}

impl Refusal {
    ghost use Rattle.std.specs.Prelude.{◌≡◌};
    ghost use Rattle.store_types.specs.Refusals.{refusal_text};

    /// Its number and its name.
    fn text(self) -> &'static str
        ensures { result.now ≡ refusal_text self }
    {
        match self {
            Refusal::NoMemory => "1 NoMemory",
            Refusal::NoSuchBlock => "2 NoSuchBlock",
            Refusal::NotInUse => "3 NotInUse",
            Refusal::NotYours => "4 NotYours",
            Refusal::BadPatch => "5 BadPatch",
            Refusal::BadAfter => "6 BadAfter",
            Refusal::NotFresh => "7 NotFresh",
            Refusal::NotOwned => "8 NotOwned",
            Refusal::NotEmpty => "9 NotEmpty",
            Refusal::ClaimWrong => "10 ClaimWrong",
            Refusal::SizeWrong => "11 SizeWrong",
            Refusal::TooManyPending => "13 TooManyPending",
            Refusal::NoSpace => "14 NoSpace",
            Refusal::BadType => "15 BadType",
            Refusal::InFlight => "16 InFlight",
            Refusal::NotMine => "17 NotMine",
            Refusal::Device => "18 Device",
            Refusal::RootTaken => "19 RootTaken",
            Refusal::NothingSafe => "20 NothingSafe",
            Refusal::Exhausted => "21 Exhausted",
            Refusal::Cycle => "22 Cycle",
            Refusal::NotSynced => "23 NotSynced",
            Refusal::NoSlot => "24 NoSlot",
            Refusal::BadTemplate => "25 BadTemplate",
        }
    }
}

/// Its number and its name.
impl fmt::Display for Refusal {
    ghost use Rattle.std.specs.Prelude.{Some};
    ghost use Rattle.store_types.specs.Refusals.{refusal_text};

    ghost output = { λ refusal. Some (refusal_text refusal) };

    fn fmt<W: fmt::Write>(&self, f: &mut fmt::Formatter<W>) -> fmt::Result {
        f.write_str(self.text())
    }
}

impl Error for Refusal {}
