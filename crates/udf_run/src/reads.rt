// Which places of a block a run reads.

ghost use Rattle.std.specs.Prelude.{◌≡◌, ◌≢◌, ◌↔◌, ℕ, ◌+◌, ◌/◌, ◌<◌, ◌≤◌, Contains, IsTrue, List};
ghost use Rattle.std.specs.Int.{bit_at};
ghost use Rattle.udf_run.specs.ReadSets.{AgreeFrom, AgreeOn, ChunksOf};

/// How many bytes a chunk has.
const CHUNK_LEN: usize = 8;

/// A set of chunks of a block, which has 64 of 8 bytes each.
#[derive(Clone, Copy, Debug, PartialEq, Eq)]
pub struct ReadSet {
    chunks: u64,
}

impl ReadSet {
    /// The empty set.
    pub(crate) fn new() -> ReadSet
        ensures { result.chunks ≡ 0 }
    {
        ReadSet { chunks: 0 }
    }

    /// Whether none of the bytes from one place to another lies in a chunk of the set.
    pub fn is_apart(self, first: usize, last: usize) -> bool
        requires ordered { first ≤ last }
        requires within { last < 512 }
        ensures { IsTrue result ↔ ((i : ℕ) → first ≤ i → i ≤ last → bit_at self.chunks (i / 8) ≡ 0) }
    {
        for chunk in first / CHUNK_LEN..last / CHUNK_LEN + 1 {
            if self.has(chunk) {
                return false;
            }
        }
        true
    }

    /// Whether a chunk is in the set.
    fn has(self, chunk: usize) -> bool
        requires { chunk < 64 }
        ensures { IsTrue result ↔ (bit_at self.chunks chunk ≡ 1) }
    {
        self.chunks & (1 << chunk) != 0
    }

    /// Puts a chunk into the set.
    #[inline(always)]
    fn insert(&mut self, chunk: usize)
        requires { chunk < 64 }
        ensures set { bit_at self.new.chunks chunk ≡ 1 }
        ensures others { (k : ℕ) → k ≢ chunk → bit_at self.new.chunks k ≡ bit_at self.old.chunks k }
    {
        self.chunks |= 1 << chunk;
    }
}

/// What takes note of the places that a run reads, or doesn't.
pub trait TrackReads {
    ghost use Rattle.std.specs.Prelude.{ℕ, List};

    /// Two blocks hold the same in all places that were read.
    ghost Agree: { Self → List ℕ → List ℕ → Type 0 };

    /// What was noted are chunks of these places alone.
    ghost Only: { Self → List ℕ → Type 0 };

    /// The bytes from one place to another, at most 8 further, are read.
    fn track(&mut self, first: usize, last: usize)
        requires ordered { first ≤ last }
        requires near { last ≤ first + 8 }
        requires within { last < 512 }
        ensures before { (block other : List ℕ) → Agree self.new block other → Agree self.old block other }
        ensures here { (block other : List ℕ) → Agree self.new block other → AgreeFrom first last block other }
        ensures only { (places : List ℕ) → Contains places first → Contains places last → Only self.old places → Only self.new places };

    ghost agrees_with_itself: { (reads : Self) (block : List ℕ) → Agree reads block block };
}

impl TrackReads for ReadSet {
    ghost use Rattle.std.specs.Prelude.{refl};

    ghost Agree = { λ reads block other. AgreeOn reads.chunks block other };

    ghost Only = { λ reads places. ChunksOf reads.chunks places };

    #[inline(always)]
    fn track(&mut self, first: usize, last: usize) {
        self.insert(first / CHUNK_LEN);
        self.insert(last / CHUNK_LEN);
    }

    ghost agrees_with_itself = { λ reads block i noted. refl };
}

/// Takes no note: nothing is known of any other block.
#[derive(Clone, Copy, Debug, PartialEq, Eq)]
pub struct Untracked;

impl TrackReads for Untracked {
    ghost use Rattle.std.specs.Prelude.{◌≡◌, refl};

    ghost Agree = { λ reads block other. other ≡ block };

    ghost Only = { λ reads places. Unit {0} };

    #[inline(always)]
    fn track(&mut self, _first: usize, _last: usize) {}

    ghost agrees_with_itself = { λ reads block. refl };
}
