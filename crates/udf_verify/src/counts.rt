// How much a block of a program does at most.

ghost use Rattle.std.specs.Prelude.{◌≡◌, ◌+◌, ◌*◌, min, max};

/// The steps that a run of a block makes at most, and the pairs that it emits at most, each cut off at 2^32 - 1.
#[derive(Clone, Copy, Debug, Default, PartialEq, Eq)]
pub struct Counts {
    pub steps: u32,
    pub pairs: u32,
}

impl Counts {
    /// One part of a block after another.
    pub(crate) fn then(self, other: Counts) -> Counts
        ensures steps { result.steps ≡ min (self.steps + other.steps) u32.MAX }
        ensures pairs { result.pairs ≡ min (self.pairs + other.pairs) u32.MAX }
    {
        Counts {
            steps: self.steps.saturating_add(other.steps),
            pairs: self.pairs.saturating_add(other.pairs),
        }
    }

    /// One branch or the other.
    pub(crate) fn either(self, other: Counts) -> Counts
        ensures steps { result.steps ≡ max self.steps other.steps }
        ensures pairs { result.pairs ≡ max self.pairs other.pairs }
    {
        Counts {
            steps: self.steps.max(other.steps),
            pairs: self.pairs.max(other.pairs),
        }
    }

    /// One step more.
    pub(crate) fn stepped(self) -> Counts
        ensures steps { result.steps ≡ min (1 + self.steps) u32.MAX }
        ensures pairs { result.pairs ≡ self.pairs }
    {
        Counts {
            steps: self.steps.saturating_add(1),
            pairs: self.pairs,
        }
    }

    /// So many times over.
    pub(crate) fn times(self, turns: u16) -> Counts
        ensures steps { result.steps ≡ min (turns * self.steps) u32.MAX }
        ensures pairs { result.pairs ≡ min (turns * self.pairs) u32.MAX }
    {
        Counts {
            steps: self.steps.saturating_mul(turns as u32),
            pairs: self.pairs.saturating_mul(turns as u32),
        }
    }
}
