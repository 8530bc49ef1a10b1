// The buckets of a directory in which a name may stand.

ghost use Rattle.std.specs.Prelude.{◌≡◌, ◌<◌};
ghost use Rattle.treefs_format.specs.Candidates.{candidate, name_hash};

use std::hash::{DefaultHasher, Hasher};

/// How many buckets a name may stand in: bucket 0, and one of each level from 1 to 8.
pub const LEVELS: u32 = 9;

/// The hash of a name, by a volume's key.
#[tactic(auto, unfolding(crate::specs::Candidates::name_hash))]
pub fn name_hash(key: &[u8; 16], name: &[u8]) -> u64
    ensures { result ≡ name_hash key.now name.now }
{
    let mut hasher = DefaultHasher::new();
    hasher.write(key);
    hasher.write(name);
    hasher.finish()
}

/// The bucket of a level, 0 to 8, in which a name with this hash may stand.
#[tactic(auto, using(crate::proofs::Levels::next_first, crate::proofs::Levels::next_buckets, crate::proofs::Levels::few_buckets))]
pub fn candidate(hash: u64, level: u32) -> u32
    requires { level < LEVELS }
    ensures { result ≡ candidate hash level }
{
    let mut first = 0;
    let mut buckets = 1;
    for _level in 0..level {
        first += buckets;
        buckets *= 8;
    }
    (first + hash % buckets) as u32
}
