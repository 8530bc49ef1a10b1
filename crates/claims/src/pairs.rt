// Pairs of a block and its type.

ghost use Rattle.std.specs.Prelude.{◌≡◌, ◌≤◌, length, IsTrue};
ghost use Rattle.xn_model.specs.Lists.{has_pair};
ghost use Rattle.xn_model.specs.Types.{inside};
ghost use Rattle.templates.specs.Decided.{DecidesOwned};
ghost use Rattle.templates.specs.Tables.{table_types};

use arrayvec::ArrayVec;
use store_types::BLOCK_LEN;
use templates::Table;
use udf_run::{Pair, ReadSet};

/// Whether a pair is among these.
pub(crate) fn has_pair(pairs: &[(u32, u32)], pair: (u32, u32)) -> bool
    ensures { result ≡ has_pair pairs.now pair }
{
    pairs
        .iter()
        .any(|other| other.0 == pair.0 && other.1 == pair.1)
}

/// Whether each of some pairs is among others.
pub(crate) fn is_inside(pairs: &[(u32, u32)], others: &[(u32, u32)]) -> bool
    ensures { result ≡ inside pairs.now others.now }
{
    pairs.iter().all(|pair| has_pair(others, *pair))
}

/// The blocks that a block of an installed type points to, each with its type, and which chunks of the block decide them.
pub fn owned_pairs(
    table: &Table,
    ty: u32,
    bytes: &[u8; BLOCK_LEN],
) -> (ArrayVec<(u32, u32), 128>, ReadSet)
    requires { IsTrue ((table_types table.now).installed ty) }
    ensures pairs { result.0.items ≡ (table_types table.now).owned ty bytes.now }
    ensures reads { DecidesOwned (table_types table.now) ty bytes.now result.1.chunks }
{
    let mut found = ArrayVec::<Pair, 128>::new();
    let reads = table.owns_tracked(ty, bytes, &mut found);
    let mut pairs = ArrayVec::<(u32, u32), 128>::new();
    for pair in found.as_slice() {
        pairs.push((pair.block, pair.ty));
    }
    (pairs, reads)
}
