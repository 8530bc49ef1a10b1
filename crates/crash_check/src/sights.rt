// What the visits to the blocks of a level saw.

ghost use Rattle.std.specs.Prelude.{◌≡◌, ◌≤◌, ◌∷◌, ◌++◌, ℕ, List, Option, map, length, IfOk, IsOk, OnOk};
ghost use Rattle.std.specs.Option.{ForSome, option_map};
ghost use Rattle.templates.specs.Meaning.{numbers_of_pair};
ghost use Rattle.crash_check.specs.Sights.{sights, count_sum};

use std::alloc::AllocError;
use udf_run::Pair;

/// What each block of a part of the list names. All pairs stand in one list: one for each block would ask for memory at each.
#[derive(Drop)]
pub struct Sights {
    /// The pairs of all blocks, those of one behind those of another.
    pub pairs: Vec<Pair>,
    /// How many of them each block has, or `None` where a byte past its size is not 0.
    pub counts: Vec<Option<usize>>,
}

/// The sights of one part of a level behind those of another.
pub fn joined(
    front: Result<Sights, AllocError>,
    back: Result<Sights, AllocError>,
) -> Result<Sights, AllocError>
    ensures pairs { IfOk result (λ level. IfOk front (λ f. IfOk back (λ b. level.pairs.items ≡ f.pairs.items ++ b.pairs.items))) }
    ensures counts { IfOk result (λ level. IfOk front (λ f. IfOk back (λ b. level.counts.items ≡ f.counts.items ++ b.counts.items))) }
    ensures both { OnOk result (IsOk front × IsOk back) }
{
    let Sights {
        mut pairs,
        mut counts,
    } = front?;
    let mut rest = back?;
    pairs.append(&mut rest.pairs)?;
    counts.append(&mut rest.counts)?;
    Ok(Sights { pairs, counts })
}

/// What the next block names, of the pairs that are left, and the pairs behind those.
pub fn cut(pairs: &[Pair], count: Option<usize>) -> (Option<&[Pair]>, &[Pair])
    requires { ForSome count (λ n. n ≤ length pairs.now) }
    ensures seen { (others : List (Option ℕ)) →
        sights pairs.now (count ∷ others) ≡ option_map (λ v. map numbers_of_pair v.now) result.0 ∷ sights result.1.now others }
    ensures left { (others : List (Option ℕ)) → count_sum (count ∷ others) ≡ length pairs.now → count_sum others ≡ length result.1.now }
{
    match count {
        None => (None, pairs),
        Some(count) => {
            let (front, back) = pairs.split_at(count);
            (Some(front), back)
        }
    }
}
