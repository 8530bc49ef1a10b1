// What is timed.

ghost use Rattle.std.specs.Prelude.{◌≡◌, IsOk};
ghost use Rattle.udf_code.specs.Structure.{structure_of};
ghost use Rattle.udf_verify.specs.declared.fault.Role.TheVariants.{Owns};

use crate::programs::texts::full_block;
use arrayvec::ArrayVec;
use std::alloc::Global;
use udf_code::Word;
use udf_run::{Pair, owns};
use udf_verify::{Checked, Role, VerifyFault, verify};

/// What all runs of a program came to: how many pairs, and a number that is made of those of the last run.
#[derive(Clone, Copy)]
pub struct Total {
    pub pairs: u64,
    pub checksum: u64,
}

/// Runs an owns program so often, on a block whose last byte differs from run to run.
pub fn run(checked: &Checked, rounds: u32) -> Total
    requires { checked.now.role ≡ Owns }
{
    let mut block = full_block();
    let mut out = ArrayVec::<Pair, 128>::new();
    let mut pairs: u64 = 0;
    for round in 0..rounds {
        block[511] = (round % 256) as u8;
        owns(checked, &block, &mut out);
        pairs = pairs.wrapping_add(out.len() as u64);
    }
    let checksum = checksum(out.as_slice());
    Total { pairs, checksum }
}

/// A number that differs where pairs differ, mostly.
fn checksum(pairs: &[Pair]) -> u64 {
    let mut sum: u64 = 0;
    for pair in pairs {
        sum = sum.wrapping_mul(31).wrapping_add(u64::from(pair.block));
        sum = sum.wrapping_mul(31).wrapping_add(u64::from(pair.ty));
    }
    sum
}

/// Verifies a program so often, and answers the sum of the costs.
pub fn verify_often(alloc: Global, words: &[Word], rounds: u32) -> Result<u64, VerifyFault>
    requires { IsOk (structure_of words.now) }
{
    let mut cost: u64 = 0;
    for _ in 0..rounds {
        let checked = verify(alloc, words, Role::Owns)?;
        cost = cost.wrapping_add(u64::from(checked.cost()));
    }
    Ok(cost)
}
