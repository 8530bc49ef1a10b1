// The verifier.

ghost use Rattle.std.specs.Prelude.{◌≡◌, ◌⊎◌, [], length, min, Ok, Err, IsOk, OnOk, IfOk, IfErr, MatchResult};
ghost use Rattle.udf_code.specs.Reading.{tree_of};
ghost use Rattle.udf_code.specs.Structure.{structure_of};
ghost use Rattle.udf_code.specs.Words.{AllInRange};
ghost use Rattle.udf_verify.specs.declared.fault.FaultKind.TheVariants as kind;
ghost use Rattle.udf_verify.specs.Layout.{IsBlockAt};
ghost use Rattle.udf_verify.specs.Verdict.{program_verdict, cost, emits, cost_limit as limit, answer_fits as fits, IsAccepted};

use crate::check::check_block;
use crate::checked::Checked;
use crate::counts::Counts;
use crate::fault::{FaultKind, Role, VerifyFault};
use crate::interval::Interval;
use crate::survey::survey;
use std::alloc::Global;
use udf_code::word::Word;

/// The verdict on a program, and the most that a run of it does. No memory is taken.
///
/// A run of an owns program makes at most 8,192 steps and emits at most 128 pairs. A run of a size program makes at most
/// 1,024 steps, emits nothing and answers at most 512. The fault is that of the first word that breaks a rule; at the
/// number of words stand, in this order, `Emits`, `Cost` and `SizeAnswer`.
pub fn judge(words: &[Word], role: Role) -> Result<Counts, VerifyFault>
    // The words are a program.
    requires { IsOk (structure_of words.now) }
    ensures accepts { OnOk result (IsAccepted role (tree_of words.now)) }
    ensures most { IfOk result (λ most. most ≡ record { steps = cost (tree_of words.now); pairs = emits (tree_of words.now) }) }
    ensures refuses { IfErr result (λ fault. program_verdict role (tree_of words.now) ≡ Err fault) }
{
    let mut places = [0u8; 127];
    judge_into(words, &mut places[..words.len()], role)
}

/// Checks that a program runs on every block without a trap, within the limits of its role, and copies it. The faults are
/// those of `judge`, and last, at the number of words, `NoMemory` for a program that is accepted.
pub fn verify(alloc: Global, words: &[Word], role: Role) -> Result<Checked, VerifyFault>
    // The words are a program.
    requires { IsOk (structure_of words.now) }
    ensures value { IfOk result (λ checked. checked ≡ record { words = words.now; role = role }) }
    ensures accepts { OnOk result (IsAccepted role (tree_of words.now)) }
    ensures refuses { IfErr result (λ fault. (program_verdict role (tree_of words.now) ≡ Err fault)
        ⊎ ((fault ≡ record { at = length words.now; kind = kind.NoMemory }) × IsAccepted role (tree_of words.now))) }
{
    let mut places = [0u8; 127];
    let targets = &mut places[..words.len()];
    let counts = judge_into(words, targets, role)?;
    let Ok(kept_words) = Vec::from_slice(alloc, words) else {
        return Err(VerifyFault {
            at: words.len(),
            kind: FaultKind::NoMemory,
        });
    };
    let Ok(kept_targets) = Vec::from_slice(alloc, targets) else {
        return Err(VerifyFault {
            at: words.len(),
            kind: FaultKind::NoMemory,
        });
    };
    Ok(Checked::new(kept_words, kept_targets, role, counts))
}

/// The verdict on a program and the most that a run of it does. It leaves in `targets` where the opening words lead.
fn judge_into(words: &[Word], targets: &mut [u8], role: Role) -> Result<Counts, VerifyFault>
    requires program { IsOk (structure_of words.now) }
    requires room { length targets.old ≡ length words.now }
    ensures accepts { OnOk result (IsAccepted role (tree_of words.now)) }
    ensures most { IfOk result (λ most. most ≡ record { steps = cost (tree_of words.now); pairs = emits (tree_of words.now) }) }
    ensures refuses { IfErr result (λ fault. program_verdict role (tree_of words.now) ≡ Err fault) }
    ensures leads { IsBlockAt words.now targets.new 0 (length words.now) [] (tree_of words.now) }
    ensures in_range { AllInRange words.now }
{
    let counts = survey(words, targets);
    find_fault(words, targets, role, counts)?;
    Ok(counts)
}

/// The first fault of words that were surveyed.
fn find_fault(words: &[Word], targets: &[u8], role: Role, counts: Counts) -> Result<(), VerifyFault>
    requires leads { IsBlockAt words.now targets.now 0 (length words.now) [] (tree_of words.now) }
    requires steps { counts.steps ≡ min (cost (tree_of words.now)) u32.MAX }
    requires pairs { counts.pairs ≡ min (emits (tree_of words.now)) u32.MAX }
    ensures { MatchResult result
        (λ done. IsAccepted role (tree_of words.now))
        (λ fault. program_verdict role (tree_of words.now) ≡ Err fault) }
{
    let mut intervals = [Interval::new(0, 0); 16];
    check_block(
        words,
        targets,
        0,
        words.len(),
        role,
        &[false; 16],
        &mut intervals,
    )?;
    let at = words.len();
    if counts.pairs > 128 {
        return Err(VerifyFault {
            at,
            kind: FaultKind::Emits,
        });
    }
    if counts.steps > cost_limit(role) {
        return Err(VerifyFault {
            at,
            kind: FaultKind::Cost,
        });
    }
    if !answer_fits(role, &intervals) {
        return Err(VerifyFault {
            at,
            kind: FaultKind::SizeAnswer,
        });
    }
    Ok(())
}

/// The greatest number of steps that a run may make.
fn cost_limit(role: Role) -> u32
    ensures { result ≡ limit role }
{
    match role {
        Role::Owns => 8192,
        Role::Size => 1024,
    }
}

/// Whether a size program answers at most a block's bytes.
fn answer_fits(role: Role, intervals: &[Interval; 16]) -> bool
    ensures { result ≡ fits role intervals.now }
{
    match role {
        Role::Owns => true,
        Role::Size => intervals[0].high() <= 512,
    }
}
