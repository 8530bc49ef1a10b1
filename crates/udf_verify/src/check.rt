// The check of words that stand in a list, by blocks.

ghost use Rattle.std.specs.Prelude.{◌≡◌, ◌≤◌, ◌+◌, ◌<◌, ℕ, length, Ok, Err, Some, MatchResult, IfOk, slice_get};
ghost use Rattle.udf_code.specs.declared.word.Word.TheVariants.{For};
ghost use Rattle.udf_verify.specs.Checks.{CheckAnswer, Checks, BranchChecks};

use crate::claims::{check_claims, claim, claims_hold, count_claims};
use crate::fault::{FaultKind, Role, VerifyFault};
use crate::interval::Interval;
use crate::merge::merge_into;
use crate::rows::check_word;
use crate::split::{split_equal, split_less};
use crate::written::{forget, written_by};
use std::ops::Range;
use udf_code::word::{Register, Turns, Word};

/// Checks the words of a block.
#[cycle(check)]
pub fn check_block(
    words: &[Word],
    targets: &[u8],
    from: usize,
    to: usize,
    role: Role,
    counters: &[bool; 16],
    intervals: &mut [Interval; 16],
) -> Result<(), VerifyFault>
    requires { (answer : CheckAnswer) × Checks words.now targets.now from to role counters.now intervals.old answer }
    ensures { (answer : CheckAnswer) → Checks words.now targets.now from to role counters.now intervals.old answer
        → MatchResult result (λ done. answer ≡ Ok intervals.new) (λ fault. answer ≡ Err fault) }
{
    let mut at = from;
    while at < to {
        at = check_part(words, targets, at, to, role, counters, intervals)?;
    }
    Ok(())
}

/// Checks one word, with the block that it opens, and says where to go on.
#[cycle(check)]
fn check_part(
    words: &[Word],
    targets: &[u8],
    at: usize,
    to: usize,
    role: Role,
    counters: &[bool; 16],
    intervals: &mut [Interval; 16],
) -> Result<usize, VerifyFault>
    requires checks { (answer : CheckAnswer) × Checks words.now targets.now at to role counters.now intervals.old answer }
    requires more { at < to }
    ensures onward { IfOk result (λ next. at < next) }
    ensures same { (answer : CheckAnswer) → Checks words.now targets.now at to role counters.now intervals.old answer
        → MatchResult result
        (λ next. Checks words.now targets.now next to role counters.now intervals.new answer)
        (λ fault. answer ≡ Err fault) }
{
    let word = words[at];
    match word {
        Word::IfLess(a, b) => match split_less(a, b, intervals) {
            Ok(other) => check_branches(words, targets, at, to, role, counters, intervals, other),
            Err(kind) => Err(VerifyFault { at, kind }),
        },
        Word::IfEqual(a, b) => match split_equal(a, b, intervals) {
            Ok(other) => check_branches(words, targets, at, to, role, counters, intervals, other),
            Err(kind) => Err(VerifyFault { at, kind }),
        },
        Word::For(a, n) => check_turns(words, targets, at..to, a, n, role, counters, intervals),
        _ => {
            check_word(at, word, role, counters, intervals)?;
            Ok(at + 1)
        }
    }
}

/// Checks the branches of an IF, and says where to go on.
#[cycle(check)]
fn check_branches(
    words: &[Word],
    targets: &[u8],
    at: usize,
    to: usize,
    role: Role,
    counters: &[bool; 16],
    intervals: &mut [Interval; 16],
    mut other: [Interval; 16],
) -> Result<usize, VerifyFault>
    requires { (answer : CheckAnswer) × BranchChecks words.now targets.now at to role counters.now intervals.old other answer }
    ensures onward { IfOk result (λ next. at < next) }
    ensures same { (answer : CheckAnswer) → BranchChecks words.now targets.now at to role counters.now intervals.old other answer
        → MatchResult result
        (λ next. Checks words.now targets.now next to role counters.now intervals.new answer)
        (λ fault. answer ≡ Err fault) }
{
    let part = targets[at] as usize;
    check_block(words, targets, at + 1, part, role, counters, intervals)?;
    let word = words[part];
    match word {
        Word::Else => {
            let close = targets[part] as usize;
            check_block(words, targets, part + 1, close, role, counters, &mut other)?;
            merge_into(intervals, &other);
            Ok(close + 1)
        }
        _ => {
            merge_into(intervals, &other);
            Ok(part + 1)
        }
    }
}

/// Checks a FOR, with which a part of a block begins, and its body, and says where to go on.
#[cycle(check)]
fn check_turns(
    words: &[Word],
    targets: &[u8],
    part: Range<usize>,
    a: Register,
    n: Turns,
    role: Role,
    counters: &[bool; 16],
    intervals: &mut [Interval; 16],
) -> Result<usize, VerifyFault>
    requires stands { slice_get words.now part.start ≡ Some (For a n) }
    requires more { part.start < part.end }
    requires checks { (answer : CheckAnswer) × Checks words.now targets.now part.start part.end role counters.now intervals.old answer }
    ensures onward { IfOk result (λ next. part.start < next) }
    ensures same { (answer : CheckAnswer) → Checks words.now targets.now part.start part.end role counters.now intervals.old answer
        → MatchResult result
        (λ next. Checks words.now targets.now next part.end role counters.now intervals.new answer)
        (λ fault. answer ≡ Err fault) }
{
    let at = part.start;
    let counter = a.index();
    if counters[counter] {
        return Err(VerifyFault {
            at,
            kind: FaultKind::Counter,
        });
    }
    let close = targets[at] as usize;
    let inside = &words[at + 1..close];
    let (claims, body) = inside.split_at(count_claims(inside));
    check_claims(at + 1, claims, a, intervals)?;
    forget(&written_by(body), intervals);
    claim(claims, intervals);
    let last = (n.count() - 1) as u32;
    let mut turn = *intervals;
    turn[counter] = Interval::new(0, last);
    let mut inner = *counters;
    inner[counter] = true;
    let first = at + 1 + claims.len();
    check_block(words, targets, first, close, role, &inner, &mut turn)?;
    if !claims_hold(claims, &turn) {
        return Err(VerifyFault {
            at: close,
            kind: FaultKind::Keep,
        });
    }
    intervals[counter] = Interval::new(last, last);
    Ok(close + 1)
}
