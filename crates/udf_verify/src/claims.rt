// The KEEPs of a FOR.

ghost use Rattle.std.specs.Prelude.{◌≡◌, ◌+◌, ◌++◌, ◌≤◌, List, length, map, Ok, Err, MatchResult, true, slice_set};
ghost use Rattle.udf_code.specs.Tree.{Claim, Tree, IsTree, keep_word, words_of};
ghost use Rattle.udf_verify.specs.Intervals.{between};
ghost use Rattle.udf_verify.specs.Bounds.{claims_row, are_kept, claimed, no_register};

use crate::fault::{FaultKind, VerifyFault};
use crate::interval::Interval;
use udf_code::word::{Register, Word};

/// How many KEEPs stand before a loop's body.
pub fn count_claims(words: &[Word]) -> usize
    ensures within { result ≤ length words.now }
    ensures exact { (claims : List Claim) (body : Tree) → IsTree body → words.now ≡ map keep_word claims ++ words_of body → result ≡ length claims }
{
    let mut count = 0;
    while count < words.len() {
        match words[count] {
            Word::Keep(_, _) => count += 1,
            _ => return count,
        }
    }
    count
}

/// Whether the claims hold where the FOR is reached. None may be of its counter, and none made twice.
pub fn check_claims(
    at: usize,
    words: &[Word],
    counter: Register,
    intervals: &[Interval; 16],
) -> Result<(), VerifyFault>
    requires { at + length words.now ≤ 127 }
    ensures { (claims : List Claim) → words.now ≡ map keep_word claims → MatchResult result
        (λ done. claims_row at (slice_set no_register counter true) claims intervals.now ≡ Ok tt)
        (λ fault. claims_row at (slice_set no_register counter true) claims intervals.now ≡ Err fault) }
{
    let mut taken = [false; 16];
    taken[counter.index()] = true;
    for (i, word) in words.iter().enumerate() {
        if let Word::Keep(a, most) = *word {
            let register = a.index();
            if taken[register] || intervals[register].high() > most as u32 {
                return Err(VerifyFault {
                    at: at + i,
                    kind: FaultKind::Keep,
                });
            }
            taken[register] = true;
        }
    }
    Ok(())
}

/// What the claims say at the start of a turn, and behind the FOR.
pub fn claim(words: &[Word], intervals: &mut [Interval; 16])
    ensures { (claims : List Claim) → words.now ≡ map keep_word claims → intervals.new ≡ claimed claims intervals.old }
{
    for word in words {
        if let Word::Keep(a, most) = *word {
            intervals[a.index()] = Interval::new(0, most as u32);
        }
    }
}

/// Whether the claims hold at the end of a turn.
pub fn claims_hold(words: &[Word], intervals: &[Interval; 16]) -> bool
    ensures { (claims : List Claim) → words.now ≡ map keep_word claims → result ≡ are_kept claims intervals.now }
{
    for word in words {
        if let Word::Keep(a, most) = *word {
            if intervals[a.index()].high() > most as u32 {
                return false;
            }
        }
    }
    true
}
