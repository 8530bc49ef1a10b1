// Single bits of a word.

ghost use Rattle.std.specs.Prelude.{◌≡◌, ◌≢◌, ℕ, ◌-◌, ◌^◌, ◌<◌, ◌≤◌, ◌↔◌, IsTrue, IfSome, IfNone};
ghost use Rattle.free_map.specs.Bits.{IsLowestBitFrom};
ghost use Rattle.std.specs.Int.{bit_at};

/// Whether bit `at` is set.
pub fn has_bit(word: u64, at: u32) -> bool
    requires { at < 64 }
    ensures { IsTrue result ↔ (bit_at word at ≡ 1) }
{
    word & (1 << at) != 0
}

/// The word with bit `at` set.
pub fn with_bit(word: u64, at: u32) -> u64
    requires { at < 64 }
    ensures set { bit_at result at ≡ 1 }
    ensures others { (k : ℕ) → k ≢ at → bit_at result k ≡ bit_at word k }
{
    word | (1 << at)
}

/// The word with bit `at` cleared.
pub fn without_bit(word: u64, at: u32) -> u64
    requires { at < 64 }
    ensures cleared { bit_at result at ≡ 0 }
    ensures others { (k : ℕ) → k < 64 → k ≢ at → bit_at result k ≡ bit_at word k }
{
    word & !(1 << at)
}

/// The word of which the first bits are set, so many, and no other.
pub fn first_bits(count: u32) -> u64
    requires { count ≤ 64 }
    ensures { result ≡ 2 ^ count - 1 }
{
    if count == 64 {
        return u64::MAX;
    }
    (1 << count) - 1
}

/// The lowest bit of a word that is not below `from`, if there is one.
pub fn lowest_bit_from(word: u64, from: u32) -> Option<u32>
    requires { from < 64 }
    ensures some { IfSome result (IsLowestBitFrom word from) }
    ensures none { IfNone result ((k : ℕ) → from ≤ k → bit_at word k ≡ 0) }
{
    let rest = word >> from;
    if rest == 0 {
        return None;
    }
    Some(from + rest.trailing_zeros())
}
