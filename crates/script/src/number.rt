ghost use Rattle.std.specs.Prelude.{◌≡◌, ◌+◌, ◌≤◌, ◌↔◌, ℕ, List, map, Some, IfOk, IfSome, IfNone, IsSome, IsTrue};
ghost use Rattle.std.specs.Fmt.{decimal};
ghost use Rattle.script.specs.Numbers.{IsPlain, SpellNumbers};

use std::alloc::{AllocError, Global};

/// Whether a text has no sign and no leading zero.
fn is_plain(text: &str) -> bool
    ensures { IsTrue result ↔ IsPlain text.now }
{
    let bytes = text.as_bytes();
    bytes.first() != Some(&b'+') && (bytes.first() != Some(&b'0') || bytes.len() == 1)
}

/// The number that a text spells in decimal digits, with no sign and no leading zero, where it is at most `greatest`.
pub fn parse_number(text: &str, greatest: u64) -> Option<u64>
    ensures spelled { IfSome result (λ n. (text.now ≡ decimal n) × (n ≤ greatest)) }
    ensures readable { (n : ℕ) → n ≤ greatest → text.now ≡ decimal n → result ≡ Some n }
{
    let number = text.parse::<u64>().ok()?;
    if !is_plain(text) || number > greatest {
        return None;
    }
    Some(number)
}

/// The value of a decimal digit.
fn digit_value(digit: u8) -> Option<u8>
    ensures digit { IsSome result ↔ ((48 ≤ digit) × (digit ≤ 57)) }
    ensures value { IfSome result (λ value. value + 48 ≡ digit) }
{
    match digit {
        b'0'..=b'9' => Some(digit - b'0'),
        _ => None,
    }
}

/// The same as `parse_number`, of numbers of at most 32 bits, where no sum or product has to be tested for its size.
pub fn parse_u32(text: &str) -> Option<u32>
    ensures spelled { IfSome result (λ n. text.now ≡ decimal n) }
    ensures readable { (n : ℕ) → n ≤ 4294967295 → text.now ≡ decimal n → result ≡ Some n }
{
    if text.is_empty() || !is_plain(text) {
        return None;
    }
    let mut number = 0;
    for digit in text.as_bytes() {
        number = 10 * number + u64::from(digit_value(*digit)?);
        if number > u64::from(u32::MAX) {
            return None;
        }
    }
    Some(number as u32)
}

/// The numbers of at most 32 bits that the words spell, one a word.
pub fn parse_numbers(alloc: Global, words: &[&str]) -> Result<Option<Vec<u32>>, AllocError>
    ensures some { IfOk result (λ read. IfSome read (λ numbers. SpellNumbers (map (λ word. word.now) words.now) numbers.items)) }
    ensures none { IfOk result (λ read. IfNone read ((numbers : List ℕ) → ¬ SpellNumbers (map (λ word. word.now) words.now) numbers)) }
{
    let mut numbers = Vec::new(alloc);
    for word in words {
        let Some(number) = parse_u32(word) else {
            return Ok(None);
        };
        numbers.push(number)?;
    }
    Ok(Some(numbers))
}
