// Sizes, as they are written.

ghost use Rattle.std.specs.Prelude.{◌≡◌, ℕ, ◌*◌, ◌≤◌, ◌^◌, IfSome, IsNone, Some, None};
ghost use Rattle.std.specs.Str.Parse.{IsNumeral, digits_value};
ghost use Rattle.xnfs_words.specs.Sizes.{IsBlocks, IsSize, front, last, unit_of};

use store_types::BLOCK_LEN;

/// How many bytes the letter behind a number stands for.
fn unit_of(letter: u8) -> Option<u64>
    ensures { result ≡ unit_of letter }
{
    match letter {
        b'K' | b'k' => Some(1_024),
        b'M' | b'm' => Some(1_048_576),
        b'G' | b'g' => Some(1_073_741_824),
        _ => None,
    }
}

/// A number of digits alone.
fn number_of(digits: &str) -> Option<u64>
    ensures value { IfSome result (λ n. IsNumeral 10 digits.now × (n ≡ digits_value 10 digits.now)) }
    ensures none { IsNone result → IsNumeral 10 digits.now → 2 ^ 64 ≤ digits_value 10 digits.now }
{
    if digits.as_bytes().first() == Some(&b'+') {
        return None;
    }
    digits.parse::<u64>().ok()
}

/// A text that ends in a letter: what stands before it, and how many bytes the letter stands for.
fn parts_of(text: &str) -> Option<(&str, u64)>
    ensures parts { IfSome result (λ parts. (parts.0.now ≡ front text.now) × (unit_of (last text.now) ≡ Some parts.1)) }
    ensures none { IsNone result → unit_of (last text.now) ≡ None }
{
    let unit = unit_of(*text.as_bytes().last()?)?;
    let (digits, _) = text.split_at_checked(text.len() - 1)?;
    Some((digits, unit))
}

/// A size in bytes: a number of bytes, or of K, M or G, powers of 1,024. `None` where the text is none, or where it is 2^64 or more.
pub fn size_of(text: &str) -> Option<u64>
    ensures value { IfSome result (IsSize text.now) }
    ensures none { IsNone result → (n : ℕ) → IsSize text.now n → 2 ^ 64 ≤ n }
{
    match parts_of(text) {
        Some((digits, unit)) => number_of(digits)?.checked_mul(unit),
        None => number_of(text),
    }
}

/// How many blocks so many bytes are, where they are whole ones.
fn whole_blocks(bytes: u64) -> Option<u64>
    ensures { IfSome result (λ blocks. blocks * 512 ≡ bytes) }
{
    let block = BLOCK_LEN as u64;
    if bytes % block == 0 {
        Some(bytes / block)
    } else {
        None
    }
}

/// A number of blocks of 512 bytes: such a number, or a size with a letter. `None` where the text is none, or a number that 32 bits don't hold.
pub fn blocks_of(text: &str) -> Option<u32>
    ensures { IfSome result (IsBlocks text.now) }
{
    let blocks = match parts_of(text) {
        Some((digits, unit)) => whole_blocks(number_of(digits)?.checked_mul(unit)?)?,
        None => number_of(text)?,
    };
    u32::try_from(blocks).ok()
}
