ghost use Rattle.std.specs.Prelude.{◌≡◌, ◌+◌, ◌*◌, ◌<◌, ◌≤◌, ◌↔◌, ℕ, IsTrue, IsSome, IfSome, IfNone, IfOk, Some, None, length, slice_index};
ghost use Rattle.script.specs.Hex.{AreHexDigits, is_hex_digit, hex_digit_value, hex_byte, IsHex, IsBlockText, SpellsBlock, SpellsBytes, block_with};

use std::alloc::{AllocError, Global};
use store_types::BLOCK_LEN;

/// The value of a lower-case digit of base 16.
fn digit_value(digit: u8) -> Option<u8>
    ensures digit { IsSome result ↔ IsTrue (is_hex_digit digit) }
    ensures value { IfSome result (λ value. value ≡ hex_digit_value digit) }
    ensures small { IfSome result (λ value. value < 16) }
{
    match digit {
        b'0'..=b'9' => Some(digit - b'0'),
        b'a'..=b'f' => Some(digit - b'a' + 10),
        _ => None,
    }
}

/// The byte that two digits spell.
fn pair_value(high: u8, low: u8) -> Option<u8>
    ensures digits { IsSome result ↔ (IsTrue (is_hex_digit high) × IsTrue (is_hex_digit low)) }
    ensures value { IfSome result (λ byte. byte ≡ 16 * hex_digit_value high + hex_digit_value low) }
{
    let high = digit_value(high)?;
    let low = digit_value(low)?;
    Some(16 * high + low)
}

/// How many pairs these are, where there are 1 to 512.
fn count_pairs(digits: &[u8]) -> Option<usize>
    ensures some { IfSome result (λ pairs. (length digits.now ≡ 2 * pairs) × (0 < pairs) × (pairs ≤ 512)) }
    ensures none { IfNone result (¬ IsHex digits.now) }
{
    if digits.is_empty() || digits.len() > 1024 || digits.len() % 2 != 0 {
        return None;
    }
    Some(digits.len() / 2)
}

/// Reads so many pairs of digits into the first bytes. Where one is no pair of digits, some of the bytes may be read already.
fn read_pairs(digits: &[u8], pairs: usize, bytes: &mut [u8]) -> bool
    requires pairs { length digits.now ≡ 2 * pairs }
    requires room { pairs ≤ length bytes.old }
    ensures readable { IsTrue result ↔ AreHexDigits digits.now }
    ensures read { IsTrue result → (k : ℕ) → k < pairs → slice_index bytes.new k ≡ hex_byte digits.now k }
    ensures rest { (k : ℕ) → pairs ≤ k → slice_index bytes.new k ≡ slice_index bytes.old k }
    ensures long { length bytes.new ≡ length bytes.old }
{
    for place in 0..pairs {
        let Some(byte) = pair_value(digits[2 * place], digits[2 * place + 1]) else {
            return false;
        };
        bytes[place] = byte;
    }
    true
}

/// The block that 1 to 512 pairs of lower-case digits spell; the bytes behind them are zero.
fn parse_pairs(digits: &[u8]) -> Option<[u8; BLOCK_LEN]>
    ensures readable { IsSome result ↔ IsHex digits.now }
    ensures block { IfSome result (SpellsBlock digits.now) }
{
    let pairs = count_pairs(digits)?;
    let mut block = [0u8; BLOCK_LEN];
    if read_pairs(digits, pairs, &mut block) {
        Some(block)
    } else {
        None
    }
}

/// The block that 1 to 512 pairs of lower-case digits spell, or `-` for none; the bytes behind them are zero. It takes no memory.
pub fn parse_block(text: &str) -> Option<[u8; BLOCK_LEN]>
    ensures readable { IsSome result ↔ IsBlockText text.now }
    ensures block { IfSome result (SpellsBlock text.now) }
{
    if text == "-" {
        return Some([0; BLOCK_LEN]);
    }
    parse_pairs(text.as_bytes())
}

/// The bytes that 1 to 512 pairs of lower-case digits spell.
pub fn parse_bytes(alloc: Global, text: &str) -> Result<Option<Vec<u8>>, AllocError>
    ensures readable { IfOk result (λ read. IsSome read ↔ IsHex text.now) }
    ensures bytes { IfOk result (λ read. IfSome read (λ bytes. SpellsBytes text.now bytes.items)) }
{
    let digits = text.as_bytes();
    let Some(pairs) = count_pairs(digits) else {
        return Ok(None);
    };
    let mut bytes = vec![in alloc; 0u8; pairs]?;
    if read_pairs(digits, pairs, &mut bytes) {
        Ok(Some(bytes))
    } else {
        Ok(None)
    }
}

/// The bytes at the beginning of a block that 1 to 512 pairs of lower-case digits spell, or `-` for none; those behind them are zero.
pub fn parse_start(alloc: Global, text: &str) -> Result<Option<Vec<u8>>, AllocError>
    ensures readable { IfOk result (λ read. IsSome read ↔ IsBlockText text.now) }
    ensures block { IfOk result (λ read. IfSome read (λ bytes. SpellsBlock text.now (block_with bytes.items))) }
{
    if text == "-" {
        return Ok(Some(Vec::new(alloc)));
    }
    parse_bytes(alloc, text)
}

/// The block that begins with these bytes, as far as it has room; those behind them are zero.
pub fn block_with(bytes: &[u8]) -> [u8; BLOCK_LEN]
    ensures { result ≡ block_with bytes.now }
{
    let mut block = [0u8; BLOCK_LEN];
    let start = &bytes[..512usize.min(bytes.len())];
    block[..start.len()].copy_from_slice(start);
    block
}
