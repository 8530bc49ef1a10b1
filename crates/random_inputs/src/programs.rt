// Pseudo-random bytes, of which many are programs.

ghost use Rattle.std.specs.Prelude.{◌<◌, length};

use pseudo_random::Numbers;
use std::alloc::{AllocError, Global};
use udf_code::Op;

/// Four bytes that are mostly a word.
fn random_word(numbers: &mut Numbers) -> [u8; 4] {
    let a = numbers.byte(6);
    let b = numbers.byte(6);
    let c = numbers.byte(6);
    match numbers.below(19) {
        0..=4 => [Op::Set.code(), a, numbers.byte(250), numbers.byte(2)],
        5 => [Op::Mov.code(), a, b, 0],
        6..=8 => {
            let op = numbers.pick(&[Op::Add, Op::Sub, Op::Mul, Op::Div, Op::Rem, Op::And]);
            [op.code(), a, b, c]
        }
        9 => [Op::Shr.code(), a, b, numbers.byte(32)],
        10..=12 => {
            let op = numbers.pick(&[Op::Load1, Op::Load2, Op::Load4]);
            [op.code(), a, b, 0]
        }
        13 | 14 => [Op::Emit.code(), a, b, 0],
        15 => [numbers.pick(&[Op::IfLess, Op::IfEqual]).code(), a, b, 0],
        16 => [Op::For.code(), a, numbers.byte(60), 0],
        17 => [Op::Else.code(), 0, 0, 0],
        _ => [Op::End.code(), 0, 0, 0],
    }
}

/// Up to nineteen words and the ENDs that they lack. An END where nothing is open is left out, and a KEEP stands after some
/// FORs.
pub fn random_program(alloc: Global, numbers: &mut Numbers) -> Result<Vec<u8>, AllocError> {
    let mut bytes = Vec::new(alloc);
    let mut open: u8 = 0;
    for _ in 0..numbers.below(20) {
        let word = random_word(numbers);
        match Op::of_code(word[0]) {
            Some(Op::End) if open == 0 => continue,
            Some(Op::End) => open -= 1,
            Some(Op::IfLess | Op::IfEqual | Op::For) => open = open.saturating_add(1),
            _ => {}
        }
        bytes.extend_from_slice(&word)?;
        if word[0] == Op::For.code() && numbers.below(2) == 0 {
            let keep = [Op::Keep.code(), numbers.byte(6), 200, numbers.byte(2)];
            bytes.extend_from_slice(&keep)?;
        }
    }
    for _ in 0..open {
        bytes.extend_from_slice(&[Op::End.code(), 0, 0, 0])?;
    }
    Ok(bytes)
}

/// The bytes with up to three of them changed to one of these.
pub fn changed(
    alloc: Global,
    numbers: &mut Numbers,
    bytes: &[u8],
    choices: &[u8],
) -> Result<Vec<u8>, AllocError>
    requires some { 0 < length choices.now }
    requires few { length choices.now < 256 }
{
    let mut all = bytes.to_vec(alloc)?;
    for _ in 0..numbers.below(4) {
        let at = numbers.below(250) as usize;
        let byte = numbers.pick(choices);
        if at < all.len() {
            all[at] = byte;
        }
    }
    Ok(all)
}

/// Up to 23 bytes.
pub fn random_bytes(alloc: Global, numbers: &mut Numbers) -> Result<Vec<u8>, AllocError> {
    let mut bytes = Vec::new(alloc);
    for _ in 0..numbers.below(24) {
        bytes.push(numbers.byte(256))?;
    }
    Ok(bytes)
}
