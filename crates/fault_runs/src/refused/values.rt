// Values that take memory to make. Each is made twice: want of memory in one of both is all that may keep it from being right.

ghost use Rattle.std.specs.Prelude.{◌<◌};

use crate::refused::clients::is_answered;
use crate::refused::disks::{has_state, is_checked, is_joined, is_mounted};
use crate::refused::tally::Miss;
use durable_floor::Floor;
use std::alloc::Global;
use std::io;
use std::sync::Wait;
use std::thread::Threads;
use templates::{builtin, read_block, write_block};
use udf_asm::{assemble, print};
use udf_code::{decode, encode, well_formed};
use udf_verify::{Role, judge, verify};

/// A program's text.
const TEXT: &str = "SET 1 4\nLD4 2 1\n";

/// Whether a program's text is printed as it was assembled, and its bytes are decoded as they were encoded.
fn is_spelled_again(alloc: Global) -> Result<bool, Miss> {
    let words = assemble(alloc, TEXT)?;
    let text = print(alloc, &words)?;
    let bytes = encode(alloc, &words)?;
    let again = decode(alloc, &bytes)?;
    Ok(text.as_str() == TEXT && again.as_slice() == words.as_slice())
}

/// Whether the verifier accepts a program, and keeps its words.
fn is_verified(alloc: Global) -> Result<bool, Miss> {
    let words = assemble(alloc, TEXT)?;
    if well_formed(&words).is_err() {
        return Ok(false);
    }
    let checked = verify(alloc, &words, Role::Owns)?;
    let is_kept = checked.words() == words.as_slice() && checked.role() == Role::Owns;
    Ok(is_kept && judge(&words, Role::Owns).is_ok())
}

/// Whether a template that is built in is read from the block that spells it, which begins with these bytes.
fn is_built_in(alloc: Global, ty: u32, head: &[u8]) -> Result<bool, Miss>
    requires { ty < 3 }
{
    let template = builtin(alloc, ty)?;
    let block = write_block(&template);
    let again = read_block(alloc, &block)?;
    Ok(block.starts_with(head) && write_block(&again) == block)
}

/// Whether the value of a number below 10 is right.
fn is_right<R: Threads + Wait + Sync>(rt: &R, alloc: Global, number: u32) -> Result<bool, Miss> {
    match number {
        0 => is_spelled_again(alloc),
        1 => is_verified(alloc),
        // Blocks of data: a program `SET 0 512` alone.
        2 => is_built_in(alloc, 2, &[0x58, 0x54, 0, 1, 1, 0, 0, 2]),
        // Block 0: a program of 26 words, and another one.
        3 => is_built_in(alloc, 0, &[0x58, 0x54, 26]),
        4 => is_joined(alloc),
        5 => is_checked(rt, alloc),
        6 => has_state(alloc),
        7 => is_mounted(rt, alloc),
        8 => {
            let (_floor, _publisher, readers) = Floor::new(alloc, 2)?;
            Ok(readers.len() == 2)
        }
        _ => is_answered(rt, alloc),
    }
}

/// Prints how many of 10 values are right, and how many calls for them found no memory.
pub fn print_values<R: Threads + Wait + Print + Sync>(rt: &R, alloc: Global) -> io::Result<()> {
    let (mut right, mut unmade) = (0u32, 0u32);
    for number in 0..10 {
        let made = match (is_right(rt, alloc, number), is_right(rt, alloc, number)) {
            (Ok(first), Ok(second)) => first && second,
            (Ok(made), Err(Miss::NoMemory)) | (Err(Miss::NoMemory), Ok(made)) => {
                unmade = unmade.saturating_add(1);
                made
            }
            _ => false,
        };
        if made {
            right = right.saturating_add(1);
        }
    }
    println!(rt; "values that are right: {right} of 10")?;
    println!(rt; "values for which there was no memory at once: {unmade}")
}
