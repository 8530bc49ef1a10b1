// Takes pseudo-random bytes, texts and blocks through the libraries of metadata programs, and pseudo-random images through the check of a disk, and
// prints how they were answered. The same are taken in each run. The first two lines are what `bench/reference.py` prints, which is another
// implementation; of the next ones, up to the pairs, the last two numbers have to be the same. The line of the images is what
// `bench/reference_images.py` prints, written from the rules of images alone.
// May touch: memory, threads, streams.
#![tactic(auto)]

mod answers;
mod checks;
mod images;
mod language;
mod large;
mod programs;
mod spellings;
mod tally;

use answers::BLOCKS;
use checks::print_images;
use language::answer_all;
use spellings::{Spellings, try_blocks, try_bytes, try_texts};
use std::alloc::Global;
use std::io;

/// Prints how many were read, and how many of them are written as they were.
fn print_spellings(rt: &impl Print, name: &str, spellings: &Spellings) -> io::Result<()> {
    let (read, same) = (spellings.read, spellings.same);
    println!(rt; "{name}: read {read}, written again {same}")
}

/// Answers all bytes, texts and blocks, and prints how.
fn print_programs(rt: &impl Print, alloc: Global) -> io::Result<()> {
    let answers = answer_all(alloc)?;
    let (codes, texts) = (answers.codes, answers.texts);
    println!(rt; "bytes {codes} texts {texts} blocks {BLOCKS}")?;
    let (programs, accepted) = (answers.programs, answers.accepted);
    let (pairs, hash) = (answers.pairs, answers.hash);
    println!(rt; "programs {programs} accepted {accepted} pairs {pairs} hash {hash:#x}")?;
    let read = answers.programs;
    let same = read.saturating_sub(answers.respelled);
    print_spellings(rt, "programs", &Spellings { read, same })?;
    print_spellings(rt, "bytes", &try_bytes(alloc)?)?;
    print_spellings(rt, "texts", &try_texts(alloc)?)?;
    let (spellings, pairs) = try_blocks(alloc)?;
    print_spellings(rt, "template blocks", &spellings)?;
    println!(rt; "pairs {pairs}")
}

fn main(rt: HostRuntime) -> io::Result<()> {
    let alloc = rt.alloc();
    print_programs(&rt, alloc)?;
    print_images(&rt, alloc)
}
