// Times the verifier, and runs of metadata programs.

mod rounds;
mod texts;

use anyhow::{Context, Result};
use rounds::{run, verify_often};
use std::alloc::Global;
use std::io;
use std::io::Read;
use std::rt::Clock;
use std::time::Instant;
use texts::{CATALOGUE, INODES, long_text};
use udf_asm::assemble;
use udf_verify::{Role, verify};

/// Runs and verifies programs, so often as standard input says.
pub fn time_programs(
    rt: &(impl Clock + Print + Eprint),
    alloc: Global,
    input: impl Read + Drop,
) -> Result<()> {
    let input = io::read_to_string(alloc, input)?;
    let rounds = input
        .trim_end()
        .parse::<u32>()
        .context("reading how many rounds")?;
    time_runs(rt, alloc, "catalogue", CATALOGUE, rounds)?;
    time_runs(rt, alloc, "inodes", INODES, rounds)?;
    time_verifier(rt, alloc, &long_text(alloc)?, rounds)
}

/// Times the runs of an owns program on a full block.
fn time_runs(
    rt: &(impl Clock + Print + Eprint),
    alloc: Global,
    name: &str,
    text: &str,
    rounds: u32,
) -> Result<()> {
    let words = assemble(alloc, text)?;
    let checked = verify(alloc, &words, Role::Owns)?;
    let start = Instant::now(rt)?;
    let total = run(&checked, rounds);
    let time = start.elapsed(rt)?.as_nanos();
    let steps = checked.cost();
    let pairs = total.pairs;
    let checksum = total.checksum;
    println!(rt; "{name}: {rounds} runs of {steps} steps, {pairs} pairs, checksum {checksum}")?;
    eprintln!(rt; "{name} {time}")?;
    Ok(())
}

/// Times the verifier at a program.
fn time_verifier(
    rt: &(impl Clock + Print + Eprint),
    alloc: Global,
    text: &str,
    rounds: u32,
) -> Result<()> {
    let words = assemble(alloc, text)?;
    let start = Instant::now(rt)?;
    let cost = verify_often(alloc, &words, rounds)?;
    let time = start.elapsed(rt)?.as_nanos();
    let count = words.len();
    println!(rt; "verifier: {rounds} times {count} words, cost {cost}")?;
    eprintln!(rt; "verifier {time}")?;
    Ok(())
}
