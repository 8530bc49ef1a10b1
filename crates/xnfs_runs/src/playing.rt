// Plays transcripts.

use crate::fixed::Fixed;
use crate::steps::{Step, steps_of};
use crate::system::play_system;
use std::alloc::Global;
use std::fs::{File, Files};
use std::io::Write;
use std::thread::Threads;
use std::time::Clock;
use std::{fs, io, str};
use xnfs_line::{Terminal, line};
use xnfs_words::split;

/// Ends what was printed with a line, where its last one isn't ended; `%` stands there.
fn end_line(out: &mut Vec<u8>) -> io::Result<()> {
    match out.last() {
        None | Some(b'\n') => Ok(()),
        _ => writeln!(out, "%"),
    }
}

/// Runs the program with these words behind its name. Prints what it prints on standard output and then on standard error, and its status where that isn't 0.
fn run_program<R: Files<File = File> + AllocGlobal + Clock + Clone + Drop>(
    rt: &R,
    threads: &(impl Threads + Sync),
    alloc: Global,
    (terminal, words): (Terminal, &[String]),
    input: &[u8],
) -> io::Result<Vec<u8>> {
    let (mut out, mut err) = (Vec::new(alloc), Vec::new(alloc));
    let outside = (&Fixed, terminal);
    let status = line(
        rt, outside, threads, alloc, words, input, &mut out, &mut err,
    );
    end_line(&mut out)?;
    out.extend_from_slice(&err)?;
    end_line(&mut out)?;
    if status != 0 {
        writeln!(out, "[{status}]")?;
    }
    Ok(out)
}

/// What a step prints. `xnfs` runs the program, `terminal` too, as where a user sits at a terminal.
fn printed<R: Files<File = File> + AllocGlobal + Clock + Clone + Drop>(
    rt: &R,
    threads: &(impl Threads + Sync),
    alloc: Global,
    step: &Step,
) -> io::Result<Vec<u8>> {
    let words = match split(alloc, step.command)? {
        Some(words) => words,
        None => Vec::new(alloc),
    };
    let Some((word, behind)) = words.split_first() else {
        return Ok(Vec::new(alloc));
    };
    let input = step.input.as_bytes();
    match word.as_str() {
        "xnfs" => run_program(rt, threads, alloc, (Terminal::Silent, behind), input),
        "terminal" => run_program(rt, threads, alloc, (Terminal::Prompted, behind), input),
        word => {
            let path = behind.first().map_or("", |path| path.as_str());
            let mut out = Vec::new(alloc);
            play_system(rt, (word, path), input, &mut out)?;
            end_line(&mut out)?;
            Ok(out)
        }
    }
}

/// Plays the steps of a transcript, and prints each answer that isn't as written. Answers whether all are.
fn play_steps<R: Files<File = File> + AllocGlobal + Clock + Clone + Drop + Print>(
    rt: &R,
    threads: &(impl Threads + Sync),
    alloc: Global,
    name: &str,
    steps: &[Step],
) -> io::Result<bool> {
    let mut is_well = true;
    for step in steps {
        let printed = printed(rt, threads, alloc, step)?;
        if printed.as_slice() != step.wanted.as_bytes() {
            let printed = str::from_utf8(&printed).unwrap_or("no text\n");
            print!(rt; "{name}: {}\n{printed}", step.command)?;
            is_well = false;
        }
    }
    Ok(is_well)
}

/// Plays transcripts, and prints how many lines were as written, or the answers of the first one where some weren't. Answers whether all were.
pub fn play_transcripts<R: Files<File = File> + AllocGlobal + Clock + Clone + Drop + Print>(
    rt: &R,
    threads: &(impl Threads + Sync),
    alloc: Global,
    names: &[String],
) -> io::Result<bool> {
    let mut count: usize = 0;
    for name in names {
        let text = fs::read_to_string(rt, name.as_str())?;
        let steps = steps_of(alloc, text.as_str())?;
        if !play_steps(rt, threads, alloc, name, &steps)? {
            return Ok(false);
        }
        count = count.saturating_add(text.lines().count());
    }
    let transcripts = names.len();
    println!(rt; "{transcripts} transcripts, {count} lines, all as written")?;
    Ok(true)
}
