// Plays transcripts of the calls of a file system of trees on a disk in memory: each call's edits of the store, and what it answers, are compared with what is
// written. The transcripts are those that its arguments name. Prints how many calls and lines were as written, or the first that was not. Behind `--tell` stand
// the names of files that have calls alone, of which it prints the transcripts. Behind `--make` stand the word of a call, `create`, `find`, `read` or `write`, and
// how often it is made on a volume of its own; nothing is noted of these.
// May touch: memory, threads, files, streams.
#![tactic(auto)]

mod calls;
mod device;
mod recorder;
mod reports;
mod text;
mod transcript;
mod volumes;
mod words;
mod works;

use std::process::ExitCode;
use std::thread::Threads;
use std::{env, fs, io};
use transcript::{Played, play, tell};
use works::Work;

/// Plays the transcript of a name, and counts what is as written. `false` where something is not, which is printed. Threads are started by the second handle
/// alone.
fn play_file(
    rt: &HostRuntime,
    threads: &(impl Threads + Sync),
    name: &str,
    sum: &mut Played,
) -> io::Result<bool> {
    let transcript = fs::read_to_string(rt, name)?;
    match play(threads, rt.alloc(), transcript.as_str()) {
        Ok(played) => {
            sum.calls = sum.calls.saturating_add(played.calls);
            sum.lines = sum.lines.saturating_add(played.lines);
            Ok(true)
        }
        Err(fault) => {
            println!(rt; "{name}: {fault}")?;
            Ok(false)
        }
    }
}

/// Plays transcripts, and prints what came of it.
fn play_files(
    rt: &HostRuntime,
    threads: &(impl Threads + Sync),
    names: &[String],
) -> io::Result<ExitCode> {
    let mut sum = Played { calls: 0, lines: 0 };
    for name in names {
        if !play_file(rt, threads, name.as_str(), &mut sum)? {
            return Ok(ExitCode::from(1));
        }
    }
    let (count, calls, lines) = (names.len(), sum.calls, sum.lines);
    println!(rt; "{count} transcripts, {calls} calls, {lines} lines, all as written")?;
    Ok(ExitCode::from(0))
}

/// Prints the transcripts of calls, up to a line that is no call.
fn tell_files(
    rt: &HostRuntime,
    threads: &(impl Threads + Sync),
    names: &[String],
) -> io::Result<ExitCode> {
    for name in names {
        let calls = fs::read_to_string(rt, name.as_str())?;
        if let Some(line) = tell(rt, threads, rt.alloc(), calls.as_str())? {
            println!(rt; "{name}: line {line} is no call")?;
            return Ok(ExitCode::from(1));
        }
    }
    Ok(ExitCode::from(0))
}

/// Makes the calls that a word names, so many rounds, and prints what they answered in sum.
fn make(
    rt: &HostRuntime,
    threads: &(impl Threads + Sync),
    word: &str,
    rounds: &str,
) -> io::Result<ExitCode> {
    let (Some(work), Ok(rounds)) = (Work::of_word(word), rounds.parse::<u32>()) else {
        println!(rt; "the words are create, find, read and write, each with a number of rounds")?;
        return Ok(ExitCode::from(2));
    };
    match work.run(threads, rt.alloc(), rounds)? {
        Ok(answer) => println!(rt; "{word} {rounds}: {answer}")?,
        Err(_) => println!(rt; "{word} {rounds}: refused")?,
    }
    Ok(ExitCode::from(0))
}

fn main(rt: HostRuntime) -> io::Result<ExitCode> {
    let words: Vec<String> = env::args(&rt)?.skip(1).collect(rt.alloc())?;
    match words.as_slice() {
        [first, names @ ..] if first.as_str() == "--tell" => tell_files(&rt, &rt, names),
        [first, word, rounds] if first.as_str() == "--make" => {
            make(&rt, &rt, word.as_str(), rounds.as_str())
        }
        names => play_files(&rt, &rt, names),
    }
}
