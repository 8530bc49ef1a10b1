// Plays the transcripts that its arguments name, and prints how many lines were as written, or the first that wasn't.
// May touch: memory, threads, files, streams.
#![tactic(auto)]

use player::play;
use std::process::ExitCode;
use std::{env, fs, io};

fn main(rt: HostRuntime) -> io::Result<ExitCode> {
    let alloc = rt.alloc();
    let names: Vec<String> = env::args(&rt)?.skip(1).collect(alloc)?;
    let mut lines: usize = 0;
    for name in names.iter() {
        let transcript = fs::read_to_string(&rt, name.as_str())?;
        match play(&rt, alloc, transcript.as_str()) {
            Ok(played) => lines = lines.saturating_add(played),
            Err(fault) => {
                println!(rt; "{name}: {fault}")?;
                return Ok(ExitCode::from(1));
            }
        }
    }
    let count = names.len();
    println!(rt; "{count} transcripts, {lines} lines, all as written")?;
    Ok(ExitCode::from(0))
}
