// Transcripts of calls: behind each line that is a call stand the lines that it prints.

use crate::calls::Player;
use std::alloc::{AllocError, Global};
use std::io;
use std::thread::Threads;
use thiserror::Error;

/// How much of a transcript was as written.
#[derive(Clone, Copy)]
pub struct Played {
    pub calls: usize,
    pub lines: usize,
}

/// Why a transcript could not be played to its end. Lines are counted from 1.
#[derive(Debug, Drop, Error)]
pub enum PlayFault {
    /// A call printed another line, or none, where one is written.
    #[error("line {line} is {written:?}, and it printed {printed:?}")]
    Differs {
        line: usize,
        written: String,
        printed: String,
    },
    /// A line that is no call.
    #[error("line {line} is no call")]
    NoCall {
        line: usize,
    },
    /// A growth was refused.
    #[error("no memory")]
    NoMemory,
}

impl From<AllocError> for PlayFault {
    fn from(_: AllocError) -> PlayFault {
        PlayFault::NoMemory
    }
}

/// How many lines a call printed, each as it is written from that line on, of lines that are counted from 0.
fn compared(alloc: Global, lines: &[&str], from: usize, printed: &str) -> Result<usize, PlayFault> {
    let mut at = from;
    for one in printed.lines() {
        let written = lines.get(at).copied();
        at = at.saturating_add(1);
        if written != Some(one) {
            return Err(PlayFault::Differs {
                line: at,
                written: String::from_str(alloc, written.unwrap_or(""))?,
                printed: String::from_str(alloc, one)?,
            });
        }
    }
    Ok(at.saturating_sub(from))
}

/// Plays the call at a line, and answers how many lines behind it are as written.
fn play_call(
    rt: &(impl Threads + Sync),
    alloc: Global,
    player: &mut Player,
    lines: &[&str],
    at: usize,
) -> Result<usize, PlayFault> {
    let line = at.saturating_add(1);
    match player.call(rt, lines.get(at).copied().unwrap_or(""))? {
        Some(printed) => compared(alloc, lines, line, printed.as_str()),
        None => Err(PlayFault::NoCall { line }),
    }
}

/// Plays a transcript, and answers how many calls and lines were as written.
pub fn play(
    rt: &(impl Threads + Sync),
    alloc: Global,
    transcript: &str,
) -> Result<Played, PlayFault> {
    let lines: Vec<&str> = transcript.lines().collect(alloc)?;
    let mut player = Player::new(alloc);
    let mut played = Played { calls: 0, lines: 0 };
    let mut next = 0usize;
    for at in 0..lines.len() {
        if at == next {
            let behind = play_call(rt, alloc, &mut player, &lines, at)?;
            next = at.saturating_add(behind).saturating_add(1);
            played.calls = played.calls.saturating_add(1);
            played.lines = played.lines.saturating_add(behind);
        }
    }
    Ok(played)
}

/// Makes the call that a line asks for, and prints it with what it prints. `false` where the line is no call.
fn tell_call(
    rt: &impl Print,
    threads: &(impl Threads + Sync),
    player: &mut Player,
    line: &str,
) -> io::Result<bool> {
    let Some(printed) = player.call(threads, line)? else {
        return Ok(false);
    };
    print!(rt; "{line}\n{printed}")?;
    Ok(true)
}

/// Makes the calls that lines ask for, and prints each with what it prints. Answers the first line that is no call, counted from 1.
pub fn tell(
    rt: &impl Print,
    threads: &(impl Threads + Sync),
    alloc: Global,
    calls: &str,
) -> io::Result<Option<usize>> {
    let mut player = Player::new(alloc);
    for (at, line) in calls.lines().enumerate() {
        if !tell_call(rt, threads, &mut player, line)? {
            return Ok(Some(at.saturating_add(1)));
        }
    }
    Ok(None)
}
