// A transcript is played.

ghost use Rattle.std.specs.Prelude.{◌+◌, ◌<◌, ◌≤◌, length, IfOk, IfSome};

use crate::compare::compare;
use crate::fault::PlayFault;
use crate::memory::MemoryFiles;
use crate::shell::run_step;
use crate::step::next_step;
use std::alloc::{AllocError, Global};
use std::thread::Threads;

/// The lines of a text.
fn lines_of<'a>(alloc: Global, text: &'a str) -> Result<Vec<&'a str>, AllocError> {
    text.split_terminator('\n').collect(alloc)
}

/// Plays the next command from a line on. It answers how many lines it printed, and where the lines behind it start.
fn play_next(
    rt: &(impl Threads + Sync),
    alloc: Global,
    files: &mut MemoryFiles,
    lines: &[&str],
    start: usize,
) -> Result<Option<(usize, usize)>, PlayFault>
    requires { start ≤ length lines.now }
    ensures { IfOk result (λ next. IfSome next (λ played. (start + played.0 < played.1) × (played.1 ≤ length lines.now))) }
{
    match next_step(lines.len(), &lines[start..])? {
        Some((step, behind)) => {
            let outcome = run_step(rt, alloc, files, &step)?;
            compare(alloc, &step, &outcome)?;
            Ok(Some((step.expected.len(), lines.len() - behind.len())))
        }
        None => Ok(None),
    }
}

/// Plays the commands that stand in these lines.
fn play_lines(rt: &(impl Threads + Sync), alloc: Global, lines: &[&str]) -> Result<usize, PlayFault>
    ensures { IfOk result (λ played. played ≤ length lines.now) }
{
    let mut files = MemoryFiles::new(alloc);
    let mut start = 0;
    let mut played = 0;
    for _ in 0..lines.len() {
        match play_next(rt, alloc, &mut files, lines, start)? {
            Some((count, end)) => {
                played += count;
                start = end;
            }
            None => return Ok(played),
        }
    }
    Ok(played)
}

/// Plays a transcript on files of its own, which are none at first. It answers how many lines the commands printed, all of
/// them as written, or the first line that isn't as written.
pub fn play(
    rt: &(impl Threads + Sync),
    alloc: Global,
    transcript: &str,
) -> Result<usize, PlayFault> {
    let lines = lines_of(alloc, transcript)?;
    play_lines(rt, alloc, lines.as_slice())
}
