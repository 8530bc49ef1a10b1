// The commands that a transcript may have.

use crate::bytes::{dump, parse_pairs, unescaped};
use crate::fault::PlayFault;
use crate::memory::MemoryFiles;
use crate::step::Step;
use crate::words::words_of;
use std::alloc::{AllocError, Global};
use std::thread::Threads;
use xnsim_line::{Files, line};

/// What a command did.
#[derive(Drop)]
pub struct Outcome {
    pub status: u8,
    pub out: Vec<u8>,
    pub err: Vec<u8>,
}

/// That a command printed a text.
fn printed(alloc: Global, text: &str) -> Result<Option<Outcome>, AllocError> {
    Ok(Some(Outcome {
        status: 0,
        out: Vec::from_slice(alloc, text.as_bytes())?,
        err: Vec::new(alloc),
    }))
}

/// That a command printed nothing, where it was done.
fn silent(alloc: Global, is_done: bool) -> Option<Outcome> {
    if !is_done {
        return None;
    }
    Some(Outcome {
        status: 0,
        out: Vec::new(alloc),
        err: Vec::new(alloc),
    })
}

/// The bytes of lines, each with its newline.
fn bytes_of_lines(alloc: Global, lines: &[&str]) -> Result<Vec<u8>, AllocError> {
    let mut bytes = Vec::new(alloc);
    for line in lines {
        bytes.extend_from_slice(line.as_bytes())?;
        bytes.push(b'\n')?;
    }
    Ok(bytes)
}

/// Does what the simulator does with these words, and these bytes on its standard input.
fn simulate(
    rt: &(impl Threads + Sync),
    alloc: Global,
    files: &mut MemoryFiles,
    words: &[&str],
    mut input: &[u8],
) -> Result<Outcome, AllocError> {
    let mut owned: Vec<String> = Vec::new(alloc);
    for word in words {
        owned.push(String::from_str(alloc, word)?)?;
    }
    let (mut out, mut err) = (Vec::new(alloc), Vec::new(alloc));
    let status = line(
        rt,
        alloc,
        owned.as_slice(),
        files,
        &mut input,
        &mut out,
        &mut err,
    );
    Ok(Outcome { status, out, err })
}

/// Does what the simulator does with the bytes of a file on its standard input.
fn simulate_from(
    rt: &(impl Threads + Sync),
    alloc: Global,
    files: &mut MemoryFiles,
    words: &[&str],
    name: &str,
) -> Result<Option<Outcome>, AllocError> {
    let Some(input) = files.read(alloc, name) else {
        return Ok(None);
    };
    Ok(Some(simulate(rt, alloc, files, words, input.as_slice())?))
}

/// Writes the bytes that a text spells to a file.
fn print_to(
    alloc: Global,
    files: &mut MemoryFiles,
    text: &str,
    name: &str,
) -> Result<Option<Outcome>, AllocError> {
    let Some(bytes) = unescaped(alloc, text)? else {
        return Ok(None);
    };
    Ok(silent(alloc, files.write_from(name, bytes.as_slice())))
}

/// The bytes of a file, and none where there is no file.
fn contents(alloc: Global, files: &MemoryFiles, name: &str) -> Result<Vec<u8>, AllocError> {
    match files.find(name) {
        Some(bytes) => Vec::from_slice(alloc, bytes),
        None => Ok(Vec::new(alloc)),
    }
}

/// Writes the bytes of one line, which begins with their offset, and answers whether the line may stand.
fn patch(alloc: Global, bytes: &mut Vec<u8>, line: &str) -> Result<bool, AllocError> {
    let Some((offset, digits)) = line.split_once(": ") else {
        return Ok(false);
    };
    let Ok(offset) = usize::from_str_radix(offset, 16) else {
        return Ok(false);
    };
    let Some(new) = parse_pairs(alloc, digits)? else {
        return Ok(false);
    };
    let Some(end) = offset.checked_add(new.len()) else {
        return Ok(false);
    };
    if bytes.len() < end {
        bytes.resize(end, 0)?;
    }
    bytes[offset..end].copy_from_slice(new.as_slice());
    Ok(true)
}

/// Writes the bytes of these lines into a file.
fn patch_file(
    alloc: Global,
    files: &mut MemoryFiles,
    name: &str,
    lines: &[&str],
) -> Result<Option<Outcome>, AllocError> {
    let mut bytes = contents(alloc, files, name)?;
    for line in lines {
        if !patch(alloc, &mut bytes, line)? {
            return Ok(None);
        }
    }
    Ok(silent(alloc, files.write_from(name, bytes.as_slice())))
}

/// Cuts a file off at a length, or lengthens it by zeros.
fn truncate(
    alloc: Global,
    files: &mut MemoryFiles,
    length: &str,
    name: &str,
) -> Result<Option<Outcome>, AllocError> {
    let Ok(length) = length.parse::<usize>() else {
        return Ok(None);
    };
    let mut bytes = contents(alloc, files, name)?;
    bytes.resize(length, 0)?;
    Ok(silent(alloc, files.write_from(name, bytes.as_slice())))
}

/// The bytes from an offset on, so many, or as many as there are.
fn part<'a>(bytes: &'a [u8], offset: &str, length: &str) -> Option<&'a [u8]> {
    let offset: usize = offset.parse().ok()?;
    let length: usize = length.parse().ok()?;
    let behind = bytes.get(offset..)?;
    Some(behind.get(..length).unwrap_or(behind))
}

/// Prints bytes of a file.
fn dump_file(
    alloc: Global,
    files: &MemoryFiles,
    offset: &str,
    length: &str,
    name: &str,
) -> Result<Option<Outcome>, AllocError> {
    let Some(bytes) = files.find(name) else {
        return Ok(None);
    };
    match part(bytes, offset, length) {
        Some(bytes) => printed(alloc, dump(alloc, bytes)?.as_str()),
        None => Ok(None),
    }
}

/// Prints how many bytes a file has.
fn count_bytes(
    alloc: Global,
    files: &MemoryFiles,
    name: &str,
) -> Result<Option<Outcome>, AllocError> {
    match files.find(name) {
        Some(bytes) => {
            let count = bytes.len();
            printed(alloc, format!(in alloc; "{count} {name}\n")?.as_str())
        }
        None => Ok(None),
    }
}

/// Copies a file.
fn copy(
    alloc: Global,
    files: &mut MemoryFiles,
    from: &str,
    to: &str,
) -> Result<Option<Outcome>, AllocError> {
    let bytes = contents(alloc, files, from)?;
    Ok(silent(alloc, files.write_from(to, bytes.as_slice())))
}

/// Says where two files differ.
fn compare_files(
    alloc: Global,
    files: &MemoryFiles,
    first: &str,
    second: &str,
) -> Result<Option<Outcome>, AllocError> {
    match (files.find(first), files.find(second)) {
        (Some(a), Some(b)) if a == b => Ok(silent(alloc, true)),
        (Some(_), Some(_)) => printed(
            alloc,
            format!(in alloc; "{first} {second} differ\n")?.as_str(),
        ),
        _ => Ok(None),
    }
}

/// Forbids to write a file, or that there be new ones.
fn forbid_writing(alloc: Global, files: &mut MemoryFiles, name: &str) -> Option<Outcome> {
    if name == "." {
        files.is_closed = true;
        return silent(alloc, true);
    }
    silent(alloc, files.forbid_writing(name))
}

/// Does what a command on files asks for. `None` is for words that are no such command, and for files that aren't there.
fn run_on_files(
    alloc: Global,
    files: &mut MemoryFiles,
    words: &[&str],
    given: &[&str],
) -> Result<Option<Outcome>, AllocError> {
    match words {
        ["cat", ">", name] => {
            let bytes = bytes_of_lines(alloc, given)?;
            Ok(silent(alloc, files.write_from(name, bytes.as_slice())))
        }
        ["printf", text, ">", name] => print_to(alloc, files, text, name),
        ["xxd", "-r", "-", name] => patch_file(alloc, files, name, given),
        ["xxd", "-p", "-s", offset, "-l", length, name] => {
            dump_file(alloc, files, offset, length, name)
        }
        ["truncate", "-s", length, name] => truncate(alloc, files, length, name),
        ["wc", "-c", name] => count_bytes(alloc, files, name),
        ["cp", from, to] => copy(alloc, files, from, to),
        ["cmp", first, second] => compare_files(alloc, files, first, second),
        ["chmod", "-r", name] => Ok(silent(alloc, files.forbid_reading(name))),
        ["chmod", "-w", name] => Ok(forbid_writing(alloc, files, name)),
        _ => Ok(None),
    }
}

/// Does what these words ask for.
fn run_words(
    rt: &(impl Threads + Sync),
    alloc: Global,
    files: &mut MemoryFiles,
    words: &[&str],
    given: &[&str],
) -> Result<Option<Outcome>, AllocError> {
    match words {
        ["xnsim", words @ .., "<", name] => simulate_from(rt, alloc, files, words, name),
        ["xnsim", words @ ..] => {
            let input = bytes_of_lines(alloc, given)?;
            Ok(Some(simulate(rt, alloc, files, words, input.as_slice())?))
        }
        _ => run_on_files(alloc, files, words, given),
    }
}

/// Does what a command of a transcript asks for.
pub fn run_step(
    rt: &(impl Threads + Sync),
    alloc: Global,
    files: &mut MemoryFiles,
    step: &Step<'_>,
) -> Result<Outcome, PlayFault> {
    let fault = PlayFault::NoCommand { line: step.line };
    let Some(words) = words_of(alloc, step.command)? else {
        return Err(fault);
    };
    run_words(rt, alloc, files, words.as_slice(), step.given)?.ok_or(fault)
}
