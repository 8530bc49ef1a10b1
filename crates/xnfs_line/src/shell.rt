// A shell: words read line by line, done on one open volume.

ghost use Rattle.std.specs.Prelude.{◌≡◌, ℕ, IfOk, MatchResult, Ok, length};
ghost use Rattle.xnfs_line.specs.Shells.{IsFolderAt, IsWritten, NextLineDoes, ShellLineDoes, ShellRuns, ShellWordDoes, WordThenWritten, ended_status, of_shell};

use crate::changing::Sources;
use crate::fault::LineFault;
use crate::looking::is_looking;
use crate::status::{DONE, FAILED, USAGE};
use crate::system::{Terminal, time_of};
use crate::telling::told_unknown;
use crate::words::run_word;
use flush_store::FlushStore;
use host_trees::Host;
use std::alloc::{AllocError, Global};
use std::io::{BufRead, Read, Write};
use std::time::Clock;
use std::{io, str};
use store_types::Refusal;
use tree_lines::{Fault, Opened, Reason, TOP, View, at, find};
use xnfs_words::{Word, prepared, read_shell, split, unknown_shell_command};

/// A line has at most so many bytes before its end.
const LONGEST: u64 = 65_536;

/// What the lines of a shell have in common.
#[derive(Clone, Copy, Debug)]
pub struct Shell<'a> {
    /// The name of the disk, as it is told.
    pub image: &'a str,
    /// Whether lines are on the disk only at `sync` and at the end.
    pub is_lazy: bool,
    pub terminal: Terminal,
}

/// How a line of a shell ended.
#[derive(Clone, Copy, Debug, PartialEq, Eq)]
enum Ended {
    /// It was done, or passed over.
    Done,
    /// It could not be done, which was told.
    Failed,
    /// Its words could not be read, which was told.
    Unread,
    /// It is too long, which was told. No further line is read.
    TooLong,
    /// It ends the shell.
    Exit,
    /// A stream failed, which was told. No further line is done.
    Cut,
    /// The disk failed, which was told. Nothing more can be done.
    Broken,
}

impl Ended {
    /// The status of a program that ends so.
    fn status(self) -> u8
        ensures { result ≡ ended_status self }
    {
        match self {
            Ended::Done | Ended::Exit => DONE,
            Ended::Failed | Ended::Cut | Ended::Broken => FAILED,
            Ended::Unread | Ended::TooLong => USAGE,
        }
    }

    /// Whether a further line is read.
    fn goes_on(self) -> bool {
        matches!(self, Ended::Done | Ended::Failed | Ended::Unread)
    }
}

/// A line of a shell: its number, and what it says.
#[derive(Clone, Copy, Debug)]
struct Line<'l> {
    number: u64,
    text: &'l str,
}

/// What is told of words that can't be read: the lines of that text up to an empty one, as one.
fn told(alloc: Global, error: &clap::Error) -> Result<String, AllocError> {
    let text = format!(in alloc; "{error}")?;
    let mut told = String::new(alloc);
    for line in text.as_str().lines() {
        if line.is_empty() {
            break;
        }
        if !told.is_empty() {
            told.push(' ')?;
        }
        told.push_str(line.trim().trim_start_matches("error: "))?;
    }
    Ok(told)
}

/// What is told of the words of a line that can't be read.
fn told_usage(alloc: Global, words: &[&str], error: &clap::Error) -> Result<String, AllocError> {
    match unknown_shell_command(alloc, words)? {
        Some(unknown) => told_unknown(alloc, unknown, true),
        None => told(alloc, error),
    }
}

/// Tells why the words of a line can't be read, or prints the help that they ask for.
fn tell_usage(
    alloc: Global,
    (image, number): (&str, u64),
    words: &[&str],
    error: &clap::Error,
    out: &mut impl Write,
    err: &mut impl Write,
) -> Ended {
    if !error.use_stderr() {
        return match write!(out, "{error}") {
            Ok(()) => Ended::Done,
            Err(_) => Ended::Cut,
        };
    }
    match told_usage(alloc, words, error) {
        Ok(told) => {
            let _ = writeln!(err, "xnfs: {image}: line {number}: {told}");
        }
        Err(_) => {
            let _ = writeln!(err, "xnfs: {image}: line {number}: no memory");
        }
    }
    Ended::Unread
}

/// `cd`: paths begin from another folder.
fn change_folder<S: FlushStore + Drop>(
    opened: &mut Opened<S>,
    alloc: Global,
    path: &str,
) -> Result<(), Fault>
    ensures session { opened.new.session ≡ opened.old.session }
    ensures told { opened.new.told ≡ opened.old.told }
    ensures folder { MatchResult result (λ done. IsFolderAt (S.state_of opened.old.session.store) opened.old.session.volume opened.old.folder path.now
        opened.new.folder) (λ fault. opened.new.folder ≡ opened.old.folder) }
{
    let node = find(&opened.session, alloc, opened.folder, path, true)?;
    if !node.is_folder() {
        return Err(at(alloc, path, Reason::NoFolder));
    }
    opened.folder = node.number;
    Ok(())
}

/// The name of a folder in the folder in which it stands.
fn name_in<V: View>(
    view: &V,
    alloc: Global,
    (above, folder): (u32, u32),
) -> Result<Vec<u8>, Reason> {
    for named in view.names(alloc, above)? {
        if named.number == folder {
            return Ok(named.name);
        }
    }
    Err(Reason::Missing)
}

/// The path of a folder from the top one.
fn path_of<V: View>(view: &V, alloc: Global, folder: u32) -> Result<Vec<u8>, Reason> {
    let mut path = Vec::new(alloc);
    let mut folder = folder;
    for _level in 0..u32::MAX {
        if folder == TOP {
            break;
        }
        let above = view.find(alloc, folder, b"..", true)?;
        let mut longer = Vec::from_slice(alloc, b"/")?;
        longer.extend_from_slice(&name_in(view, alloc, (above, folder))?)?;
        longer.extend_from_slice(&path)?;
        path = longer;
        folder = above;
    }
    if path.is_empty() {
        path.push(b'/')?;
    }
    Ok(path)
}

/// `pwd`: the path of the folder from which paths begin.
fn print_folder<S: FlushStore + Drop>(
    opened: &Opened<S>,
    alloc: Global,
    out: &mut impl Write,
) -> Result<(), Fault> {
    match path_of(&opened.session, alloc, opened.folder) {
        Ok(path) => {
            let path = tree_lines::shown(alloc, &path)?;
            writeln!(out, "{path}")?;
            Ok(())
        }
        Err(reason) => Err(at(alloc, ".", reason)),
    }
}

/// Whether a word is one of shells alone, which looks or changes no name and no file.
fn is_of_shell(word: &Word) -> bool
    ensures { result ≡ of_shell word.now }
{
    matches!(word, Word::ChangeFolder { .. } | Word::Folder | Word::Sync)
}

/// Does what a word asks for that is no word of shells alone. What it changed is on the disk then, but where the shell is lazy.
fn run_volume_word<H: Host, S: FlushStore + Drop>(
    host: &H,
    opened: &mut Opened<S>,
    alloc: Global,
    asked: (&Word, Shell),
    out: &mut impl Write,
) -> Result<(), Fault>
    ensures types { S.types_of opened.new.session.store ≡ S.types_of opened.old.session.store }
    ensures folder { opened.new.folder ≡ opened.old.folder }
    ensures does { WordThenWritten (S.types_of opened.old.session.store) asked.entry.1.is_lazy opened.old.folder asked.entry.0.now
        opened.old.told opened.new.told (S.state_of opened.old.session.store) (S.state_of opened.new.session.store)
        opened.old.session.volume opened.new.session.volume result }
{
    let (word, shell) = asked;
    let sources = Sources {
        disk: shell.image,
        has_lines: true,
    };
    let mut none: &[u8] = &[];
    let done = run_word(host, opened, alloc, (word, sources), &mut none, out);
    if shell.is_lazy || is_looking(word) {
        return done;
    }
    sync_behind(opened, alloc, done)
}

/// Does what a word of a shell asks for. What it changed is on the disk then, but where the shell is lazy.
fn run_shell_word<H: Host, S: FlushStore + Drop>(
    host: &H,
    opened: &mut Opened<S>,
    alloc: Global,
    asked: (&Word, Shell),
    out: &mut impl Write,
) -> Result<(), Fault>
    ensures types { S.types_of opened.new.session.store ≡ S.types_of opened.old.session.store }
    ensures does { ShellWordDoes (S.types_of opened.old.session.store) asked.entry.1.is_lazy opened.old.folder opened.new.folder asked.entry.0.now
        opened.old.told opened.new.told (S.state_of opened.old.session.store) (S.state_of opened.new.session.store)
        opened.old.session.volume opened.new.session.volume result }
{
    let word = asked.0;
    if !is_of_shell(word) {
        return run_volume_word(host, opened, alloc, asked, out);
    }
    match word {
        Word::ChangeFolder { path } => change_folder(opened, alloc, path),
        Word::Folder => print_folder(opened, alloc, out),
        Word::Sync => opened.sync(alloc),
        _ => Ok(()),
    }
}

/// Writes what a word left pending. After a failure of the disk nothing more is written.
fn sync_behind<S: FlushStore + Drop>(
    opened: &mut Opened<S>,
    alloc: Global,
    done: Result<(), Fault>,
) -> Result<(), Fault>
    ensures types { S.types_of opened.new.session.store ≡ S.types_of opened.old.session.store }
    ensures folder { opened.new.folder ≡ opened.old.folder }
    ensures told { opened.new.told ≡ opened.old.told }
    ensures written { IsWritten (S.types_of opened.old.session.store) opened.old.folder done (S.state_of opened.old.session.store)
        (S.state_of opened.new.session.store) opened.old.session.volume opened.new.session.volume result }
{
    if opened.is_broken() {
        done?;
        return Err(Fault::Flush(Refusal::Device));
    }
    let synced = opened.sync(alloc);
    done?;
    synced
}

/// Tells what a line of a shell left out.
fn tell_left_out(told: &[Fault], line: (&str, u64), err: &mut impl Write) {
    let (image, number) = line;
    for fault in told {
        let _ = writeln!(err, "xnfs: {image}: line {number}: {fault}");
    }
}

/// Tells what a line of a shell left out, and its fault, and answers how it ended.
fn tell_ended<S: FlushStore + Drop>(
    opened: &mut Opened<S>,
    alloc: Global,
    line: (&str, u64),
    done: Result<(), Fault>,
    out: &mut impl Write,
    err: &mut impl Write,
) -> Ended
    ensures session { opened.new.session ≡ opened.old.session }
    ensures folder { opened.new.folder ≡ opened.old.folder }
    ensures ended { ended_status result ≡ 0 → (done ≡ Ok tt) × (length opened.old.told.faults.items ≡ 0) }
{
    let (image, number) = line;
    let told = opened.told.take(alloc);
    if !told.is_empty() || done.is_err() {
        let _ = out.flush();
    }
    tell_left_out(&told, line, err);
    match done {
        Ok(()) if told.is_empty() => Ended::Done,
        Ok(()) => Ended::Failed,
        Err(fault) => {
            let _ = writeln!(err, "xnfs: {image}: line {number}: {fault}");
            ended_by(&fault, opened.is_broken())
        }
    }
}

/// How a line ends with a fault, which may be that of a disk that is broken from then on.
fn ended_by(fault: &Fault, is_broken: bool) -> Ended
    ensures { ended_status result ≡ 1 }
{
    match fault {
        _ if is_broken => Ended::Broken,
        Fault::Stream(_) => Ended::Cut,
        _ => Ended::Failed,
    }
}

/// Does what a word asks for that was read, and tells its fault.
fn run_read_word<H: Host, S: FlushStore + Drop>(
    host: &H,
    opened: &mut Opened<S>,
    alloc: Global,
    asked: (Shell, u64),
    word: &Word,
    out: &mut impl Write,
    err: &mut impl Write,
) -> Ended
    ensures types { S.types_of opened.new.session.store ≡ S.types_of opened.old.session.store }
    ensures does { ShellLineDoes (S.types_of opened.old.session.store) asked.entry.0.is_lazy (ended_status result) opened.old.folder opened.new.folder
        (S.state_of opened.old.session.store) (S.state_of opened.new.session.store) opened.old.session.volume opened.new.session.volume }
{
    let (shell, number) = asked;
    let done = run_shell_word(host, opened, alloc, (word, shell), out);
    tell_ended(opened, alloc, (shell.image, number), done, out, err)
}

/// Does what the words of a line ask for, and tells its fault.
fn run_words<H: Host, S: FlushStore + Drop>(
    host: &H,
    opened: &mut Opened<S>,
    alloc: Global,
    asked: (Shell, u64),
    words: &[&str],
    out: &mut impl Write,
    err: &mut impl Write,
) -> Ended
    ensures types { S.types_of opened.new.session.store ≡ S.types_of opened.old.session.store }
    ensures does { ShellLineDoes (S.types_of opened.old.session.store) asked.entry.0.is_lazy (ended_status result) opened.old.folder opened.new.folder
        (S.state_of opened.old.session.store) (S.state_of opened.new.session.store) opened.old.session.volume opened.new.session.volume }
{
    let (shell, number) = asked;
    let line = (shell.image, number);
    let word = match read_shell(alloc, words) {
        Ok(Some(word)) => word,
        Ok(None) => return Ended::Unread,
        Err(error) => return tell_usage(alloc, line, words, &error, out, err),
    };
    if let Word::Exit = word {
        return Ended::Exit;
    }
    run_read_word(host, opened, alloc, asked, &word, out, err)
}

/// Does what a line of a shell asks for, and tells its fault. A line without words is passed over.
fn run_line<H: Host, S: FlushStore + Drop>(
    host: &H,
    opened: &mut Opened<S>,
    alloc: Global,
    asked: (Shell, Line),
    out: &mut impl Write,
    err: &mut impl Write,
) -> Ended
    ensures types { S.types_of opened.new.session.store ≡ S.types_of opened.old.session.store }
    ensures does { ShellLineDoes (S.types_of opened.old.session.store) asked.entry.0.is_lazy (ended_status result) opened.old.folder opened.new.folder
        (S.state_of opened.old.session.store) (S.state_of opened.new.session.store) opened.old.session.volume opened.new.session.volume }
{
    let (shell, line) = asked;
    let (image, number) = (shell.image, line.number);
    let words = match split(alloc, line.text) {
        Ok(Some(words)) => words,
        Ok(None) => {
            let _ = writeln!(err, "xnfs: {image}: line {number}: a quote is not closed");
            return Ended::Unread;
        }
        Err(_) => return no_memory(image, number, err),
    };
    match prepared(alloc, &words) {
        Ok(words) if words.is_empty() => Ended::Done,
        Ok(words) => run_words(host, opened, alloc, (shell, number), &words, out, err),
        Err(_) => no_memory(image, number, err),
    }
}

/// Tells that there is no memory for the words of a line.
fn no_memory(image: &str, number: u64, err: &mut impl Write) -> Ended {
    let _ = writeln!(err, "xnfs: {image}: line {number}: no memory");
    Ended::Failed
}

/// What a shell's input has next.
#[derive(Drop)]
enum Next {
    /// A line with its end.
    Line(Vec<u8>),
    TooLong,
    Nothing,
}

/// The next line of some input.
fn next_line(alloc: Global, input: &mut impl BufRead) -> io::Result<Next> {
    let mut line = Vec::new(alloc);
    let count = input.take(LONGEST + 1).read_until(b'\n', &mut line)?;
    Ok(if count == 0 {
        Next::Nothing
    } else if line.len() as u64 > LONGEST && line.last() != Some(&b'\n') {
        Next::TooLong
    } else {
        Next::Line(line)
    })
}

/// Does a line of a shell, whose bytes may be no text.
fn run_bytes<H: Host, S: FlushStore + Drop>(
    host: &H,
    opened: &mut Opened<S>,
    alloc: Global,
    asked: (Shell, u64, &[u8]),
    out: &mut impl Write,
    err: &mut impl Write,
) -> Ended
    ensures types { S.types_of opened.new.session.store ≡ S.types_of opened.old.session.store }
    ensures does { ShellLineDoes (S.types_of opened.old.session.store) asked.entry.0.is_lazy (ended_status result) opened.old.folder opened.new.folder
        (S.state_of opened.old.session.store) (S.state_of opened.new.session.store) opened.old.session.volume opened.new.session.volume }
{
    let (shell, number, line) = asked;
    match str::from_utf8(line) {
        Ok(text) => {
            let line = Line { number, text };
            run_line(host, opened, alloc, (shell, line), out, err)
        }
        Err(_) => {
            let image = shell.image;
            let _ = writeln!(err, "xnfs: {image}: line {number}: is not text");
            Ended::Unread
        }
    }
}

/// Writes the prompt of a shell at a terminal.
fn prompt(terminal: Terminal, out: &mut impl Write) -> io::Result<()> {
    if terminal == Terminal::Prompted {
        write!(out, "xnfs> ")?;
        out.flush()?;
    }
    Ok(())
}

/// Ends the line of a prompt behind which nothing came.
fn end_prompt(terminal: Terminal, out: &mut impl Write) -> io::Result<()> {
    if terminal == Terminal::Prompted {
        writeln!(out)?;
    }
    Ok(())
}

/// Tells that a line is too long, which ends the shell.
fn tell_too_long((image, number): (&str, u64), err: &mut impl Write) -> Ended {
    let _ = writeln!(
        err,
        "xnfs: {image}: line {number}: more than {LONGEST} bytes, here the shell ends"
    );
    Ended::TooLong
}

/// Does the next line of a shell, and answers how it ended; nothing at the end of its input. A fault is that of a stream or of the clock, before anything is
/// done.
fn run_next<H: Host, S: FlushStore + Drop>(
    outside: (&H, &impl Clock),
    opened: &mut Opened<S>,
    alloc: Global,
    asked: (Shell, u64),
    input: &mut impl BufRead,
    out: &mut impl Write,
    err: &mut impl Write,
) -> Result<Option<Ended>, LineFault>
    ensures types { S.types_of opened.new.session.store ≡ S.types_of opened.old.session.store }
    ensures does { NextLineDoes (S.types_of opened.old.session.store) asked.entry.0.is_lazy opened.old.folder opened.new.folder
        (S.state_of opened.old.session.store) (S.state_of opened.new.session.store) opened.old.session.volume opened.new.session.volume result }
{
    let ((host, clock), (shell, number)) = (outside, asked);
    prompt(shell.terminal, out)?;
    match next_line(alloc, input)? {
        Next::Nothing => {
            end_prompt(shell.terminal, out)?;
            Ok(None)
        }
        Next::TooLong => Ok(Some(tell_too_long((shell.image, number), err))),
        Next::Line(line) => {
            opened.session.set_clock(time_of(clock)?);
            let line = (shell, number, line.as_slice());
            Ok(Some(run_bytes(host, opened, alloc, line, out, err)))
        }
    }
}

/// Does the lines of a shell up to the end of its input, to `exit`, to one that is too long, or to a fault of the disk or a stream, and answers the greatest of
/// their statuses. A fault is that of a stream between two lines.
pub fn run_shell<H: Host, S: FlushStore + Drop>(
    outside: (&H, &impl Clock),
    opened: &mut Opened<S>,
    alloc: Global,
    shell: Shell,
    input: &mut impl BufRead,
    out: &mut impl Write,
    err: &mut impl Write,
) -> Result<u8, LineFault>
    ensures types { S.types_of opened.new.session.store ≡ S.types_of opened.old.session.store }
    ensures does { (status : ℕ) × ShellRuns (S.types_of opened.old.session.store) shell.entry.is_lazy status opened.old.folder opened.new.folder
        (S.state_of opened.old.session.store) (S.state_of opened.new.session.store) opened.old.session.volume opened.new.session.volume
        × IfOk result (λ told. told ≡ status) }
{
    let mut status = DONE;
    for number in 1..u64::MAX {
        let Some(ended) = run_next(outside, opened, alloc, (shell, number), input, out, err)? else {
            return Ok(status);
        };
        let _ = err.flush();
        status = status.max(ended.status());
        if !ended.goes_on() {
            return Ok(status);
        }
        out.flush()?;
    }
    Ok(status)
}
