// A line of the program.

ghost use Rattle.std.specs.Prelude.{◌≡◌, ◌⊎◌, IfOk, length};
ghost use Rattle.flush_store.specs.Written.{AllWritten};
ghost use Rattle.tree_lines.specs.Opening.{Closes};
ghost use Rattle.xnfs_line.specs.Lines.{AskedDoes, ChangesVolume, IsReady, WordIsRun, shell_of};

use crate::changing::Sources;
use crate::fault::LineFault;
use crate::looking::{Looked, is_looking, look};
use crate::shell::{Shell, run_shell};
use crate::status::{DONE, FAILED, USAGE};
use crate::system::{Terminal, random_key, time_of};
use crate::telling::{tell, tell_unknown, tell_usage};
use crate::words::{look_at, run_word};
use edit_list::Fs;
use file_disk::SystemFault;
use first_volumes::FirstVolume;
use flush_store::FlushStore;
use host_trees::{Host, RealHost};
use std::alloc::Global;
use std::fs::{File, Files};
use std::io::{BufRead, Cursor, Read, Write};
use std::random::RandomSource;
use std::thread::Threads;
use std::time::Clock;
use store_types::Refusal;
use tree_disks::{VolumeKind, find_volume, format, open, open_for_tests};
use tree_lines::{BlockTypes, Fault, Opened, Session, TOP, Told, reason_of};
use tree_looks::{count_damage, look_to_repair};
use xnfs_session::Stop;
use xnfs_words::{Request, Word, prepared, read, unknown_command};

/// So many bytes of standard input are read before the disk is opened.
const PIECE: u64 = 1_048_576;

/// What a line asks for on a disk: its name, the file system, the word, and when.
#[derive(Drop)]
struct Asked<'a> {
    image: &'a str,
    fs: Fs,
    word: Word<'a>,
    time: i64,
    terminal: Terminal,
}

/// The file system of a number.
fn file_system(number: u8) -> Result<Fs, LineFault> {
    match Fs::new(number) {
        Some(fs) => Ok(fs),
        None => Err(LineFault::NoFileSystem(number)),
    }
}

/// Tells what a line has left out, and answers its status.
fn status_of(told: &[Fault], image: &str, out: &mut impl Write, err: &mut impl Write) -> u8
    ensures { ((result ≡ 0) × (length told.now ≡ 0)) ⊎ (result ≡ 1) }
{
    for fault in told {
        let _ = tell(out, err, image, fault);
    }
    if told.is_empty() { DONE } else { FAILED }
}

/// The volume of trees of a store, to be looked at.
fn open_to_look<S: FlushStore + Drop>(
    alloc: Global,
    volume: (S, BlockTypes),
    asked: &Asked,
) -> Result<Session<S>, LineFault>
    ensures { IfOk result (λ session. session.store ≡ volume.0) }
{
    let (store, types) = volume;
    match Session::open_to_look(alloc, store, asked.fs, types, asked.time) {
        Ok(session) => Ok(session),
        Err(fault) => Err(Fault::Volume(reason_of(fault, 0)).into()),
    }
}

/// Does what a word that looks asks for on a volume of trees. Nothing is mended.
fn look_at_trees<H: Host, S: FlushStore + Drop>(
    host: &H,
    alloc: Global,
    (store, types): (S, BlockTypes),
    asked: &Asked,
    out: &mut impl Write,
    err: &mut impl Write,
) -> Result<u8, LineFault> {
    let session = open_to_look(alloc, (store, types), asked)?;
    let mut told = Told::nothing(alloc);
    let done = look_at(host, &session, alloc, &mut told, (&asked.word, TOP), out);
    let status = status_of(&told.take(alloc), asked.image, out, err);
    done?;
    Ok(status)
}

/// Does what a word that looks asks for on a volume of the first file system, behind a line that tells what it is. The fault is `FirstVolume` for any other
/// word.
fn look_at_first<H: Host, S: FlushStore + Drop>(
    host: &H,
    alloc: Global,
    store: S,
    asked: &Asked,
    out: &mut impl Write,
    err: &mut impl Write,
) -> Result<u8, LineFault> {
    if !is_looking(&asked.word) || matches!(&asked.word, Word::Check { .. }) {
        return Err(LineFault::FirstVolume);
    }
    let _status = tell(out, err, asked.image, &LineFault::FirstVolume);
    let volume = match FirstVolume::open(alloc, store, asked.fs) {
        Ok(volume) => volume,
        Err(reason) => return Err(Fault::Volume(reason).into()),
    };
    let mut told = Told::nothing(alloc);
    let looked = Looked {
        folder: TOP,
        has_attributes: false,
    };
    let done = look(host, &volume, alloc, &mut told, (&asked.word, looked), out);
    let status = status_of(&told.take(alloc), asked.image, out, err);
    done?;
    Ok(status)
}

/// Whether a word has the lines of a shell; and whether what they do is written at the end alone.
fn shell_of(word: &Word) -> Option<bool>
    ensures { result ≡ shell_of word.now }
{
    match word {
        Word::Shell { is_lazy } => Some(*is_lazy),
        _ => None,
    }
}

/// Does what the word of a line asks for on an open volume, tells what was left out, and answers the status.
fn run_alone<H: Host, S: FlushStore + Drop>(
    host: &H,
    opened: &mut Opened<S>,
    alloc: Global,
    asked: &Asked,
    input: &mut impl Read,
    out: &mut impl Write,
    err: &mut impl Write,
) -> Result<u8, LineFault>
    ensures types { S.types_of opened.new.session.store ≡ S.types_of opened.old.session.store }
    ensures does { WordIsRun (S.types_of opened.old.session.store) asked.now.word opened.old.folder opened.new.folder
        (S.state_of opened.old.session.store) (S.state_of opened.new.session.store) opened.old.session.volume opened.new.session.volume
        opened.old.told result }
{
    let image = asked.image;
    let sources = Sources {
        disk: image,
        has_lines: false,
    };
    let done = run_word(host, opened, alloc, (&asked.word, sources), input, out);
    let status = status_of(&opened.told.take(alloc), image, out, err);
    done?;
    Ok(status)
}

/// Does what the word of a line, or of each line of a shell, asks for on an open volume, and answers the status.
fn run_opened<H: Host, S: FlushStore + Drop>(
    outside: (&H, &impl Clock),
    opened: &mut Opened<S>,
    alloc: Global,
    asked: &Asked,
    input: &mut impl BufRead,
    out: &mut impl Write,
    err: &mut impl Write,
) -> Result<u8, LineFault>
    ensures types { S.types_of opened.new.session.store ≡ S.types_of opened.old.session.store }
    ensures does { AskedDoes (S.types_of opened.old.session.store) asked.now.word opened.old.folder opened.new.folder
        (S.state_of opened.old.session.store) (S.state_of opened.new.session.store) opened.old.session.volume opened.new.session.volume
        opened.old.told result }
{
    let Some(is_lazy) = shell_of(&asked.word) else {
        return run_alone(outside.0, opened, alloc, asked, input, out, err);
    };
    let shell = Shell {
        image: asked.image,
        is_lazy,
        terminal: asked.terminal,
    };
    run_shell(outside, opened, alloc, shell, input, out, err)
}

/// Looks at a volume of trees before it is opened to be changed, and answers the store, and whether the volume is to be mended though it was closed. It stays
/// as it is where it is damaged: the fault is `Faults`. `check --repair` may mend it, and prints what it will mend; its faults are those of `look_to_repair`.
fn look_before<S: FlushStore + Drop>(
    alloc: Global,
    volume: (S, BlockTypes),
    asked: &Asked,
    out: &mut impl Write,
) -> Result<(S, bool), LineFault>
    ensures { IfOk result (λ looked. looked.0 ≡ volume.0) }
{
    let (store, types) = volume;
    let session = open_to_look(alloc, (store, types), asked)?;
    let (store, tree) = (session.store(), session.volume().tree);
    let is_closed = session.volume().is_closed(store);
    if let Word::Check { is_json, .. } = &asked.word {
        let is_wrong = look_to_repair(alloc, (store, tree), is_closed, *is_json, out)?;
        return Ok((session.into_store(), is_wrong && is_closed));
    }
    match count_damage(alloc, store, tree)? {
        0 => Ok((session.into_store(), false)),
        damage => Err(Fault::Faults(damage).into()),
    }
}

/// Closes a volume behind what a word did on it, and answers that with the store: all is on the disk then. After a failure of the disk nothing more is
/// written, so that its fault is the one that is told.
fn close_behind<S: FlushStore + Drop>(
    alloc: Global,
    opened: Opened<S>,
    done: Result<u8, LineFault>,
    image: &str,
    out: &mut impl Write,
    err: &mut impl Write,
) -> Result<(Result<u8, LineFault>, S), LineFault>
    ensures done { IfOk result (λ ended. ended.0 ≡ done) }
    ensures types { IfOk result (λ ended. S.types_of ended.1 ≡ S.types_of opened.session.store) }
    ensures closes { IfOk result (λ ended. Closes (S.types_of opened.session.store) (S.state_of opened.session.store) (S.state_of ended.1)
        opened.session.volume) }
    ensures written { IfOk result (λ ended. AllWritten (S.state_of ended.1).lives) }
{
    if opened.is_broken() {
        return match done {
            Ok(_) => Err(Fault::Flush(Refusal::Device).into()),
            Err(fault) => Err(fault),
        };
    }
    match opened.close(alloc) {
        Ok(store) => Ok((done, store)),
        Err(fault) => {
            if let Err(first) = done {
                let _ = tell(out, err, image, &first);
            }
            Err(fault.into())
        }
    }
}

/// Opens a volume of trees that is not damaged, mended where a crash left it or a repair is asked for. The fault is that of a look before, of the opening, or
/// of a disk that fails.
fn open_volume<S: FlushStore + Drop>(
    alloc: Global,
    volume: (S, BlockTypes, SystemFault),
    asked: &Asked,
    out: &mut impl Write,
) -> Result<Opened<S>, LineFault>
    ensures types { IfOk result (λ opened. S.types_of opened.session.store ≡ S.types_of volume.0) }
    ensures ready { IfOk result (λ opened. IsReady (S.types_of volume.0) asked.now.fs volume.1 asked.now.time
        (S.state_of volume.0) (S.state_of opened.session.store) opened.session.volume) }
    ensures fresh { IfOk result (λ opened. (opened.folder ≡ 1) × (length opened.told.faults.items ≡ 0)) }
{
    let (store, types, system) = volume;
    let (store, is_to_mend) = look_before(alloc, (store, types), asked, out)?;
    let place = (asked.fs, types, asked.time);
    let mut opened = Opened::open(alloc, store, place, Some(system))?;
    if is_to_mend {
        opened.mend(alloc)?;
    }
    Ok(opened)
}

/// Does what a word asks for on a volume of trees, opened as `open_volume` does it, and closes that. Answers the status, or the fault that ended the word, with
/// the store: all that was done is on the disk then. The fault is that of an opening or a closing, or of a disk that fails.
fn change_trees<H: Host, S: FlushStore + Drop>(
    outside: (&H, &impl Clock),
    alloc: Global,
    volume: (S, BlockTypes, SystemFault),
    asked: &Asked,
    input: &mut impl BufRead,
    out: &mut impl Write,
    err: &mut impl Write,
) -> Result<(Result<u8, LineFault>, S), LineFault>
    ensures types { IfOk result (λ ended. S.types_of ended.1 ≡ S.types_of volume.0) }
    ensures does { IfOk result (λ ended. ChangesVolume (S.types_of volume.0) asked.now.fs volume.1 asked.now.time asked.now.word
        (S.state_of volume.0) (S.state_of ended.1) ended.0) }
    ensures written { IfOk result (λ ended. AllWritten (S.state_of ended.1).lives) }
{
    let mut opened = open_volume(alloc, volume, asked, out)?;
    let done = run_opened(outside, &mut opened, alloc, asked, input, out, err);
    close_behind(alloc, opened, done, asked.image, out, err)
}

/// Does what a line asks for on the disk of a store, and answers its status.
fn run_disk<H: Host, S: FlushStore + Drop>(
    (host, clock): (&H, &impl Clock),
    alloc: Global,
    (store, system): (S, SystemFault),
    asked: &Asked,
    input: &mut impl BufRead,
    out: &mut impl Write,
    err: &mut impl Write,
) -> Result<u8, LineFault> {
    match find_volume(alloc, &store, asked.fs)? {
        VolumeKind::Trees(types) if is_looking(&asked.word) => {
            look_at_trees(host, alloc, (store, types), asked, out, err)
        }
        VolumeKind::Trees(types) => {
            let volume = (store, types, system);
            let (done, _store) = change_trees(
                (host, clock),
                alloc,
                volume,
                asked,
                input,
                out,
                err,
            )?;
            done
        }
        VolumeKind::First => look_at_first(host, alloc, store, asked, out, err),
    }
}

/// What a word brings in from standard input, up to a piece. It is read before the disk is opened, so that who waits for a pipe shuts nobody out meanwhile, and
/// a pipe can begin at the same disk.
fn first_piece(alloc: Global, word: &Word, input: &mut impl Read) -> Result<Vec<u8>, LineFault> {
    let mut first = Vec::new(alloc);
    if let Word::Put { sources, .. } = word
        && sources.iter().any(|source| *source == "-")
    {
        let _count = input.take(PIECE).read_to_end(&mut first)?;
    }
    Ok(first)
}

/// Opens the disk that a line names, does what it asks for, and answers its status.
fn run_plain<R: Files<File = File> + AllocGlobal + Clock + Clone + Drop>(
    rt: &R,
    clock: &impl Clock,
    threads: &(impl Threads + Sync),
    alloc: Global,
    asked: &Asked,
    input: impl BufRead + Drop,
    out: &mut impl Write,
    err: &mut impl Write,
) -> Result<u8, LineFault> {
    let host = RealHost::new(rt)?;
    let mut input = input;
    let first = first_piece(alloc, &asked.word, &mut input)?;
    let mut input = Cursor::new(first).chain(input);
    let disk = open(rt, threads, alloc, asked.image, is_looking(&asked.word))?;
    run_disk((&host, clock), alloc, disk, asked, &mut input, out, err)
}

/// The same on a disk that makes so many writes of blocks at most, and syncs where it is told so. The fault is `Stopped` where a further write was asked for.
fn run_test<R: Files<File = File> + AllocGlobal + Clock + Clone + Drop>(
    rt: &R,
    clock: &impl Clock,
    threads: &(impl Threads + Sync),
    alloc: Global,
    (asked, writes, is_synced): (&Asked, u64, bool),
    input: impl BufRead + Drop,
    out: &mut impl Write,
    err: &mut impl Write,
) -> Result<u8, LineFault> {
    let host = RealHost::new(rt)?;
    let stop = Stop::after(alloc, writes)?;
    let disk = open_for_tests(rt, threads, alloc, asked.image, (&stop, is_synced))?;
    let mut input = input;
    let done = run_disk((&host, clock), alloc, disk, asked, &mut input, out, err);
    if stop.is_over() {
        return Err(LineFault::Stopped);
    }
    done
}

/// Does what a line asks for, and answers its status where that could be begun.
fn run<R: Files<File = File> + AllocGlobal + Clock + Clone + Drop>(
    rt: &R,
    (clock, terminal): (&(impl Clock + RandomSource), Terminal),
    threads: &(impl Threads + Sync),
    alloc: Global,
    request: Request,
    input: impl BufRead + Drop,
    out: &mut impl Write,
    err: &mut impl Write,
) -> Result<u8, LineFault> {
    if image_of(&request).is_empty() {
        return Err(LineFault::Empty("IMAGE"));
    }
    let time = time_of(clock)?;
    let status = match request {
        Request::Format { image, blocks, fs } => {
            let key = random_key(clock)?;
            let size = (blocks, file_system(fs)?);
            format(rt, threads, alloc, image, size, (&key, time))?;
            writeln!(out, "{image}: {blocks} blocks")?;
            DONE
        }
        Request::Disk {
            image,
            fs,
            stop,
            is_synced,
            word,
        } => {
            let asked = Asked {
                image,
                fs: file_system(fs)?,
                word,
                time,
                terminal,
            };
            if stop.is_none() && is_synced {
                run_plain(rt, clock, threads, alloc, &asked, input, out, err)?
            } else {
                let writes = stop.map_or(u64::MAX, u64::from);
                let test = (&asked, writes, is_synced);
                run_test(rt, clock, threads, alloc, test, input, out, err)?
            }
        }
    };
    out.flush()?;
    Ok(status)
}

/// The file of a disk that a line names.
fn image_of<'a>(request: &Request<'a>) -> &'a str {
    match request {
        Request::Format { image, .. } | Request::Disk { image, .. } => image,
    }
}

/// Does what words ask for that are read, and answers the program's status.
fn run_words<R: Files<File = File> + AllocGlobal + Clock + Clone + Drop>(
    rt: &R,
    (clock, terminal): (&(impl Clock + RandomSource), Terminal),
    threads: &(impl Threads + Sync),
    alloc: Global,
    words: &[&str],
    input: impl BufRead + Drop,
    out: &mut impl Write,
    err: &mut impl Write,
) -> u8 {
    let request = match read(alloc, words) {
        Ok(Some(request)) => request,
        Ok(None) => return USAGE,
        Err(error) => {
            return match unknown_command(alloc, words) {
                Ok(Some(unknown)) if error.use_stderr() => tell_unknown(alloc, err, unknown),
                _ => tell_usage(out, err, &error),
            };
        }
    };
    let image = image_of(&request);
    let outside = (clock, terminal);
    match run(rt, outside, threads, alloc, request, input, out, err) {
        Ok(status) => status,
        Err(fault) => tell(out, err, image, &fault),
    }
}

/// Does what the words behind the program's name ask for, and answers the program's status: 0 where it was done, and then it is on the disk; 1 where it could
/// not be, or not whole, which is told in a line for each path; 2 where the words can't be read. That of a shell is the greatest of its lines. The time, and
/// the random key of a new volume, come from the clock.
pub fn line<R: Files<File = File> + AllocGlobal + Clock + Clone + Drop>(
    rt: &R,
    (clock, terminal): (&(impl Clock + RandomSource), Terminal),
    threads: &(impl Threads + Sync),
    alloc: Global,
    words: &[String],
    input: impl BufRead + Drop,
    out: &mut impl Write,
    err: &mut impl Write,
) -> u8 {
    let outside = (clock, terminal);
    match prepared(alloc, words) {
        Ok(words) => run_words(rt, outside, threads, alloc, &words, input, out, err),
        Err(_) => {
            let _ = writeln!(err, "xnfs: no memory");
            FAILED
        }
    }
}
