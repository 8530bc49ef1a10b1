// The calls of a transcript, on a volume of file system 1 on a disk in memory.

ghost use Rattle.std.specs.Prelude.{◌<◌};

use crate::reports::times_of;
use crate::text::Text;
use crate::volumes::{Disk, Made, make_volume};
use crate::words::{Asked, Change, Look, Make, Verb, read_line};
use std::alloc::{AllocError, Global};
use std::thread::Threads;
use store_types::BLOCK_LEN;
use treefs::{Attributes, Volume};
use treefs_byte_plans::{Attributes as Settings, Owner};
use treefs_check::check;
use treefs_format::Kind;
use treefs_lookup::{find_block, find_entry, find_inode, read, read_link};
use treefs_model::Fault;
use treefs_paths::find_path;
use treefs_puts::write_begun;
use xn_state::Store;

/// The most bytes that stand in an inode's own block.
const MOST_BYTES: usize = 384;

/// The volume of a transcript.
#[derive(Drop)]
pub struct Player {
    alloc: Global,
    made: Option<Made>,
}

/// What a new inode of these permissions says beside.
fn attributes(permissions: u16) -> Attributes
    requires { permissions < 4096 }
    ensures { result.permissions < 4096 }
{
    Attributes {
        permissions,
        uid: 0,
        gid: 0,
        generation: 0,
    }
}

impl Player {
    /// One that has no volume yet.
    pub fn new(alloc: Global) -> Player {
        Player { alloc, made: None }
    }

    /// Does what a line asks for, and answers what it prints; `None` where the line is no call.
    pub fn call(
        &mut self,
        rt: &(impl Threads + Sync),
        line: &str,
    ) -> Result<Option<String>, AllocError> {
        let Some(asked) = read_line(self.alloc, line)? else {
            return Ok(None);
        };
        if let Verb::Mkfs = asked.verb
            && !self.mkfs(rt, &asked)?
        {
            return Ok(None);
        }
        match &mut self.made {
            Some(made) => Ok(Some(printed(self.alloc, made, &asked)?)),
            None => Ok(None),
        }
    }

    /// Makes the volume, and answers whether there is one.
    fn mkfs(&mut self, rt: &(impl Threads + Sync), asked: &Asked) -> Result<bool, AllocError> {
        let (Some(blocks), Some(seed)) = (asked.some_number(1), asked.some_number(2)) else {
            return Ok(false);
        };
        let made = make_volume(rt, self.alloc, blocks, seed)?;
        if made.is_none() {
            return Ok(false);
        }
        self.made = made;
        Ok(true)
    }
}

/// What a call prints.
fn printed(alloc: Global, made: &mut Made, asked: &Asked) -> Result<String, AllocError> {
    let mut told = Text::new(alloc);
    answer(alloc, made, asked, &mut told)?;
    let mut printed = made.store.take_lines(alloc);
    printed.put("= ");
    printed.put_all(&told);
    printed.put("\n");
    printed.finished()
}

/// Makes a call or a step of the device, and tells its answer.
fn answer(
    alloc: Global,
    made: &mut Made,
    asked: &Asked,
    told: &mut Text,
) -> Result<(), AllocError> {
    let Made { store, volume } = made;
    match asked.verb {
        Verb::Wave => told.stepped(store.wave(alloc)),
        Verb::Sync => told.answer(write_all(alloc, store, volume)),
        Verb::Quiet => {
            store.be_quiet();
            told.put("ok");
        }
        _ => call(alloc, store, volume, asked, told)?,
    }
    if let Verb::Flush = asked.verb {
        store.drain();
    }
    Ok(())
}

/// Writes the times, and then all that is pending in waves, and answers how many these were.
pub fn write_all(alloc: Global, store: &mut Disk, volume: &mut Volume) -> Result<u32, Fault> {
    volume.write_times(alloc, store)?;
    match store.flush(alloc) {
        Ok(waves) => Ok(waves),
        Err(refusal) => Err(Fault::Kernel(refusal)),
    }
}

/// Makes a call, and tells its answer. Before a flush the times are written, of the other steps nothing is done.
fn call<S: Store>(
    alloc: Global,
    store: &mut S,
    volume: &mut Volume,
    asked: &Asked,
    told: &mut Text,
) -> Result<(), AllocError> {
    match asked.verb {
        Verb::Make(make) => told.answer(self::make(alloc, store, volume, make, asked)),
        Verb::Symlink => {
            let made = put(alloc, store, volume, asked, Kind::SymbolicLink, 0o777);
            told.answer(made);
        }
        Verb::Change(change) => told.done(self::change(alloc, store, volume, change, asked)),
        Verb::Write => {
            let (inode, at) = (asked.number(1), asked.size(2));
            told.written(volume.write_some(alloc, store, inode, at, &asked.bytes));
        }
        Verb::More => {
            let block = asked.number(1);
            told.written(append(alloc, store, volume, block, &asked.bytes));
        }
        Verb::Check => told.checked(&check(alloc, store, volume.tree)?),
        Verb::Look(look) => return self::look(alloc, store, volume, look, asked, told),
        Verb::Time => {
            volume.memory.clock = asked.time(1);
            told.put("ok");
        }
        Verb::Flush => {
            told.done(volume.write_times(alloc, store));
        }
        Verb::Mkfs | Verb::Wave | Verb::Sync | Verb::Quiet => told.put("ok"),
    }
    Ok(())
}

/// Makes a file or a directory.
fn make<S: Store>(
    alloc: Global,
    store: &mut S,
    volume: &mut Volume,
    make: Make,
    asked: &Asked,
) -> Result<u32, Fault> {
    let first = asked.number(1);
    match make {
        Make::Create => {
            let attributes = attributes(asked.permissions(0o644));
            volume.create(alloc, store, first, &asked.name, attributes)
        }
        Make::Mkdir => {
            let attributes = attributes(asked.permissions(0o755));
            volume.mkdir(alloc, store, first, &asked.name, attributes)
        }
        Make::Begin => begin(store, volume, asked),
        Make::Commit => {
            let replace = asked.says(4, "replace");
            volume.commit(alloc, store, first, asked.number(2), &asked.name, replace)
        }
        Make::Put => put(alloc, store, volume, asked, Kind::File, 0o644),
    }
}

/// Begins a file with at most 384 bytes.
fn begin<S: Store>(store: &mut S, volume: &Volume, asked: &Asked) -> Result<u32, Fault> {
    if asked.bytes.len() > MOST_BYTES {
        return Err(Fault::TooLarge);
    }
    volume.begin(store, Kind::File, attributes(0o644), &asked.bytes)
}

/// Begins an inode, writes all its bytes piece by piece, and gives it a name. Where one of these calls is refused, the inode is given up.
fn put<S: Store>(
    alloc: Global,
    store: &mut S,
    volume: &mut Volume,
    asked: &Asked,
    kind: Kind,
    permissions: u16,
) -> Result<u32, Fault>
    requires { permissions < 4096 }
{
    let length = asked.bytes.len().min(MOST_BYTES);
    let (head, rest) = asked.bytes.split_at(length);
    let block = volume.begin(store, kind, attributes(permissions), head)?;
    match write_and_name(alloc, store, volume, asked, kind, block, rest) {
        Ok(number) => Ok(number),
        Err(fault) => {
            let _given_up = volume.give_up(alloc, store, block);
            Err(fault)
        }
    }
}

/// Writes what is left of an inode that was begun, and gives it a name, where a file takes the place of another.
fn write_and_name<S: Store>(
    alloc: Global,
    store: &mut S,
    volume: &mut Volume,
    asked: &Asked,
    kind: Kind,
    block: u32,
    rest: &[u8],
) -> Result<u32, Fault> {
    append_all(alloc, store, volume, block, rest)?;
    let replace = match kind {
        Kind::File => true,
        Kind::Directory | Kind::SymbolicLink => false,
    };
    let directory = asked.number(1);
    volume.commit(alloc, store, block, directory, &asked.name, replace)
}

/// Writes a piece of bytes behind the end of an inode that was begun.
fn append<S: Store>(
    alloc: Global,
    store: &mut S,
    volume: &Volume,
    block: u32,
    bytes: &[u8],
) -> Result<usize, Fault> {
    let end = match find_block(store, volume.tree.fs, block) {
        Ok(found) => found.fields.size,
        Err(_) => 0,
    };
    write_begun(alloc, store, volume, block, end, bytes)
}

/// Writes bytes behind the end of an inode that was begun, piece by piece.
fn append_all<S: Store>(
    alloc: Global,
    store: &mut S,
    volume: &Volume,
    block: u32,
    bytes: &[u8],
) -> Result<(), Fault> {
    let mut rest = bytes;
    for _piece in 0..bytes.len() {
        if rest.is_empty() {
            return Ok(());
        }
        let taken = append(alloc, store, volume, block, rest)?;
        rest = rest.get(taken..).unwrap_or(&[]);
    }
    Ok(())
}

/// Changes names, bytes or attributes.
fn change<S: Store>(
    alloc: Global,
    store: &mut S,
    volume: &mut Volume,
    change: Change,
    asked: &Asked,
) -> Result<(), Fault> {
    let (first, name) = (asked.number(1), asked.name.as_slice());
    match change {
        Change::Link => volume.link(alloc, store, first, asked.number(2), name),
        Change::Unlink => volume.unlink(alloc, store, first, name),
        Change::Rmdir => volume.rmdir(alloc, store, first, name),
        Change::Rename => {
            volume.rename(alloc, store, first, name, asked.number(3), &asked.new_name)
        }
        Change::Truncate => volume.truncate(alloc, store, first, asked.size(2)),
        Change::Trim => volume.trim(alloc, store, first),
        Change::Reap => reap(alloc, store, volume, asked),
        Change::Utimens => volume.set_mtime(store, first, asked.time(2)),
        Change::Chmod => {
            let settings = Settings {
                permissions: Some(asked.mode(2)),
                owner: None,
                mtime: None,
            };
            volume.set_attributes(alloc, store, first, settings)
        }
        Change::Chown => {
            let owner = Owner {
                uid: asked.number(2),
                gid: asked.number(3),
            };
            let settings = Settings {
                permissions: None,
                owner: Some(owner),
                mtime: None,
            };
            volume.set_attributes(alloc, store, first, settings)
        }
    }
}

/// Frees the inodes that are told, or else all that have no links, numbers rising.
fn reap<S: Store>(
    alloc: Global,
    store: &mut S,
    volume: &mut Volume,
    asked: &Asked,
) -> Result<(), Fault> {
    let mut numbers = asked.numbers(alloc);
    if numbers.is_empty() {
        let _copied = numbers.extend_from_slice(&volume.memory.orphans);
        numbers.sort_unstable();
    }
    volume.reap(alloc, store, &numbers)
}

/// Looks, and tells what there is.
fn look<S: Store>(
    alloc: Global,
    store: &S,
    volume: &Volume,
    look: Look,
    asked: &Asked,
    told: &mut Text,
) -> Result<(), AllocError> {
    let (fs, top, first) = (volume.tree.fs, volume.tree.top, asked.number(1));
    match look {
        Look::Lookup => match find_entry(store, fs, top, first, &asked.name) {
            Ok(slot) => told.number("", slot.number),
            Err(fault) => told.fault(fault),
        },
        Look::Stat => match find_inode(store, fs, top, first) {
            Ok(found) => told.found(times_of(volume, first, &found), found),
            Err(fault) => told.fault(fault),
        },
        Look::Readdir => told.listing(store, volume, first),
        Look::Read => {
            let mut bytes = vec![in alloc; 0u8; asked.number(3) as usize]?;
            let answer = read(store, fs, top, first, asked.size(2), &mut bytes);
            told.read(&bytes, answer);
        }
        Look::Path => {
            let is_last_followed = asked.says(3, "follow");
            told.answer(find_path(
                alloc,
                store,
                volume.tree,
                first,
                &asked.name,
                is_last_followed,
            ));
        }
        Look::Readlink => {
            let mut bytes = [0u8; BLOCK_LEN];
            let answer = read_link(store, fs, top, first, 0, &mut bytes);
            told.read(&bytes, answer);
        }
    }
    Ok(())
}
