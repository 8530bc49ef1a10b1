// The words `touch` and `truncate`.

ghost use Rattle.std.specs.Prelude.{◌≡◌, MatchResult, map};
ghost use Rattle.tree_changes.specs.Files.{CreateAt, FindsOrCreates, IsUnsized, IsUntouched, Sizes, Touches};
ghost use Rattle.tree_changes.specs.Paths.{AtPath, DoesPaths, IsRefused};

use crate::attributes::attributes_with;
use flush_store::FlushStore;
use std::alloc::Global;
use tree_lines::{Change, Create, Fault, Opened, Reason, View, Volume, at, place_of};

/// The permissions of a new file.
const PERMISSIONS: u16 = 0o644;

/// Makes an empty file at a path, and answers its number.
fn create<S: FlushStore + Drop>(
    opened: &mut Opened<S>,
    alloc: Global,
    path: &str,
) -> Result<u32, Fault>
    ensures types { S.types_of opened.new.session.store ≡ S.types_of opened.old.session.store }
    ensures folder { opened.new.folder ≡ opened.old.folder }
    ensures told { opened.new.told ≡ opened.old.told }
    ensures does { MatchResult result
        (λ number. CreateAt (S.types_of opened.old.session.store) opened.old.folder path.now
        (S.state_of opened.old.session.store) (S.state_of opened.new.session.store) opened.old.session.volume opened.new.session.volume (Ok number))
        (λ fault. IsRefused (CreateAt (S.types_of opened.old.session.store) opened.old.folder path.now
        (S.state_of opened.old.session.store) (S.state_of opened.new.session.store) opened.old.session.volume opened.new.session.volume)
        (S.state_of opened.old.session.store) (S.state_of opened.new.session.store) opened.old.session.volume opened.new.session.volume) }
{
    let place = place_of(&opened.session, alloc, opened.folder, path)?;
    if place.has_slash {
        return Err(at(alloc, path, Reason::Missing));
    }
    let create = Create {
        directory: place.folder,
        name: place.name,
        attributes: attributes_with(opened, PERMISSIONS),
    };
    opened.make_name(alloc, path.as_bytes(), &create)
}

/// The number of what stands at a path, over a symbolic link; an empty file is made where nothing does. Answers also whether it was made.
fn find_or_create<S: FlushStore + Drop>(
    opened: &mut Opened<S>,
    alloc: Global,
    path: &str,
) -> Result<(u32, bool), Fault>
    ensures types { S.types_of opened.new.session.store ≡ S.types_of opened.old.session.store }
    ensures folder { opened.new.folder ≡ opened.old.folder }
    ensures told { opened.new.told ≡ opened.old.told }
    ensures does { MatchResult result
        (λ found. FindsOrCreates (S.types_of opened.old.session.store) opened.old.folder path.now found.0 found.1
        (S.state_of opened.old.session.store) (S.state_of opened.new.session.store) opened.old.session.volume opened.new.session.volume)
        (λ fault. IsRefused (CreateAt (S.types_of opened.old.session.store) opened.old.folder path.now
        (S.state_of opened.old.session.store) (S.state_of opened.new.session.store) opened.old.session.volume opened.new.session.volume)
        (S.state_of opened.old.session.store) (S.state_of opened.new.session.store) opened.old.session.volume opened.new.session.volume) }
{
    if path.is_empty() {
        return Err(Fault::Volume(Reason::Empty));
    }
    match View::find(&opened.session, alloc, opened.folder, path.as_bytes(), true) {
        Ok(number) => Ok((number, false)),
        Err(Reason::Missing) => Ok((create(opened, alloc, path)?, true)),
        Err(reason) => Err(at(alloc, path, reason)),
    }
}

/// The time of the clock of a volume.
fn clock_of(volume: &Volume) -> i64
    ensures { result ≡ volume.now.memory.clock }
{
    volume.memory.clock
}

/// Sets when the content at a path changed; the time of the clock where none is told.
fn touch_one<S: FlushStore + Drop>(
    opened: &mut Opened<S>,
    alloc: Global,
    path: &str,
    time: Option<i64>,
) -> Result<(), Fault>
    ensures types { S.types_of opened.new.session.store ≡ S.types_of opened.old.session.store }
    ensures folder { opened.new.folder ≡ opened.old.folder }
    ensures told { opened.new.told ≡ opened.old.told }
    ensures does { AtPath (Touches time (S.types_of opened.old.session.store) opened.old.folder)
        (IsUntouched time (S.types_of opened.old.session.store) opened.old.folder) path.now
        (S.state_of opened.old.session.store) (S.state_of opened.new.session.store) opened.old.session.volume opened.new.session.volume result }
{
    let (number, is_new) = find_or_create(opened, alloc, path)?;
    let now = clock_of(opened.session.volume());
    match time {
        None if is_new => Ok(()),
        _ => {
            let mtime = time.unwrap_or(now);
            opened.make(alloc, path.as_bytes(), &Change::SetMtime { number, mtime })
        }
    }
}

/// `touch`: sets when the contents at some paths changed, in nanoseconds since 1970, or to the time of the clock. Where nothing stands an empty file is made.
pub fn touch<S: FlushStore + Drop>(
    opened: &mut Opened<S>,
    alloc: Global,
    paths: &[&str],
    time: Option<i64>,
) -> Result<(), Fault>
    ensures types { S.types_of opened.new.session.store ≡ S.types_of opened.old.session.store }
    ensures folder { opened.new.folder ≡ opened.old.folder }
    ensures does { DoesPaths (Touches time (S.types_of opened.old.session.store) opened.old.folder)
        (IsUntouched time (S.types_of opened.old.session.store) opened.old.folder) (map (λ path. path.now) paths.now)
        opened.old.told opened.new.told (S.state_of opened.old.session.store) (S.state_of opened.new.session.store)
        opened.old.session.volume opened.new.session.volume result }
{
    for path in paths {
        let done = touch_one(opened, alloc, path, time);
        opened.told.go_on(done)?;
    }
    Ok(())
}

/// Sets the size at a path.
fn truncate_one<S: FlushStore + Drop>(
    opened: &mut Opened<S>,
    alloc: Global,
    path: &str,
    size: u64,
) -> Result<(), Fault>
    ensures types { S.types_of opened.new.session.store ≡ S.types_of opened.old.session.store }
    ensures folder { opened.new.folder ≡ opened.old.folder }
    ensures told { opened.new.told ≡ opened.old.told }
    ensures does { AtPath (Sizes size (S.types_of opened.old.session.store) opened.old.folder)
        (IsUnsized size (S.types_of opened.old.session.store) opened.old.folder) path.now
        (S.state_of opened.old.session.store) (S.state_of opened.new.session.store) opened.old.session.volume opened.new.session.volume result }
{
    let (number, _is_new) = find_or_create(opened, alloc, path)?;
    opened.make(alloc, path.as_bytes(), &Change::Truncate { number, size })
}

/// `truncate`: sets the sizes of files, in bytes; what is new is zeros. Where nothing stands a file is made.
pub fn truncate<S: FlushStore + Drop>(
    opened: &mut Opened<S>,
    alloc: Global,
    paths: &[&str],
    size: u64,
) -> Result<(), Fault>
    ensures types { S.types_of opened.new.session.store ≡ S.types_of opened.old.session.store }
    ensures folder { opened.new.folder ≡ opened.old.folder }
    ensures does { DoesPaths (Sizes size (S.types_of opened.old.session.store) opened.old.folder)
        (IsUnsized size (S.types_of opened.old.session.store) opened.old.folder) (map (λ path. path.now) paths.now)
        opened.old.told opened.new.told (S.state_of opened.old.session.store) (S.state_of opened.new.session.store)
        opened.old.session.volume opened.new.session.volume result }
{
    for path in paths {
        let done = truncate_one(opened, alloc, path, size);
        opened.told.go_on(done)?;
    }
    Ok(())
}
