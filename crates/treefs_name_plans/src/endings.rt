// Names that are to end.

ghost use Rattle.std.specs.Prelude.{◌≡◌, IfOk};
ghost use Rattle.treefs_lookup.specs.Readable.{readable};
ghost use Rattle.treefs_name_plans.specs.Ends.{IsWithin, directory_ended, ended_in, fewer_links, file_ended, name_end};

use crate::ended::Ended;
use crate::link_change::LinkChange;
use crate::name_end::NameEnd;
use crate::slots::{narrow, slots_are_within};
use treefs_edits::{Memory, Times, Tree};
use treefs_format::Kind;
use treefs_lookup::{Found, find_directory, find_entry, find_inode};
use treefs_model::Fault;
use xn_state::Store;

/// A name that is to end, with its directory and its inode. The faults are those of the directory, `BadName`, and `NoEntry`.
pub fn find_ended<S: Store>(
    store: &S,
    tree: Tree,
    directory: u32,
    name: &[u8],
) -> Result<Ended, Fault>
    ensures ended { result ≡ ended_in (readable (S.state_of store.now) tree.fs.number) tree.top directory name.now }
    ensures within { IfOk result (λ ended. IsWithin (readable (S.state_of store.now) tree.fs.number) ended.slot) }
{
    slots_are_within();
    let slot = find_entry(store, tree.fs, tree.top, directory, name)?;
    let directory = find_directory(store, tree.fs, tree.top, directory)?.block;
    let inode = find_inode(store, tree.fs, tree.top, slot.number)?;
    Ok(Ended {
        directory,
        slot,
        inode,
    })
}

/// The same of a file or a symbolic link; then the fault is `IsDir`.
pub fn find_ended_file<S: Store>(
    store: &S,
    tree: Tree,
    directory: u32,
    name: &[u8],
) -> Result<Ended, Fault>
    ensures ended { result ≡ file_ended (readable (S.state_of store.now) tree.fs.number) tree.top directory name.now }
    ensures within { IfOk result (λ ended. IsWithin (readable (S.state_of store.now) tree.fs.number) ended.slot) }
{
    let ended = find_ended(store, tree, directory, name)?;
    match ended.inode.kind {
        Kind::Directory => Err(Fault::IsDir),
        Kind::File | Kind::SymbolicLink => Ok(ended),
    }
}

/// The same of a directory; then the fault is `NotDir`.
pub fn find_ended_directory<S: Store>(
    store: &S,
    tree: Tree,
    directory: u32,
    name: &[u8],
) -> Result<Ended, Fault>
    ensures ended { result ≡ directory_ended (readable (S.state_of store.now) tree.fs.number) tree.top directory name.now }
    ensures within { IfOk result (λ ended. IsWithin (readable (S.state_of store.now) tree.fs.number) ended.slot) }
{
    let ended = find_ended(store, tree, directory, name)?;
    match ended.inode.kind {
        Kind::Directory => Ok(ended),
        Kind::File | Kind::SymbolicLink => Err(Fault::NotDir),
    }
}

/// What becomes of an inode that loses a name.
fn fewer_links(memory: &Memory, number: u32, inode: &Found) -> LinkChange
    ensures { result ≡ fewer_links memory.now number inode.now }
{
    let times = Times {
        mtime: inode.fields.mtime,
        ctime: inode.fields.ctime,
    };
    LinkChange {
        block: inode.block,
        links: inode.fields.links.saturating_sub(1),
        times: if inode.fields.links <= 1 {
            None
        } else {
            Some(memory.newest_times(number, times))
        },
        parent: None,
    }
}

/// What the end of a name changes.
pub fn name_end<S: Store>(store: &S, tree: Tree, memory: &Memory, ended: &Ended) -> NameEnd
    requires { IsWithin (readable (S.state_of store.now) tree.fs.number) ended.now.slot }
    ensures { result ≡ name_end memory.now ended.now }
{
    let slot = ended.slot;
    NameEnd {
        number: slot.number,
        block: slot.block,
        offset: narrow(store, tree.fs, slot.block, slot.offset),
        fewer: fewer_links(memory, slot.number, &ended.inode),
    }
}
