// What a session remembers once a call is done.

ghost use Rattle.std.specs.Prelude.{◌≡◌, ◌+◌, ◌<◌, ◌≤◌, IfErr, IfOk, vec_capacity, vec_len};
ghost use Rattle.xn_model.specs.PendingIn.{newest_entry_of};
ghost use Rattle.treefs_edits.specs.Memories.{with_touched, without_touched};
ghost use Rattle.treefs_lookup.specs.Readable.{readable};
ghost use Rattle.treefs.specs.Changed.{changed_touched};
ghost use Rattle.treefs.specs.Creating.{naming_entry};
ghost use Rattle.treefs.specs.Linking.{entry_or, record_block, record_entry};
ghost use Rattle.treefs.specs.Remembered.{ended_orphans, ended_touched, named_orphans, named_touched, now_times, written_times};
ghost use Rattle.treefs.specs.Renaming.{moved_entry, moving_touched, renamed_touched};

use edit_list::Fs;
use store_types::Refusal;
use treefs_edits::memory::{forget_touch, touch};
use treefs_edits::{Memory, Times, Touched, lacks_memory};
use treefs_format::paths::LEAVES;
use treefs_lookup::leaf_block;
use treefs_model::Fault;
use treefs_name_plans::{Addition, Moving, NameEnd, Naming, RenamePlan};
use xn_state::Store;

/// The times of an inode that changes now.
pub fn now_times(memory: &Memory) -> Times
    ensures { result ≡ now_times memory.now }
{
    Times {
        mtime: memory.clock,
        ctime: memory.clock,
    }
}

/// Makes room for so many more inodes that are touched. The fault is the kernel's, for want of memory.
pub fn make_room(touched: &mut Vec<Touched>, more: usize) -> Result<(), Fault>
    ensures touched { touched.new.items ≡ touched.old.items }
    ensures ok { IfOk result (λ _. vec_len touched.new + more ≤ vec_capacity touched.new) }
    ensures err { IfErr result (λ fault. fault ≡ Fault.Kernel Refusal.NoMemory) }
{
    match touched.reserve(more) {
        Ok(()) => Ok(()),
        Err(error) => Err(lacks_memory(error)),
    }
}

/// Makes room for so many more inodes that are touched, and for one more orphan. The fault is the kernel's, for want of memory.
pub fn make_rooms(
    touched: &mut Vec<Touched>,
    more: usize,
    orphans: &mut Vec<u32>,
) -> Result<(), Fault>
    ensures touched { touched.new.items ≡ touched.old.items }
    ensures orphans { orphans.new.items ≡ orphans.old.items }
    ensures ok { IfOk result (λ _. vec_len touched.new + more ≤ vec_capacity touched.new) }
    ensures orphan { IfOk result (λ _. vec_len orphans.new < vec_capacity orphans.new) }
    ensures err { IfErr result (λ fault. fault ≡ Fault.Kernel Refusal.NoMemory) }
{
    make_room(touched, more)?;
    match orphans.reserve(1) {
        Ok(()) => Ok(()),
        Err(error) => Err(lacks_memory(error)),
    }
}

/// An inode was changed: its times are written, or it is touched now.
pub fn note_change(touched: &mut Vec<Touched>, now: Times, number: u32, is_dated: bool)
    requires { vec_len touched.old < vec_capacity touched.old }
    ensures { touched.new.items ≡ changed_touched touched.old.items now number is_dated }
{
    if is_dated {
        forget_touch(touched, number);
    } else {
        touch(touched, number, now);
    }
}

/// Leaves out the times of an inode that an edit has written, if it did.
fn forget_written(touched: &mut Vec<Touched>, number: u32, times: Option<Times>)
    ensures touched { touched.new.items ≡ written_times touched.old.items number times }
    ensures length { vec_len touched.new ≤ vec_len touched.old }
    ensures capacity { vec_capacity touched.new ≡ vec_capacity touched.old }
{
    if times.is_some() {
        forget_touch(touched, number);
    }
}

/// A name of a directory ended: the directory is touched now, and the inode's times may have been written.
pub fn touch_end(touched: &mut Vec<Touched>, now: Times, directory: u32, end: &NameEnd)
    requires { vec_len touched.old < vec_capacity touched.old }
    ensures { touched.new.items ≡ ended_touched touched.old.items now directory end.now }
{
    forget_written(touched, end.number, end.fewer.times);
    touch(touched, directory, now);
}

/// An inode whose last name ended is an orphan.
pub fn note_orphan(orphans: &mut Vec<u32>, end: &NameEnd)
    requires { vec_len orphans.old < vec_capacity orphans.old }
    ensures { orphans.new.items ≡ ended_orphans orphans.old.items end.now }
{
    if end.fewer.links == 0 {
        orphans.push(end.number).unwrap();
    }
}

/// A name came to lead to an inode: the times of what it replaced may have been written.
fn forget_replaced(touched: &mut Vec<Touched>, naming: &Naming)
    ensures touched { touched.new.items ≡ named_touched touched.old.items naming.now }
    ensures length { vec_len touched.new ≤ vec_len touched.old }
    ensures capacity { vec_capacity touched.new ≡ vec_capacity touched.old }
{
    match naming {
        Naming::Added(_) => {}
        Naming::Replaced(end) => forget_written(touched, end.number, end.fewer.times),
    }
}

/// A name of a directory came to lead to an inode: the directory is touched now.
pub fn touch_naming(touched: &mut Vec<Touched>, now: Times, directory: u32, naming: &Naming)
    requires { vec_len touched.old < vec_capacity touched.old }
    ensures { touched.new.items ≡ with_touched (named_touched touched.old.items naming.now) directory now }
{
    forget_replaced(touched, naming);
    touch(touched, directory, now);
}

/// What a name that came to lead to an inode replaced is an orphan where that was its last name.
pub fn note_replaced(orphans: &mut Vec<u32>, naming: &Naming)
    requires { vec_len orphans.old < vec_capacity orphans.old }
    ensures { orphans.new.items ≡ named_orphans orphans.old.items naming.now }
{
    match naming {
        Naming::Added(_) => {}
        Naming::Replaced(end) => note_orphan(orphans, end),
    }
}

/// The times of an inode whose name moved: no edit writes them where it was one edit, and else they are written.
fn touch_moved(touched: &mut Vec<Touched>, number: u32, moving: &Moving)
    requires { vec_len touched.old < vec_capacity touched.old }
    ensures touched { touched.new.items ≡ moving_touched touched.old.items number moving.now }
    ensures length { vec_len touched.new ≤ vec_len touched.old + 1 }
    ensures capacity { vec_capacity touched.old ≤ vec_capacity touched.new }
{
    match moving {
        Moving::Together(times) => touch(touched, number, *times),
        Moving::Apart(_) => forget_touch(touched, number),
    }
}

/// A name moved: the inode's times and those of what was replaced may have been written, and both directories are touched now.
pub fn touch_rename(
    touched: &mut Vec<Touched>,
    now: Times,
    directory: u32,
    new_directory: u32,
    plan: &RenamePlan,
)
    requires { vec_len touched.old + 3 ≤ vec_capacity touched.old }
    ensures { touched.new.items ≡ renamed_touched touched.old.items now directory new_directory plan.now }
{
    touch_moved(touched, plan.number, &plan.moving);
    forget_replaced(touched, &plan.naming);
    touch(touched, directory, now);
    touch(touched, new_directory, now);
}

/// The number of the edit that ended the old name of a directory; a word where it is no directory, or nothing is pending there.
pub fn moved_entry<S: Store>(store: &S, plan: &RenamePlan, word: u64) -> u64
    ensures { result ≡ moved_entry (S.state_of store.now) plan.now word }
{
    if plan.is_directory {
        entry_or(store, plan.block, word)
    } else {
        word
    }
}

/// An inode got one more name in a directory: its times are written, and the directory is touched now.
pub fn touch_link(touched: &mut Vec<Touched>, now: Times, directory: u32, number: u32)
    requires { vec_len touched.old < vec_capacity touched.old }
    ensures { touched.new.items ≡ with_touched (without_touched touched.old.items number) directory now }
{
    forget_touch(touched, number);
    touch(touched, directory, now);
}

/// The block in which the record of a new name stands, in the directory with this inode block; 0 where its bucket is not there.
fn record_block<S: Store>(store: &S, fs: Fs, directory: u32, addition: &Addition) -> u32
    ensures { result ≡ record_block (readable (S.state_of store.now) fs.number) directory addition.now }
{
    match addition {
        Addition::Behind(block, _) => *block,
        Addition::Rewritten(old) => old.block,
        Addition::Made(made) => {
            if made.leaf < LEAVES {
                leaf_block(store, fs, directory, made.leaf)
            } else {
                0
            }
        }
    }
}

/// The number of the newest entry in the block of a new record; a word where nothing is pending there.
pub fn record_entry<S: Store>(
    store: &S,
    fs: Fs,
    directory: u32,
    addition: &Addition,
    word: u64,
) -> u64
    ensures { result ≡ record_entry (S.state_of store.now) fs.number directory addition.now word }
{
    entry_or(store, record_block(store, fs, directory, addition), word)
}

/// The number of the newest entry in the block of a record by which a name of a directory, whose inode block is told, came to lead to an inode; a
/// word where nothing is pending there.
pub fn naming_entry<S: Store>(store: &S, fs: Fs, directory: u32, naming: &Naming, word: u64) -> u64
    ensures { result ≡ naming_entry (S.state_of store.now) fs.number directory naming.now word }
{
    match naming {
        Naming::Added(addition) => record_entry(store, fs, directory, addition, word),
        Naming::Replaced(end) => entry_or(store, end.block, word),
    }
}

/// The number of the newest entry in a block; a word where nothing is pending there.
fn entry_or<S: Store>(store: &S, block: u32, word: u64) -> u64
    ensures { result ≡ entry_or (newest_entry_of (S.state_of store.now) block) word }
{
    match store.newest_entry(block) {
        Some(entry) => entry.number(),
        None => word,
    }
}
