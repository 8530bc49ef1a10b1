// What inodes need, so that each is in use exactly where it has a name, with as many links as names.

ghost use Rattle.std.specs.Prelude.{◌≡◌, ℕ, min, Ok, IfOk};
ghost use Rattle.ffs_model.specs.Cuts.{latest};
ghost use Rattle.ffs_model.specs.Library.{IsLibrary};
ghost use Rattle.ffs_lookup.specs.Newest.{inode_in, mapped};
ghost use Rattle.ffs_lookup.specs.Repairs.{idle_in, is_bare_in, repair_at, repair_found, repair_in};
ghost use Rattle.ffs_lookup.specs.Places.{IsFound};

use crate::counts::count_names;
use crate::fault::FfsFault;
use crate::places::{DIRECTORY, Found, find_inode, is_empty};
use edit_list::Fs;
use ffs_format::inodes::MOST_INODES;
use xn_state::Store;

/// How many inodes a volume has at most, as an index.
const INODES: usize = MOST_INODES as usize;

/// What an inode needs.
#[derive(Clone, Copy, Debug)]
pub enum Repair {
    /// Nothing.
    Keep,
    /// To be given up: it is in use, no entry names it, and it has no entries.
    GiveUp,
    /// So many links, which are its names: it has more.
    SetLinks(u16),
}

/// What each inode needs, by its number less 1.
#[derive(Drop)]
pub struct Repairs {
    each: [Repair; 128],
}

impl Repairs {
    /// What the inode with this number needs; nothing where there is none.
    pub fn of(&self, inode: u16) -> Repair
        ensures { result ≡ repair_at self.now.each inode }
    {
        if inode == 0 {
            return Repair::Keep;
        }
        let at = usize::from(inode - 1);
        if at < INODES {
            self.each[at]
        } else {
            Repair::Keep
        }
    }
}

/// Whether an inode in use is no directory with entries.
fn is_bare<S: Store>(store: &S, fs: Fs, number: u16, found: &Found) -> Result<bool, FfsFault>
    requires { IsFound (S.state_of store.now) fs.number number found.now }
    ensures { IsLibrary (S.types_of store.now) → result ≡ Ok (is_bare_in (latest (S.state_of store.now).lives) found.now.inode) }
{
    let _ = number;
    if found.inode.mode() == DIRECTORY {
        is_empty(store, fs, found)
    } else {
        Ok(true)
    }
}

/// What an inode needs that so many entries name.
fn find_repair<S: Store>(store: &S, fs: Fs, number: u16, names: u32) -> Result<Repair, FfsFault>
    ensures { IsLibrary (S.types_of store.now) → (count : ℕ) → names ≡ min count 4294967295 →
        result ≡ Ok (repair_found (latest (S.state_of store.now).lives) count (inode_in (latest (S.state_of store.now).lives) fs.number number)) }
{
    let Ok(found) = find_inode(store, fs, number) else {
        return Ok(Repair::Keep);
    };
    let links = found.inode.links();
    if names == 0 {
        let bare = is_bare(store, fs, number, &found)?;
        return Ok(if bare { Repair::GiveUp } else { Repair::Keep });
    }
    if names < u32::from(links) {
        Ok(Repair::SetLinks(names as u16))
    } else {
        Ok(Repair::Keep)
    }
}

/// Looks up what each inode of a file system needs; the top directory needs nothing. It answers `Pending` where something of the file
/// system is pending.
pub fn look_up_repairs<S: Store>(store: &S, fs: Fs) -> Result<Repairs, FfsFault>
    ensures exact { IsLibrary (S.types_of store.now) → mapped (λ repairs. tt) result ≡ idle_in (S.state_of store.now) fs.number }
    ensures each { IsLibrary (S.types_of store.now) → IfOk result (λ repairs. (n : ℕ) →
        repair_at repairs.each n ≡ repair_in (latest (S.state_of store.now).lives) fs.number n) }
{
    if store.pending(fs) > 0 {
        return Err(FfsFault::Pending);
    }
    let counts = count_names(store, fs)?;
    let mut each = [Repair::Keep; 128];
    for at in 1..INODES {
        let number = at as u16 + 1;
        each[at] = find_repair(store, fs, number, counts.of(number))?;
    }
    Ok(Repairs { each })
}
