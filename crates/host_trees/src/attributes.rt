// What the system tells of a file, and what is set of one.

ghost use Rattle.std.specs.Prelude.{◌≡◌, ◌<◌, ◌↔◌, IsTrue};

use std::fs::{File, Metadata, Permissions};
use std::io;
use std::os::unix::fs::{MetadataExt, PermissionsExt, fchown};
use std::time::{Duration, SystemTime};

/// The permission bits of a mode.
const PERMISSIONS: u32 = 0o7777;

/// The permission bits by which a program runs as the owner or the group of its file.
const SET_ID: u16 = 0o6000;

const NANOSECONDS: i64 = 1_000_000_000;

/// In such blocks the system tells how much of a file stands on the device.
const BLOCK: u64 = 512;

/// What stands at a path of the system.
#[derive(Clone, Copy, Debug, PartialEq, Eq)]
pub enum Kind {
    File,
    Folder,
    SymbolicLink,
    /// A device, a pipe, a socket or the like.
    Other,
}

/// What the system tells of what stands at a path.
#[derive(Clone, Copy, Debug)]
pub struct Attributes {
    pub kind: Kind,
    /// The 12 permission bits.
    pub permissions: u16,
    pub uid: u32,
    pub gid: u32,
    /// When its content changed, in nanoseconds since 1970; the least or the greatest number where that is out of range.
    pub modified: i64,
    /// In bytes.
    pub size: u64,
    /// How many bytes stand on the device: of a file with holes they are fewer than its size.
    pub held: u64,
    /// How many names it has.
    pub links: u64,
    pub device: u64,
    pub inode: u64,
    ghost in_range: { permissions < 4096 },
}

impl Attributes {
    /// Whether these are of one file: they have the same device and inode.
    pub fn is_same(&self, other: &Attributes) -> bool
        ensures { IsTrue result ↔ ((self.now.device ≡ other.now.device) × (self.now.inode ≡ other.now.inode)) }
    {
        self.device == other.device && self.inode == other.inode
    }

    /// What a copy of it is given.
    pub fn settings(&self) -> Settings {
        Settings {
            permissions: self.permissions,
            uid: self.uid,
            gid: self.gid,
            modified: self.modified,
        }
    }
}

/// What is set of a file or a folder of the system.
#[derive(Clone, Copy, Debug)]
pub struct Settings {
    /// Of which the lowest 12 bits count.
    pub permissions: u16,
    pub uid: u32,
    pub gid: u32,
    /// In nanoseconds since 1970. A time before that is not set.
    pub modified: i64,
}

/// What kind of thing these are of.
fn kind_of(metadata: &Metadata) -> Kind {
    if metadata.is_file() {
        Kind::File
    } else if metadata.is_dir() {
        Kind::Folder
    } else if metadata.is_symlink() {
        Kind::SymbolicLink
    } else {
        Kind::Other
    }
}

/// What the system tells, as it is told here.
pub fn attributes_of(metadata: &Metadata) -> Attributes {
    Attributes {
        kind: kind_of(metadata),
        permissions: (metadata.mode() & PERMISSIONS) as u16,
        uid: metadata.uid(),
        gid: metadata.gid(),
        modified: metadata
            .mtime()
            .saturating_mul(NANOSECONDS)
            .saturating_add(metadata.mtime_nsec()),
        size: metadata.size(),
        held: metadata.blocks().saturating_mul(BLOCK),
        links: metadata.nlink(),
        device: metadata.dev(),
        inode: metadata.ino(),
    }
}

/// The time of so many nanoseconds since 1970, where it is not before.
fn time_of(modified: i64) -> Option<SystemTime> {
    let since = u64::try_from(modified).ok()?;
    SystemTime::UNIX_EPOCH.checked_add(Duration::from_nanos(since))
}

/// Gives an open file or folder its owner and group, and answers whether it has them now. It takes rights that few users have; the group may be one's own where
/// the owner may not be given away.
fn set_owner(file: &File, settings: &Settings) -> bool {
    if fchown(file, Some(settings.uid), Some(settings.gid)).is_ok() {
        return true;
    }
    let _ = fchown(file, None, Some(settings.gid));
    false
}

/// Sets owner, permissions and time of an open file or folder, in this order: owner and group where that may be done, and else the permissions without those
/// by which a program runs as its owner or group.
pub fn set_all(file: &File, settings: &Settings) -> io::Result<()> {
    let permissions = if set_owner(file, settings) {
        settings.permissions
    } else {
        settings.permissions & !SET_ID
    };
    let permissions = u32::from(permissions) & PERMISSIONS;
    file.set_permissions(Permissions::from_mode(permissions))?;
    match time_of(settings.modified) {
        Some(time) => file.set_modified(time),
        None => Ok(()),
    }
}
