// An open volume of the first library file system.

use crate::reasons::reason_of;
use edit_list::Fs;
use flush_store::FlushStore;
use std::alloc::Global;
use tree_lines::Reason;
use xnfs_session::Session;

/// An open volume of the first library file system, to be looked at.
pub struct FirstVolume<S: FlushStore> {
    /// The session, of which no call is made that changes files.
    pub(crate) session: Session<S>,
}

impl<S: FlushStore + Drop> Drop for FirstVolume<S> {
    fn drop(self) {
        let FirstVolume { session: _ } = self;
    }
}

impl<S: FlushStore + Drop> FirstVolume<S> {
    /// Opens the volume of a file system of a store on which nothing is under way, as `open` of a session does it: what is pending is written first. Reasons
    /// are `Missing` where there is no such volume, `Unsound` of the least inode that more names lead to than it has links, `NoMemory`, and `Refused` where
    /// the disk fails.
    pub fn open(alloc: Global, store: S, fs: Fs) -> Result<FirstVolume<S>, Reason> {
        match Session::open(alloc, store, fs) {
            Ok(session) => Ok(FirstVolume { session }),
            Err(fault) => Err(reason_of(fault)),
        }
    }

    /// The store again.
    pub fn into_store(self) -> S {
        let FirstVolume { session } = self;
        session.into_store()
    }
}
