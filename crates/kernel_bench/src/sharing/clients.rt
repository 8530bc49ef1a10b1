// Clients, each of which edits its own block and waits until the edit is told durable.

ghost use Rattle.std.specs.Prelude.{◌≡◌, ◌<◌};

use crate::sharing::flushers::Kernels;
use durable_floor::{Floor, Naming, Reader};
use std::alloc::{AllocError, Global};
use std::marker::PhantomData;
use std::sync::Wait;
use std::thread;
use std::thread::{Threads, map_vec};
use xn_kernel::{Edit, Fs, Patch, Store};

/// How many edits each client makes.
pub const EDITS: u32 = 200;

/// How often a client looks at its floor at most, until an edit is told durable.
const LOOKS: u32 = 100_000_000;

/// The edit of a number: it stands at the block's start.
fn numbered(alloc: Global, number: u32) -> Result<Edit, AllocError> {
    let bytes = Vec::from_slice(alloc, &number.to_le_bytes())?;
    let patches = Vec::from_array(alloc, [Patch { offset: 0, bytes }])?;
    Ok(Edit {
        patches,
        adds: Vec::new(alloc),
        drops: Vec::new(alloc),
        after: None,
    })
}

/// Waits, with no lock, until all entries up to this one are told durable; whether that came.
fn wait_for(floor: &Floor, reader: &mut Reader, fs: u8, entry: u64) -> bool
    requires same { reader.old.floor ≡ floor.now }
    requires few { fs < 32 }
    ensures { reader.new.floor ≡ reader.old.floor }
{
    for _look in 0..LOOKS {
        if floor.read(reader, fs) > entry {
            return true;
        }
        thread::yield_now();
    }
    false
}

/// A client: the number of its file system, and the reader of its floor.
pub struct Client<K: Naming> {
    number: u8,
    reader: Reader,
    of: PhantomData<K>,
    ghost reads: { reader.floor ≡ K.floor },
}

impl<K: Naming> Drop for Client<K> {
    fn drop(self) {
        let Client {
            number: _,
            reader: _,
            of: _,
        } = self;
    }
}

impl<K: Naming> Client<K> {
    /// The client of a file system.
    pub fn new(number: u8, reader: Reader) -> Client<K>
        requires { reader.floor ≡ K.floor }
    {
        Client {
            number,
            reader,
            of: PhantomData,
        }
    }

    /// Makes the edits of its block; whether each was told durable.
    fn work<R: Wait>(self, rt: &R, alloc: Global, shared: &Kernels<K>) -> bool {
        let Client {
            number,
            mut reader,
            of: _,
        } = self;
        let Some(fs) = Fs::new(number) else {
            return false;
        };
        let block = u32::from(number) + 1;
        for count in 0..EDITS {
            let Ok(edit) = numbered(alloc, count) else {
                return false;
            };
            let Ok(entry) = shared.with(rt, |hub| hub.propose(fs, block, &edit)) else {
                return false;
            };
            if !wait_for(shared.floor(), &mut reader, fs.number(), entry.0) {
                return false;
            }
        }
        true
    }
}

/// All clients at once, after which the flushers may end; whether each edit was told durable.
pub fn work_at_once<K: Naming + Send + Sync, R: Threads + Wait + Sync>(
    rt: &R,
    alloc: Global,
    shared: &Kernels<K>,
    clients: Vec<Client<K>>,
) -> bool {
    let mut are_good = true;
    match map_vec(rt, clients, &|client| client.work(rt, alloc, shared)) {
        Ok(worked) => for is_good in &worked {
            are_good = are_good && *is_good;
        },
        Err(_) => are_good = false,
    }
    shared.stop();
    are_good
}
