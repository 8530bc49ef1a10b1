// What calls answer, as a transcript writes it.

use crate::text::Text;
use store_types::Refusal;
use treefs::Volume;
use treefs_check::Finding;
use treefs_edits::Times;
use treefs_edits::memory::touched_times;
use treefs_format::Records;
use treefs_lookup::{Found, Sought, find_directory, next_bucket};
use treefs_model::Fault;
use xn_state::Store;

impl Text {
    /// That a call was done, or its fault.
    pub fn done(&mut self, answer: Result<(), Fault>) {
        match answer {
            Ok(()) => self.put("ok"),
            Err(fault) => self.fault(fault),
        }
    }

    /// That a step of the device was done, or its refusal.
    pub fn stepped(&mut self, answer: Result<(), Refusal>) {
        match answer {
            Ok(()) => self.put("ok"),
            Err(refusal) => self.fault(Fault::Kernel(refusal)),
        }
    }

    /// Whether a check found nothing, or how much.
    pub fn checked(&mut self, findings: &[Finding]) {
        if findings.is_empty() {
            self.put("good");
        } else {
            self.size("faults ", findings.len() as u64);
        }
    }

    /// The number that a call answers, or its fault.
    pub fn answer(&mut self, answer: Result<u32, Fault>) {
        match answer {
            Ok(number) => self.number("", number),
            Err(fault) => self.fault(fault),
        }
    }

    /// How many bytes a call wrote, or its fault.
    pub fn written(&mut self, answer: Result<usize, Fault>) {
        match answer {
            Ok(count) => self.size("", count as u64),
            Err(fault) => self.fault(fault),
        }
    }

    /// The first of these bytes, as many as a call read, or its fault.
    pub fn read(&mut self, bytes: &[u8], answer: Result<usize, Fault>) {
        match answer {
            Ok(count) => self.bytes(bytes.get(..count).unwrap_or(&[])),
            Err(fault) => self.fault(fault),
        }
    }

    /// What an inode says, with these times, or the fault of a call that looked for it.
    pub fn found(&mut self, times: Times, found: Found) {
        let fields = found.fields;
        self.mode("mode ", fields.mode);
        self.number(" links ", fields.links);
        self.number(" uid ", fields.uid);
        self.number(" gid ", fields.gid);
        self.size(" size ", fields.size);
        self.time(" mtime ", times.mtime);
        self.time(" ctime ", times.ctime);
        self.number(" parent ", fields.parent);
    }

    /// The names of a directory, bucket after bucket, with their numbers; `-` for none.
    pub fn listing<S: Store>(&mut self, store: &S, volume: &Volume, number: u32) {
        let tree = volume.tree;
        let directory = match find_directory(store, tree.fs, tree.top, number) {
            Ok(directory) => directory,
            Err(fault) => return self.fault(fault),
        };
        let mut from = 0u32;
        let mut is_first = true;
        for _bucket in 0..1_000_000u32 {
            let Some(bucket) = next_bucket(store, tree.fs, directory.block, Sought::Live, from)
            else {
                break;
            };
            is_first = self.records(bucket.bytes, is_first);
            from = bucket.number.saturating_add(1);
        }
        if is_first {
            self.put("-");
        }
    }

    /// The live records of a bucket, each behind a blank where it isn't the first. Answers whether the next one is.
    fn records(&mut self, bucket: &[u8], is_first: bool) -> bool {
        let mut is_first = is_first;
        if bucket.len() > 512 {
            return is_first;
        }
        for record in Records::new(bucket) {
            if record.number != 0 {
                self.put(if is_first { "" } else { " " });
                self.name(record.name);
                self.number(":", record.number);
                is_first = false;
            }
        }
        is_first
    }
}

/// The times of an inode, also where no edit has written them yet.
pub fn times_of(volume: &Volume, number: u32, found: &Found) -> Times {
    let stored = Times {
        mtime: found.fields.mtime,
        ctime: found.fields.ctime,
    };
    touched_times(&volume.memory.touched, number, stored)
}
