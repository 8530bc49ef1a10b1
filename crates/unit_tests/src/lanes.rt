// Lanes of a disk in memory: their failures, their crashes and their places.

use crate::disks::{give, is, same, take};
use disk::{DeviceFault, Lane, Lanes, MemDisk, MemLane};
use std::alloc::Global;
use std::process::Abort;
use store_types::BLOCK_LEN;

/// The lane of block 1 on a disk of two blocks of sevens.
fn second_lane(rt: &impl Abort, alloc: Global) -> MemLane {
    let disk = MemDisk::new(alloc, &[7; 1024]).expect(rt, "memory");
    match disk.split(alloc) {
        Ok(mut lanes) => take(rt, &mut lanes, 2, 1),
        Err(_) => panic!(rt; "no memory"),
    }
}

#[test]
fn a_failed_write_leaves_old_or_new_bytes(rt: HostRuntime) {
    for (new_bytes_stay, left) in [(false, 7), (true, 1)] {
        let mut lane = second_lane(&rt, rt.alloc());
        lane.fail_write(new_bytes_stay);
        is(
            &rt,
            "a failed write",
            lane.write(&[1; BLOCK_LEN]) == Err(DeviceFault),
        );
        same(&rt, "faults", lane.faults(), 1);
        same(&rt, "the byte that is left", lane.bytes()[0], left);
        is(&rt, "a write", lane.write(&[2; BLOCK_LEN]) == Ok(()));
        same(&rt, "a byte of it", lane.bytes()[511], 2);
    }
}

/// The byte that a crash leaves of sevens, after a write of nines, which fails or not, and the sync behind it, if there is one.
fn left_after(mut lane: MemLane, fault: Option<bool>, sync: Option<bool>, is_kept: bool) -> u8 {
    if let Some(new_bytes_stay) = fault {
        lane.fail_write(new_bytes_stay);
    }
    let _written = lane.write(&[9; BLOCK_LEN]);
    if let Some(is_well) = sync {
        if !is_well {
            lane.fail_sync();
        }
        let _synced = lane.sync();
    }
    lane.crash(is_kept);
    lane.bytes()[0]
}

#[test]
fn a_crash_leaves_settled_or_given_bytes(rt: HostRuntime) {
    for (fault, read) in [(None, 9), (Some(false), 7), (Some(true), 9)] {
        for (sync, lost, kept) in [(None, 7, 9), (Some(false), 7, 9), (Some(true), read, read)] {
            for (is_kept, left) in [(false, lost), (true, kept)] {
                let came = left_after(second_lane(&rt, rt.alloc()), fault, sync, is_kept);
                same(
                    &rt,
                    "what a crash leaves",
                    (fault, sync, is_kept, came),
                    (fault, sync, is_kept, left),
                );
            }
        }
    }
}

#[test]
fn a_lane_has_one_place(rt: HostRuntime) {
    let mut lanes = Lanes::new(rt.alloc(), 2).expect(&rt, "memory");
    let lane = second_lane(&rt, rt.alloc());
    same(&rt, "its number", lane.number(), 1);
    give(&rt, &mut lanes, lane);
    let is_taken = lanes.give(second_lane(&rt, rt.alloc())).is_err();
    is(&rt, "its place is taken", is_taken);
    match MemDisk::join(rt.alloc(), lanes) {
        Ok(_) => panic!(rt; "joined without a lane"),
        Err(mut lanes) => {
            let _lane = take(&rt, &mut lanes, 2, 1);
        }
    }
}
