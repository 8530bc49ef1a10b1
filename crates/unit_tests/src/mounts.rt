// Mounts that give the lanes back, and what they sync.

use crate::disks::{are_home, failing_lanes, faulty, fresh_lanes, give, is, mounted, same, take};
use crash_check::ImageFault;
use disk::{DeviceFault, Lane};
use store_types::BLOCK_LEN;

#[test]
fn a_mount_gives_the_lanes_back(rt: HostRuntime) {
    let mut lanes = fresh_lanes(&rt, rt.alloc());
    let mut lane = take(&rt, &mut lanes, 32, 31);
    let mut lanes = faulty(&rt, rt.alloc(), lanes, ImageFault::BadLength);
    lane.fail_read();
    give(&rt, &mut lanes, lane);
    let lanes = faulty(&rt, rt.alloc(), lanes, ImageFault::Device);
    let _kernel = mounted(&rt, rt.alloc(), lanes, 1);
}

#[test]
fn a_mount_reads_no_lane_whose_sync_fails(rt: HostRuntime) {
    let mut lanes = fresh_lanes(&rt, rt.alloc());
    let mut lane = take(&rt, &mut lanes, 32, 31);
    lane.fail_sync();
    lane.fail_read();
    give(&rt, &mut lanes, lane);
    let mut lanes = faulty(&rt, rt.alloc(), lanes, ImageFault::Device);
    is(&rt, "all lanes", are_home(&lanes));
    let mut lane = take(&rt, &mut lanes, 32, 31);
    same(
        &rt,
        "its sync failed, and it was not read",
        lane.faults(),
        1,
    );
    is(
        &rt,
        "a read that fails",
        lane.read(&mut [0; BLOCK_LEN]) == Err(DeviceFault),
    );
    give(&rt, &mut lanes, lane);
    let _kernel = mounted(&rt, rt.alloc(), lanes, 1);
}

#[test]
fn a_mount_settles_what_it_reads(rt: HostRuntime) {
    let mut lanes = fresh_lanes(&rt, rt.alloc());
    let mut lane = take(&rt, &mut lanes, 32, 31);
    is(&rt, "a write", lane.write(&[9; BLOCK_LEN]) == Ok(()));
    give(&rt, &mut lanes, lane);
    let mut lanes = mounted(&rt, rt.alloc(), lanes, 1).into_lanes();
    let mut lane = take(&rt, &mut lanes, 32, 31);
    lane.crash(false);
    same(&rt, "the byte that was written", lane.bytes()[511], 9);
}

#[test]
fn a_mount_that_cannot_read_a_lane_gives_all_back(rt: HostRuntime) {
    let lanes = failing_lanes(&rt, rt.alloc(), 5, Some(1), None);
    let lanes = faulty(&rt, rt.alloc(), lanes, ImageFault::Device);
    is(&rt, "all lanes", are_home(&lanes));
    let _kernel = mounted(&rt, rt.alloc(), lanes, 1);
}
