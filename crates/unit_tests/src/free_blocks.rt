// The calls of a map of free blocks that a store makes in other ways.

use crate::disks::{is, same};
use free_map::FreeMap;

#[test]
fn the_lowest_free_block_is_taken(rt: HostRuntime) {
    let mut free = FreeMap::new(rt.alloc(), 32).expect(&rt, "memory");
    free.take(0);
    same(&rt, "the lowest", free.take_lowest(), Some(1));
    is(&rt, "a block that was taken", !free.is_free(1));
    is(&rt, "a free block", free.is_free(31));
    is(&rt, "there is no such block", !free.is_free(32));
    free.give(0);
    same(&rt, "the lowest then", free.take_lowest(), Some(0));
    same(&rt, "free blocks", free.count(), 30);
}
