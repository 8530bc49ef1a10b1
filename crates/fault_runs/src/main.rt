// Runs in which something fails: requests for memory, and each read, write and sync of a lane. With an argument only those that ask for memory
// are made, for `tools/outside memory`.
// May touch: memory, threads, streams.
#![tactic(auto)]

mod failing;
mod refused;
mod sharing;

use failing::print_failing;
use refused::print_refused;
use std::{env, io};

/// Whether an argument was given. It seems so where there is no memory for the arguments.
fn has_argument(rt: &HostRuntime) -> bool {
    match env::args(rt) {
        Ok(arguments) => arguments.count() > 1,
        Err(_) => true,
    }
}

fn main(rt: HostRuntime) -> io::Result<()> {
    let is_memory_alone = has_argument(&rt);
    print_refused(&rt, rt.alloc())?;
    if !is_memory_alone {
        print_failing(&rt, rt.alloc())?;
    }
    Ok(())
}
