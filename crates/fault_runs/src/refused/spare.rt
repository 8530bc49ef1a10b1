// Calls that take no memory, and a line before them. They do what they should also where no memory is left from that line on.

ghost use Rattle.std.specs.Prelude.{◌≡◌};
ghost use Rattle.durable_floor.specs.Rules.{zero_floor};

use crate::refused::programs::Programs;
use crate::refused::stores::{Blocks, hub_changes, hub_looks};
use crate::sharing::hub_of;
use durable_floor::{Floor, Naming, Publisher, Reader};
use std::alloc::Global;
use std::io;
use std::marker::Brand;
use std::thread::Threads;

/// Tries all calls, once what they need is there. Whether there was memory for that; where there was none, nothing is printed.
fn print_calls<K: Naming>(
    rt: &impl Print,
    alloc: Global,
    floor: Floor,
    publisher: Publisher,
    mut reader: Reader,
    programs: Programs,
    alone: Blocks,
    shared: Blocks,
) -> io::Result<bool>
    requires floor { floor ≡ K.floor }
    requires publisher { publisher ≡ record { floor = floor; seen = zero_floor } }
    requires reader { reader.floor ≡ floor }
{
    let Blocks {
        kernel,
        lanes: _,
        first,
        second,
    } = shared;
    let Some((mut hub, floor)) = hub_of::<_, K>(alloc, kernel, floor, publisher) else {
        return Ok(false);
    };
    println!(rt; "calls that take no memory:")?;
    let (language, root) = (programs.language(), programs.root_block());
    let templates = programs.templates();
    let (looks, changes) = (alone.looks(), alone.changes());
    let hub_looks = hub_looks(&hub, first, second);
    let hub_changes = hub_changes(&mut hub, &floor, &mut reader, first, second);
    print_counts(
        rt,
        [language, root, templates],
        [looks, changes],
        [hub_looks, hub_changes],
    )?;
    Ok(true)
}

/// Prints how many calls of each kind did what they should.
fn print_counts(
    rt: &impl Print,
    programs: [u32; 3],
    alone: [u32; 2],
    shared: [u32; 2],
) -> io::Result<()> {
    let [language, root, templates] = programs;
    println!(rt;
        "of the language {language} of 4, of block 0 {root} of 4, of templates {templates} of 4"
    )?;
    let [looks, changes] = alone;
    println!(rt; "of a kernel: looks {looks} of 5, changes {changes} of 5")?;
    let [looks, changes] = shared;
    println!(rt; "of a shared kernel: looks {looks} of 5, changes {changes} of 5")
}

/// Makes what these calls need, and tries them. Whether there was memory for that; where there was none, nothing is printed.
pub fn print_spare<R: Threads + Print + Sync>(rt: &R, alloc: Global) -> io::Result<bool> {
    let (Some(programs), Some(alone), Some(shared)) = (
        Programs::new(alloc),
        Blocks::new(rt, alloc),
        Blocks::new(rt, alloc),
    ) else {
        return Ok(false);
    };
    let Ok((floor, publisher, mut readers)) = Floor::new(alloc, 1) else {
        return Ok(false);
    };
    let Some(reader) = readers.pop() else {
        return Ok(false);
    };
    print_calls::<Brand>(rt, alloc, floor, publisher, reader, programs, alone, shared)
}
