// Disks, and what is made of them: their lanes joined, a check, a state, a kernel.

ghost use Rattle.std.specs.Prelude.{◌≡◌, []};
ghost use Rattle.templates.specs.Formats.{formatted};
ghost use Rattle.templates.specs.Tables.{no_templates};
ghost use Rattle.xn_model.specs.Images.{joined};

use crate::refused::tally::Miss;
use crash_check::{ImageFault, check, mount};
use disk::{MemDisk, fresh_lanes};
use std::alloc::{AllocError, Global};
use std::thread::Threads;
use store_types::Refusal;
use templates::{Table, builtin, format_image};
use xn_state::law::fresh_disks_are_found;
use xn_state::{Found, Fs, State};

/// Block 0, as it is found in each image.
const ROOT: Found = Found {
    block: 0,
    ty: 0,
    owner: None,
    fs: None,
};

/// Whether lanes are joined to the bytes that they have. They come back, all of them, where there is no memory for these.
pub fn is_joined(alloc: Global) -> Result<bool, Miss> {
    let bytes = [7; 1024];
    let lanes = fresh_lanes(alloc, &bytes)?;
    match MemDisk::join(alloc, lanes) {
        Ok(disk) => Ok(disk.bytes() == bytes.as_slice()),
        Err(lanes) => match MemDisk::join(alloc, lanes) {
            Ok(disk) => Err(Miss::of(disk.bytes() == bytes.as_slice())),
            Err(_) => Err(Miss::Wrong),
        },
    }
}

/// Whether a fresh disk is checked that has a template: block 0 and the template's are reached, and all others are free.
pub fn is_checked(rt: &(impl Threads + Sync), alloc: Global) -> Result<bool, Miss> {
    let template = builtin(alloc, 2)?;
    let image = format_image(alloc, 32, &[template])?;
    let report = check(rt, alloc, &image)?;
    let (reached, free) = (&report.reached, report.free.as_slice());
    let are_reached = reached.len() == 2
        && reached.get(&0) == Some(&0)
        && reached.get(&1) == Some(&1);
    Ok(are_reached && free.len() == 30 && free.first() == Some(&2))
}

/// The state of a fresh disk without templates, of which these are the bytes.
fn fresh_state(alloc: Global, table: Table, image: &[u8]) -> Result<State, AllocError>
    requires table { table ≡ no_templates }
    requires image { image.now ≡ joined (formatted 32 []) }
{
    fresh_disks_are_found();
    State::new(alloc, table, image, &[ROOT])
}

/// Whether the state of a fresh disk has block 0 alone, which is nobody's, and the types that are built in.
pub fn has_state(alloc: Global) -> Result<bool, Miss> {
    let Some(fs) = Fs::new(0) else {
        return Ok(false);
    };
    let image = match format_image(alloc, 32, &[]) {
        Ok(image) => image,
        Err(fault) => return Err(Miss::from(fault)),
    };
    let Ok(table) = Table::new(alloc) else {
        return Err(Miss::NoMemory);
    };
    let Ok(state) = fresh_state(alloc, table, &image) else {
        return Err(Miss::NoMemory);
    };
    let has_root = state.read(fs, 0) == Err(Refusal::NotYours)
        && state.read(fs, 1) == Err(Refusal::NotInUse)
        && state.read(fs, 32) == Err(Refusal::NoSuchBlock);
    let has_types = state.template(2).is_some() && state.template(3).is_none();
    Ok(has_root && has_types && state.floor(fs) == 1)
}

/// Whether a fresh disk is mounted. Where there is no memory for that its lanes come back: it is refused again if one of them is missing.
pub fn is_mounted(rt: &(impl Threads + Sync), alloc: Global) -> Result<bool, Miss> {
    let image = format_image(alloc, 32, &[])?;
    if image.len() != 16_384 {
        return Ok(false);
    }
    let lanes = fresh_lanes(alloc, &image)?;
    match mount(rt, alloc, lanes, 1) {
        Ok(kernel) => Ok(kernel.state().free() == 31),
        Err((ImageFault::NoMemory, lanes)) => Err(Miss::of(mount(rt, alloc, lanes, 1).is_ok())),
        Err(_) => Err(Miss::Wrong),
    }
}
