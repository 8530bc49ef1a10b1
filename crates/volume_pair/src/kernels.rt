// A kernel as a store on a disk.

ghost use Rattle.std.specs.Prelude.{◌≡◌, ◌%◌, ◌<◌, ◌≤◌, ℕ, All, None, IfOk, length};
ghost use Rattle.xn_model.specs.Images.{blocks_in};
ghost use Rattle.crash_check.specs.Mounts.{kernel_of};
ghost use Rattle.templates.specs.Templates.{IsTemplate};
ghost use Rattle.xn_state.specs.States.{own_types};
ghost use Rattle.volume_pair.specs.Kept.{HasLibrary, IsKept};

use crate::disks::Disk;
use crash_check::mount_image;
use disk::{Lane, MemLane, fresh_lanes};
use ffs_format::law::templates_are_the_librarys;
use ffs_format::templates;
use std::alloc::{AllocError, Global};
use std::thread::Threads;
use templates::{Template, format_image};
use xn_kernel::{DrainStop, Fs, Kernel};

/// How many bytes the largest disk has.
const GREATEST: usize = 16_777_216;

/// How many writes a drain took; the lane of one that could not be finished is given up.
pub fn writes_of<L: Lane + Drop>(drained: Result<u32, DrainStop<L>>) -> Option<u32> {
    match drained {
        Ok(writes) => Some(writes),
        Err(stop) => {
            let DrainStop {
                writes: _writes,
                ticket,
                refusal: _refusal,
            } = stop;
            if let Some(ticket) = ticket {
                let _lane = ticket.into_lane();
            }
            None
        }
    }
}

impl Disk for Kernel<MemLane> {
    fn drain(&mut self, fs: Fs) -> Option<u32> {
        let _ = fs;
        let drained = Kernel::drain(self);
        writes_of(drained)
    }

    fn free(&self) -> u32 {
        self.state().free()
    }
}

/// Each template is one.
pub(crate) fn are_templates(templates: &[Template])
    ensures { All IsTemplate templates.now }
{
    for at in 0..templates.len() {
        let _owns = templates[at].owns();
    }
}

/// The kernel that mounts a disk of these bytes.
fn mounted(
    rt: &(impl Threads + Sync),
    alloc: Global,
    image: &[u8],
) -> Result<Kernel<MemLane>, AllocError>
    requires whole { length image.now % 512 ≡ 0 }
    requires small { length image.now ≤ 16777216 }
    ensures { IfOk result (λ kernel. kernel ≡ kernel_of 1 kernel.lanes (blocks_in image.now)) }
{
    let lanes = fresh_lanes(alloc, image)?;
    match mount_image(rt, alloc, lanes, image, 1) {
        Ok(kernel) => Ok(kernel),
        Err(_) => Err(AllocError),
    }
}

/// A kernel over a fresh disk of so many blocks.
pub fn fresh_kernel(
    rt: &(impl Threads + Sync),
    alloc: Global,
    blocks: u32,
) -> Result<Kernel<MemLane>, AllocError>
    ensures has { IfOk result (λ kernel. HasLibrary (own_types kernel.state) kernel.state) }
    ensures kept { IfOk result (λ kernel. (fs : ℕ) → fs < 32 → IsKept (own_types kernel.state) kernel.state fs None) }
{
    let templates = templates(alloc)?;
    templates_are_the_librarys();
    are_templates(&templates);
    let Ok(image) = format_image(alloc, blocks, &templates) else {
        return Err(AllocError);
    };
    if image.len() % 512 != 0 || image.len() > GREATEST {
        return Err(AllocError);
    }
    let kernel = mounted(rt, alloc, &image)?;
    Ok(kernel)
}
