// Checks of pseudo-random images of disks, many of them damaged, and of two disks of 32,768 blocks, whose reports are compared with what a plain
// loop says.

use crate::images::{random_image, template_blocks};
use crate::large::{Shape, chain_image, is_plain, tree_image};
use crate::tally::Tally;
use crash_check::check;
use pseudo_random::Numbers;
use std::alloc::{AllocError, Global};
use std::io;
use std::thread::Threads;

/// How many images are checked.
const IMAGES: usize = 10_000;

/// The answers to all images.
fn check_all(rt: &(impl Threads + Sync), alloc: Global) -> Result<Tally, AllocError> {
    let mut numbers = Numbers { state: 1 };
    let mut tally = Tally::new();
    let templates = template_blocks(alloc)?;
    for _ in 0..IMAGES {
        let image = random_image(alloc, &mut numbers, &templates)?;
        tally.take(alloc, &check(rt, alloc, &image))?;
    }
    Ok(tally)
}

/// Whether an image is sound, and its report is what a plain loop says of such a disk.
fn is_as_plain(rt: &(impl Threads + Sync), alloc: Global, image: &[u8], shape: Shape) -> bool {
    match check(rt, alloc, image) {
        Ok(report) => is_plain(&report, shape),
        Err(_) => false,
    }
}

/// Prints whether the check of an image agrees with a plain loop.
fn print_shape(
    rt: &(impl Threads + Print + Sync),
    alloc: Global,
    name: &str,
    image: &[u8],
    shape: Shape,
) -> io::Result<()> {
    let same = is_as_plain(rt, alloc, image, shape);
    let reached = shape.reached();
    println!(rt; "{name} of {reached} blocks as a plain loop has it: {same}")
}

/// Checks all images, and prints how they were answered.
pub fn print_images(rt: &(impl Threads + Print + Sync), alloc: Global) -> io::Result<()> {
    let tally = check_all(rt, alloc)?;
    let (images, sound) = (tally.images, tally.sound);
    let (reached, hash) = (tally.reached, tally.hash);
    println!(rt; "images {images} sound {sound} reached {reached} hash {hash:#x}")?;
    print_shape(rt, alloc, "chain", &chain_image(alloc)?, Shape::Chain)?;
    print_shape(rt, alloc, "tree", &tree_image(alloc)?, Shape::Tree)
}
