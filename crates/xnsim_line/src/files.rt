ghost use Rattle.std.specs.Prelude.{◌≡◌, ◌+◌, ◌^◌, ◌<◌, ◌≤◌, IfSome, IsTrue, length};
ghost use Rattle.xn_model.specs.Images.{joined};
ghost use Rattle.xnsim_line.specs.Files.{Held, IsHeld, IsStartHeld, with_file};

use std::alloc::{Allocator, Global};
use std::io;
use std::io::Write;
use system_files::{Access, Source};
use world::World;

/// Files by their names.
pub trait Files {
    ghost use Rattle.xnsim_line.specs.Files.{Held};

    /// What the files hold, where that is known. Of the files of a system it is not, since others may write them.
    ghost held: { Self → Held };

    /// The first bytes of a file, `limit` of them or all where it has no more, or `None` where it can't be read.
    fn read_start(&mut self, alloc: Global, name: &str, limit: usize) -> Option<Vec<u8>>
        ensures bytes { IfSome result (λ bytes. IsStartHeld (held self.old) name.now limit bytes.items) }
        ensures kept { held self.new ≡ held self.old };

    /// The same of a disk, whose lock is taken as it is said, and held from then on. `None` also where somebody has a lock that doesn't
    /// go with this one.
    fn read_disk(
        &mut self,
        alloc: Global,
        name: &str,
        limit: usize,
        access: Access,
    ) -> Option<Vec<u8>>
        ensures bytes { IfSome result (λ bytes. IsStartHeld (held self.old) name.now limit bytes.items) }
        ensures kept { held self.new ≡ held self.old };

    /// Whether two names lead to one file.
    fn is_one_file(&mut self, one: &str, other: &str) -> bool
        ensures same_name { one.now ≡ other.now → IsTrue result }
        ensures kept { held self.new ≡ held self.old };

    /// Whether the file now holds the bytes of this source and no others. It does not where somebody else has its lock.
    fn write_from<S: Source + Drop>(&mut self, name: &str, source: S) -> bool
        ensures { IsTrue result → held self.new ≡ with_file (held self.old) name.now (S.bytes_of source) };

    /// The bytes of a file, or `None` where it has more than `most`, or can't be read. No more than one byte over that is read.
    final fn read_short(&mut self, alloc: Global, name: &str, most: usize) -> Option<Vec<u8>>
        requires { most < 2 ^ 32 }
        ensures bytes { IfSome result (λ bytes. IsHeld (held self.old) name.now bytes.items) }
        ensures short { IfSome result (λ bytes. length bytes.items ≤ most) }
        ensures kept { held self.new ≡ held self.old }
    {
        let bytes = self.read_start(alloc, name, most + 1)?;
        if bytes.len() > most {
            return None;
        }
        Some(bytes)
    }
}

/// The bytes that a world's disk holds, block after block.
pub struct DiskImage<A: Allocator> {
    world: World<A>,
}

impl<A: Allocator> DiskImage<A> {
    pub fn new(world: World<A>) -> DiskImage<A>
        ensures { result.world ≡ world }
    {
        DiskImage { world }
    }
}

/// Written by hand, so that a function that drops one calls this.
impl<A: Allocator> Drop for DiskImage<A> {
    fn drop(self) {
        let DiskImage { world: _ } = self;
    }
}

impl<A: Allocator> Source for DiskImage<A> {
    ghost bytes_of = { λ image. joined image.world.image };

    fn write_to<W: Write>(self, out: &mut W) -> io::Result<()> {
        let DiskImage { world } = self;
        world.write_to(out)
    }
}
