// What a session keeps in memory of a volume.

ghost use Rattle.std.specs.Prelude.{◌≡◌, ◌+◌, ◌<◌, ◌≤◌, vec_capacity, vec_len};
ghost use Rattle.treefs_edits.specs.Memories.{newest_times, touched_times, with_touched, without_touched};

use crate::times::Times;
use std::marker::Model;

/// Times of an inode that no edit has written yet.
#[derive(Clone, Copy)]
pub struct Touched {
    /// The inode.
    pub number: u32,
    /// Its times.
    pub times: Times,
}

/// What a session keeps in memory of a volume, beside what its blocks say.
#[derive(Drop)]
pub struct Memory {
    /// The caller's time, in nanoseconds since 1970.
    pub clock: i64,
    /// Times that no edit has written yet, in the order in which their inodes were first touched; each inode once.
    pub touched: Vec<Touched>,
    /// The number of the last edit by which a directory was made or moved; 0 where none was since the volume was opened.
    pub last_dir: u64,
    /// The number of the last edit by which an inode got one more name; 0 where none was since the volume was opened.
    pub last_link: u64,
    /// The inode number from which on a free one is looked for.
    pub hint: u32,
    /// The inodes without links that are to be freed.
    pub orphans: Vec<u32>,
}

impl Model for Memory {
    ghost use Rattle.treefs_edits.specs.Memories as value;

    ghost Value = { value.Memory };

    ghost view = { λ m. record {
      clock = m.clock;
      touched = m.touched.items;
      last_dir = m.last_dir;
      last_link = m.last_link;
      hint = m.hint;
      orphans = m.orphans.items;
    } };
}

impl Memory {
    /// The times of an inode that changes itself now. `times` are those of its block.
    pub fn newest_times(&self, number: u32, times: Times) -> Times
        ensures { result ≡ newest_times self.now number times }
    {
        Times {
            mtime: touched_times(&self.touched, number, times).mtime,
            ctime: self.clock,
        }
    }
}

/// The times of an inode: as it was last touched, or else those of its block, `times`.
pub fn touched_times(touched: &[Touched], number: u32, times: Times) -> Times
    ensures { result ≡ touched_times touched.now number times }
{
    match touched.iter().find(|touch| touch.number == number) {
        Some(touch) => touch.times,
        None => times,
    }
}

/// Sets the times of an inode, behind those of others where it was not touched before.
pub fn touch(touched: &mut Vec<Touched>, number: u32, times: Times)
    requires { vec_len touched.old < vec_capacity touched.old }
    ensures touched { touched.new.items ≡ with_touched touched.old.items number times }
    ensures length { vec_len touched.new ≤ vec_len touched.old + 1 }
    ensures capacity { vec_capacity touched.old ≤ vec_capacity touched.new }
{
    let touch = Touched { number, times };
    match touched.iter().position(|touch| touch.number == number) {
        Some(place) => touched[place] = touch,
        None => touched.push(touch).unwrap(),
    }
}

/// Leaves out the times of an inode, which an edit has written.
pub fn forget_touch(touched: &mut Vec<Touched>, number: u32)
    ensures touched { touched.new.items ≡ without_touched touched.old.items number }
    ensures length { vec_len touched.new ≤ vec_len touched.old }
    ensures capacity { vec_capacity touched.new ≡ vec_capacity touched.old }
{
    if let Some(place) = touched.iter().position(|touch| touch.number == number) {
        let _ = touched.remove(place);
    }
}
