// Stores whose blocks are written.

ghost use Rattle.volume_pair.specs.Kept.{Stays};

use world::{Answer, Call, Event, Reply, Running};
use xn_state::{Fs, Store};

/// A store on a disk.
pub trait Disk: Store {
    /// Writes all that is pending, and answers how many writes it took; `None` where it was refused.
    fn drain(&mut self, fs: Fs) -> Option<u32>
        ensures { Stays (Self.types_of self.old) (Self.state_of self.old) (Self.types_of self.new) (Self.state_of self.new) };

    /// How many blocks are free.
    fn free(&self) -> u32;
}

/// How many writes a drain took.
fn writes_of(reply: Reply) -> Option<u32> {
    match reply {
        Reply::Answered(Answer::Drain(Ok(writes))) => Some(writes),
        _ => None,
    }
}

impl Disk for Running {
    fn drain(&mut self, fs: Fs) -> Option<u32> {
        self.rules();
        let event = Event::Call(fs, Call::Drain);
        writes_of(self.step(&event))
    }

    fn free(&self) -> u32 {
        self.kernel().state().free()
    }
}
