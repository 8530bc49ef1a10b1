use edit_list::{Edit, Patch};
use xn_state::Fs;

/// An event as its line tells it. It takes few bytes, where an `Event` has room for a block and is long to copy: of a fresh block and of a template it has the
/// bytes that the line spells, and an edit that has more than patches stands behind a pointer.
#[derive(Drop)]
pub enum LineEvent {
    Init(Fs, u32, Vec<u8>),
    /// An edit that has patches alone, as most do.
    Patches(Fs, u32, Vec<Patch>),
    /// Any edit.
    Edit(Fs, u32, Box<Edit>),
    MakeRoot(Fs, u32),
    DropRoot(Fs),
    Forget(Fs, u32),
    Read(Fs, u32),
    Pending(Fs),
    Floor(Fs),
    Pick(Fs),
    Drain(Fs),
    Install(Vec<u8>),
    Begin(u32),
    Land(u32),
    Fail(u32, bool),
    Sync(u32),
    FailSync(u32),
    Finish(u32),
    Crash(Vec<u32>),
}
