// The call that writes a piece of an inode that was begun.

ghost use Rattle.std.specs.Prelude.{◌≡◌, IfOk, Ok, length};
ghost use Rattle.treefs_byte_plans.specs.Kept.{HasFewLeaves};
ghost use Rattle.treefs_byte_plans.specs.Writes.{IsWithin, planned_step, step_of};
ghost use Rattle.treefs_lookup.specs.Readable.{readable};
ghost use Rattle.treefs_puts.specs.Writing.{IsTrimToWriteBegun, StepWrites, WriteBegunDoes, Writes, begun_planned};

use crate::begun::find_written;
use edit_list::Fs;
use std::alloc::Global;
use treefs::{Volume, trim_first};
use treefs_byte_plans::{Kept, WriteStep, WritingRun, find_untrimmed, plan_piece};
use treefs_edits::{Memory, Planned, Tree, carry_out};
use treefs_model::Fault;
use xn_state::Store;

/// What is trimmed before so many bytes are written from a byte of an inode on: all that stands past its end, if something does.
fn trim_to_write_begun<S: Store>(
    store: &S,
    fs: Fs,
    inode: u32,
    at: u64,
    count: usize,
) -> Option<Kept>
    ensures kept { IsTrimToWriteBegun (readable (S.state_of store.now) fs.number) inode at count result }
    ensures few { HasFewLeaves result }
{
    match find_written(store, fs, inode, at) {
        Ok(file) if count > 0 => find_untrimmed(store, fs, &file),
        Ok(_) | Err(_) => None,
    }
}

/// What the next piece of bytes from a byte of an inode on takes. The faults are those of `find_written`, and `Full` where there is no room.
fn plan_write_begun<'a, S: Store>(
    store: &S,
    tree: Tree,
    memory: &Memory,
    inode: u32,
    at: u64,
    bytes: &'a [u8],
) -> Result<WriteStep<'a>, Fault>
    ensures planned { planned_step result ≡ begun_planned (S.state_of store.now) tree memory.now inode at bytes.now }
    ensures within { IfOk result IsWithin }
{
    let file = find_written(store, tree.fs, inode, at)?;
    if bytes.is_empty() {
        return Ok(WriteStep::Nothing);
    }
    plan_piece(store, tree, memory, &file, at, bytes)
}

/// Carries out a plan that writes so many bytes, and answers that.
fn write<S: Store, P: Planned>(
    alloc: Global,
    store: &mut S,
    fs: Fs,
    plan: &P,
    taken: usize,
) -> Result<usize, Fault>
    ensures types { S.types_of store.new ≡ S.types_of store.old }
    ensures writes { Writes (S.types_of store.old) fs.number (P.plan plan.now) taken (S.state_of store.old) (S.state_of store.new) result }
{
    match carry_out(alloc, store, fs, plan) {
        Ok(()) => Ok(taken),
        Err(fault) => Err(fault),
    }
}

/// Carries out a step of a write.
fn write_step<S: Store>(
    alloc: Global,
    store: &mut S,
    fs: Fs,
    bytes: &[u8],
    step: WriteStep,
) -> Result<usize, Fault>
    requires { IsWithin step }
    ensures types { S.types_of store.new ≡ S.types_of store.old }
    ensures does { StepWrites (S.types_of store.old) fs.number bytes.now (Ok (step_of step.entry)) (S.state_of store.old) (S.state_of store.new) result }
{
    match step {
        WriteStep::Nothing => Ok(0),
        WriteStep::Content(plan) => write(alloc, store, fs, &plan, plan.bytes.len()),
        WriteStep::Leaf(plan) => write(alloc, store, fs, &plan, plan.bytes.len()),
        WriteStep::Run(plan) => {
            let writing = WritingRun { plan, bytes };
            write(alloc, store, fs, &writing, plan.taken)
        }
    }
}

/// Writes bytes from one on of a file or a symbolic link that was begun, of which this is the block and to which nothing points yet: a piece of them, and answers
/// how many that are. What lies between its end and the first of them becomes a hole. So who has more calls again, and a whole file has all its bytes before
/// `commit` gives it a name. The faults are, in this order, `NoEntry` where the block is no inode, `IsDir`, `TooLarge` at or past the greatest size; where
/// something stands past its end, those of `trim`; then `Full`, `NoSpace`. `Kernel` comes for want of memory, or where the store refuses an edit.
pub fn write_begun<S: Store>(
    alloc: Global,
    store: &mut S,
    volume: &Volume,
    inode: u32,
    at: u64,
    bytes: &[u8],
) -> Result<usize, Fault>
    ensures types { S.types_of store.new ≡ S.types_of store.old }
    ensures does { WriteBegunDoes (S.types_of store.old) (S.state_of store.old) (S.state_of store.new) volume.now inode at bytes.now result }
{
    let (tree, memory) = (volume.tree, &volume.memory);
    let kept = trim_to_write_begun(store, tree.fs, inode, at, bytes.len());
    if let Err(fault) = trim_first(alloc, store, tree, memory, kept) {
        return Err(fault);
    }
    match plan_write_begun(store, tree, memory, inode, at, bytes) {
        Ok(step) => write_step(alloc, store, tree.fs, bytes, step),
        Err(fault) => Err(fault),
    }
}
