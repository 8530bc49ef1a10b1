// The calls on the bytes of files.

ghost use Rattle.std.specs.Prelude.{◌≡◌, Ok};
ghost use Rattle.treefs_byte_plans.specs.Kept.{HasFewLeaves};
ghost use Rattle.treefs_byte_plans.specs.Writes.{IsWithin, step_of};
ghost use Rattle.treefs.specs.Trimming.{GiveUpDoes, TrimCallDoes, kept_in};
ghost use Rattle.treefs.specs.Sizing.{SizeDoes, TruncateDoes};
ghost use Rattle.treefs.specs.Writing.{StepDoes, Takes, WriteDoes};

use crate::memory::{make_room, note_change, now_times};
use crate::trimming::{trim_first, trim_to};
use crate::volume::Volume;
use std::alloc::Global;
use treefs_byte_plans::{
    Kept, SizePlan, WriteStep, WritingRun, kept_up_to, plan_truncate, plan_write, trim_to_truncate,
    trim_to_write,
};
use treefs_edits::memory::forget_touch;
use treefs_edits::{Planned, carry_out};
use treefs_format::Kind;
use treefs_lookup::{Found, find_inode};
use treefs_model::Fault;
use xn_state::Store;

/// What is kept of an inode where it is trimmed; nothing is trimmed of a directory.
fn kept_in(found: &Found) -> Option<Kept>
    ensures kept { result ≡ kept_in found.now found.now.kind }
    ensures few { HasFewLeaves result }
{
    match found.kind {
        Kind::Directory => None,
        Kind::File | Kind::SymbolicLink => Some(kept_up_to(found.block, found.fields.size)),
    }
}

impl Volume {
    /// Carries out a plan that writes some bytes of an inode, and answers how many.
    fn take<S: Store, P: Planned>(
        &mut self,
        alloc: Global,
        store: &mut S,
        number: u32,
        plan: &P,
        taken: usize,
        is_dated: bool,
    ) -> Result<usize, Fault>
        ensures types { S.types_of store.new ≡ S.types_of store.old }
        ensures takes { Takes (S.types_of store.old) (S.state_of store.old) (S.state_of store.new) self.old self.new number (P.plan plan.now) taken is_dated
            result }
    {
        let fs = self.tree.fs;
        let memory = &mut self.memory;
        make_room(&mut memory.touched, 1)?;
        carry_out(alloc, store, fs, plan)?;
        let now = now_times(memory);
        note_change(&mut memory.touched, now, number, is_dated);
        Ok(taken)
    }

    /// Carries out a step of a write.
    fn take_step<S: Store>(
        &mut self,
        alloc: Global,
        store: &mut S,
        number: u32,
        bytes: &[u8],
        step: WriteStep,
    ) -> Result<usize, Fault>
        requires { IsWithin step }
        ensures types { S.types_of store.new ≡ S.types_of store.old }
        ensures does { StepDoes (S.types_of store.old) (S.state_of store.old) (S.state_of store.new) self.old self.new number bytes.now
            (Ok (step_of step.entry)) result }
    {
        match step {
            WriteStep::Nothing => Ok(0),
            WriteStep::Content(plan) => {
                self.take(alloc, store, number, &plan, plan.bytes.len(), true)
            }
            WriteStep::Leaf(plan) => {
                let is_dated = plan.size.is_some();
                self.take(alloc, store, number, &plan, plan.bytes.len(), is_dated)
            }
            WriteStep::Run(plan) => {
                let is_dated = plan.size.is_some();
                let writing = WritingRun { plan, bytes };
                self.take(alloc, store, number, &writing, plan.taken, is_dated)
            }
        }
    }

    /// Writes bytes of a file or a symbolic link from one on: a piece of them, and answers how many that are. So who has more calls again. The faults are, in
    /// this order, `NoEntry`, `IsDir`, `TooLarge` where all bytes would stand past the greatest size; where the size rises and something stands past it,
    /// those of `trim`; then `Full`, `NoSpace`. `Kernel` comes for want of memory, or where the store refuses an edit.
    pub fn write_some<S: Store>(
        &mut self,
        alloc: Global,
        store: &mut S,
        number: u32,
        at: u64,
        bytes: &[u8],
    ) -> Result<usize, Fault>
        ensures types { S.types_of store.new ≡ S.types_of store.old }
        ensures does { WriteDoes (S.types_of store.old) (S.state_of store.old) (S.state_of store.new) self.old self.new number at bytes.now result }
    {
        let tree = self.tree;
        let kept = trim_to_write(store, tree, number, at, bytes.len());
        if let Err(fault) = trim_first(alloc, store, tree, &self.memory, kept) {
            return Err(fault);
        }
        match plan_write(store, tree, &self.memory, number, at, bytes) {
            Ok(step) => self.take_step(alloc, store, number, bytes, step),
            Err(fault) => Err(fault),
        }
    }

    /// Trims a file or a symbolic link: what stands past its size goes. Of a directory nothing does. The faults are `NoEntry`, and `Full`, before all
    /// or between two steps: each step goes by what the blocks say, so it is called again. `Kernel` comes for want of memory, or where the store
    /// refuses an edit.
    pub fn trim<S: Store>(&self, alloc: Global, store: &mut S, number: u32) -> Result<(), Fault>
        ensures types { S.types_of store.new ≡ S.types_of store.old }
        ensures does { TrimCallDoes (S.types_of store.old) (S.state_of store.old) (S.state_of store.new) self.now number result }
    {
        let tree = self.tree;
        let found = find_inode(store, tree.fs, tree.top, number)?;
        trim_first(alloc, store, tree, &self.memory, kept_in(&found))
    }

    /// Gives up an inode that nothing points to, of which this is the block: its content goes, and then its block. Answers whether the block is free:
    /// else something of it is pending still, and once it is written the call is made again. The faults are those of `trim`.
    pub fn give_up<S: Store>(&self, alloc: Global, store: &mut S, inode: u32) -> Result<bool, Fault>
        ensures types { S.types_of store.new ≡ S.types_of store.old }
        ensures does { GiveUpDoes (S.types_of store.old) (S.state_of store.old) (S.state_of store.new) self.now inode result }
    {
        let tree = self.tree;
        let kept = Kept {
            inode,
            keep: 0,
            size: None,
        };
        if let Err(fault) = trim_to(alloc, store, tree, &self.memory, kept) {
            return Err(fault);
        }
        let forgot = store.forget(tree.fs, inode);
        Ok(forgot.is_ok())
    }

    /// Sets the size of an inode, and trims what stands past it then.
    fn set_size<S: Store>(
        &mut self,
        alloc: Global,
        store: &mut S,
        number: u32,
        plan: SizePlan,
    ) -> Result<(), Fault>
        requires { HasFewLeaves plan.trimmed_then }
        ensures types { S.types_of store.new ≡ S.types_of store.old }
        ensures does { SizeDoes (S.types_of store.old) (S.state_of store.old) (S.state_of store.new) self.old self.new number (Ok plan) result }
    {
        let tree = self.tree;
        let memory = &mut self.memory;
        if let Err(fault) = carry_out(alloc, store, tree.fs, &plan) {
            return Err(fault);
        }
        forget_touch(&mut memory.touched, number);
        trim_first(alloc, store, tree, memory, plan.trimmed_then)
    }

    /// Sets the size of a file or a symbolic link; what is new of it is zeros. The faults are, in this order, `NoEntry`, `IsDir`, `TooLarge` above the
    /// greatest size; those of `trim`, where something stands past the old size; `Full`; then those of `trim` again, where the size falls: the size is set
    /// then, and the call is made again. `Kernel` comes for want of memory, or where the store refuses an edit.
    pub fn truncate<S: Store>(
        &mut self,
        alloc: Global,
        store: &mut S,
        number: u32,
        size: u64,
    ) -> Result<(), Fault>
        ensures types { S.types_of store.new ≡ S.types_of store.old }
        ensures does { TruncateDoes (S.types_of store.old) (S.state_of store.old) (S.state_of store.new) self.old self.new number size result }
    {
        let tree = self.tree;
        let kept = trim_to_truncate(store, tree, number, size);
        if let Err(fault) = trim_first(alloc, store, tree, &self.memory, kept) {
            return Err(fault);
        }
        match plan_truncate(store, tree, &self.memory, number, size) {
            Ok(plan) => self.set_size(alloc, store, number, plan),
            Err(fault) => Err(fault),
        }
    }
}
