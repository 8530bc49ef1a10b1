// Blocks that a call begins before its first edit, and those that are forgotten again.

ghost use Rattle.std.specs.Prelude.{◌≡◌, ◌⊎◌, [], Ok, Err, IfOk, IfErr};
ghost use Rattle.treefs_edits.specs.Plans.{Begins, LacksMemory, forgotten, start_fault};

use edit_list::Fs;
use std::alloc::{AllocError, Global};
use store_types::{BLOCK_LEN, Refusal};
use treefs_model::Fault;
use xn_state::Store;

/// A block that is to be begun.
#[derive(Drop)]
pub struct Start {
    /// Its type.
    pub ty: u32,
    /// Its first bytes, which point to nothing.
    pub bytes: [u8; BLOCK_LEN],
}

/// Why a block is not begun: `NoSpace` where no block is free, else the kernel's refusal.
pub fn start_fault(reason: Refusal) -> Fault
    ensures { result ≡ start_fault reason }
{
    match reason {
        Refusal::NoSpace => Fault::NoSpace,
        reason => Fault::Kernel(reason),
    }
}

/// Forgets those of some blocks that nothing names; the others stay as they are.
pub fn forget_all<S: Store>(store: &mut S, fs: Fs, blocks: &[u32])
    ensures types { S.types_of store.new ≡ S.types_of store.old }
    ensures forgotten { S.state_of store.new ≡ forgotten (S.types_of store.old) fs.number blocks.now (S.state_of store.old) }
{
    for block in blocks {
        let _ = store.forget(fs, *block);
    }
}

/// What a call answers that has no memory.
pub fn lacks_memory(_: AllocError) -> Fault
    ensures { result ≡ Fault.Kernel Refusal.NoMemory }
{
    Fault::Kernel(Refusal::NoMemory)
}

/// Begins blocks, all or none, and answers their numbers in their order. Where one is refused, those that were begun before it are
/// forgotten. `NoSpace` comes where no block is free; all other faults are the kernel's.
pub fn begin_all<S: Store>(
    alloc: Global,
    store: &mut S,
    fs: Fs,
    starts: &[Start],
) -> Result<Vec<u32>, Fault>
    ensures types { S.types_of store.new ≡ S.types_of store.old }
    ensures ok { IfOk result (λ begun. Begins (S.types_of store.old) fs.number starts.now [] (S.state_of store.old) (S.state_of store.new) (Ok begun.items)) }
    ensures err { IfErr result (λ fault. LacksMemory (S.state_of store.old) (S.state_of store.new) fault
        ⊎ Begins (S.types_of store.old) fs.number starts.now [] (S.state_of store.old) (S.state_of store.new) (Err fault)) }
{
    let mut begun = Vec::with_capacity(alloc, starts.len()).map_err(lacks_memory)?;
    for start in starts {
        match store.init(fs, start.ty, &start.bytes) {
            Ok((block, _)) => begun.push(block).unwrap(),
            Err(reason) => {
                forget_all(store, fs, &begun);
                return Err(start_fault(reason));
            }
        }
    }
    Ok(begun)
}
