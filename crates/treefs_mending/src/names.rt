// The names of a directory.

ghost use Rattle.std.specs.Prelude.{◌≡◌, ◌++◌, ◌∷◌, [], IfOk};
ghost use Rattle.treefs_lookup.specs.Readable.{readable};
ghost use Rattle.treefs_mending.specs.Names.{live_names, names_in};

use edit_list::Fs;
use std::alloc::AllocError;
use treefs_format::Records;
use treefs_lookup::{Bucket, Sought, next_bucket};
use xn_state::Store;

/// A name of a directory: its live record.
#[derive(Clone, Copy, Debug)]
pub struct Name {
    /// The block of its bucket.
    pub block: u32,
    /// The byte of the block at which the record begins.
    pub offset: u16,
    /// The number to which it leads.
    pub number: u32,
}

/// Adds a name. `Err` comes only for want of memory.
pub(crate) fn push_name(names: &mut Vec<Name>, name: Name) -> Result<(), AllocError>
    ensures { IfOk result (λ _. names.new.items ≡ names.old.items ++ name ∷ []) }
{
    names.push(name)?;
    Ok(())
}

/// Adds the names of a bucket.
fn push_bucket(names: &mut Vec<Name>, bucket: &Bucket) -> Result<(), AllocError>
    ensures { IfOk result (λ _. names.new.items ≡ names.old.items ++ names_in bucket.now.block bucket.now.start bucket.now.bytes.now) }
{
    for record in Records::new(bucket.bytes) {
        if record.number != 0 {
            let name = Name {
                block: bucket.block,
                offset: (bucket.start + record.offset) as u16,
                number: record.number,
            };
            push_name(names, name)?;
        }
    }
    Ok(())
}

/// Adds the names of the directory with this inode block, bucket by bucket. `Err` comes only for want of memory.
pub(crate) fn push_names<S: Store>(
    names: &mut Vec<Name>,
    store: &S,
    fs: Fs,
    inode: u32,
) -> Result<(), AllocError>
    ensures { IfOk result (λ _. names.new.items ≡ names.old.items ++ live_names (readable (S.state_of store.now) fs.number) inode) }
{
    let mut next = 0;
    while let Some(bucket) = next_bucket(store, fs, inode, Sought::Live, next) {
        push_bucket(names, &bucket)?;
        next = bucket.number + 1;
    }
    Ok(())
}
