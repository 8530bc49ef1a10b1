// A record is made in a directory.

ghost use Rattle.std.specs.Prelude.{◌≡◌, ◌∷◌, ◌++◌, [], ◌≤◌, length, IfOk, Some};
ghost use Rattle.treefs_edits.specs.Missing.{path_acts};
ghost use Rattle.treefs_model.specs.Acts.{record_act};
ghost use Rattle.treefs_name_plans.specs.Additions.{addition_acts, addition_starts, bucket_path, last_block, rewriting};

use crate::addition::{Addition, NewBucket};
use std::alloc::{AllocError, Global};
use treefs_edits::missing::{missing_path, push_path_acts, push_path_starts};
use treefs_edits::{Act, Start, kinds};
use treefs_format::inodes::CONTENT;

/// The last of the blocks that were begun; 0 where none was.
pub(crate) fn last_block(begun: &[u32]) -> u32
    ensures { result ≡ last_block begun.now }
{
    match begun {
        [.., last] => *last,
        [] => 0,
    }
}

impl Addition {
    /// Adds the blocks that are begun for it.
    pub(crate) fn push_starts(&self, starts: &mut Vec<Start>) -> Result<(), AllocError>
        ensures { IfOk result (λ _. starts.new.items ≡ starts.old.items ++ addition_starts self.now) }
    {
        match self {
            Addition::Behind(..) | Addition::Rewritten(..) => Ok(()),
            Addition::Made(made) => {
                let offsets = missing_path(made.leaf, made.missing);
                push_path_starts(starts, made.node_type, offsets.as_slice())
            }
        }
    }

    /// Adds the act by which a bucket is first rewritten.
    pub(crate) fn push_rewriting(
        &self,
        alloc: Global,
        acts: &mut Vec<Act>,
    ) -> Result<(), AllocError>
        ensures { IfOk result (λ _. acts.new.items ≡ acts.old.items ++ rewriting self.now) }
    {
        if let Addition::Rewritten(old) = self {
            let start = if old.in_inode { CONTENT } else { 0 };
            acts.push(kinds::rewrite(alloc, old.block, start, &old.bytes[start..])?)?;
        }
        Ok(())
    }

    /// Adds the acts that make the record, behind all of a block.
    pub(crate) fn push_acts(
        &self,
        alloc: Global,
        acts: &mut Vec<Act>,
        begun: &[u32],
        number: u32,
        name: &[u8],
        behind: u32,
    ) -> Result<(), AllocError>
        requires { length name.now ≤ 255 }
        ensures { IfOk result (λ _. acts.new.items ≡ acts.old.items ++ addition_acts self.now begun.now (record { number = number; name = name.now }) behind) }
    {
        let (block, offset) = match self {
            Addition::Behind(block, offset) => (*block, *offset),
            Addition::Rewritten(old) => (old.block, old.offset),
            Addition::Made(made) => {
                made.push_acts(alloc, acts, begun)?;
                (last_block(begun), 0)
            }
        };
        push_record(alloc, acts, block, offset, number, name, behind)
    }
}

impl NewBucket {
    /// Adds the acts by which it is attached, with the nodes of its path.
    fn push_acts(&self, alloc: Global, acts: &mut Vec<Act>, begun: &[u32]) -> Result<(), AllocError>
        ensures { IfOk result (λ _. acts.new.items
            ≡ acts.old.items ++ path_acts self.now.node_type self.now.owner (bucket_path self.now) begun.now) }
    {
        let offsets = missing_path(self.leaf, self.missing);
        push_path_acts(
            alloc,
            acts,
            self.node_type,
            self.owner,
            offsets.as_slice(),
            begun,
        )
    }
}

/// Adds the act that makes a record, behind all of a block.
fn push_record(
    alloc: Global,
    acts: &mut Vec<Act>,
    block: u32,
    offset: u16,
    number: u32,
    name: &[u8],
    behind: u32,
) -> Result<(), AllocError>
    requires { length name.now ≤ 255 }
    ensures { IfOk result (λ _. acts.new.items
        ≡ acts.old.items ++ record_act block offset (record { number = number; name = name.now }) (Some behind) ∷ []) }
{
    acts.push(kinds::make_record(alloc, block, offset, number, name, Some(behind))?)?;
    Ok(())
}
