ghost use Rattle.std.specs.Prelude.{◌≡◌, ℕ, IfOk, IfSome, IfNone};
ghost use Rattle.xn_model.specs.Calls as model;
ghost use Rattle.script.specs.Edits.{SpellsPatch, SpellsAdd, SpellsDrop};

use crate::hex::parse_bytes;
use crate::number::parse_u32;
use edit_list::Patch;
use std::alloc::{AllocError, Global};

/// The patch that a word spells: an offset, `=` and pairs of digits.
pub fn parse_patch(alloc: Global, word: &str) -> Result<Option<Patch>, AllocError>
    ensures some { IfOk result (λ read. IfSome read (SpellsPatch word.now)) }
    ensures none { IfOk result (λ read. IfNone read ((patch : model.Patch) → ¬ SpellsPatch word.now patch)) }
{
    let Some((offset, digits)) = word.split_once('=') else {
        return Ok(None);
    };
    let Some(offset) = parse_u32(offset) else {
        return Ok(None);
    };
    let Ok(offset) = u16::try_from(offset) else {
        return Ok(None);
    };
    let Some(bytes) = parse_bytes(alloc, digits)? else {
        return Ok(None);
    };
    Ok(Some(Patch { offset, bytes }))
}

/// The block to add that a word spells, with its type: `+`, the block, `:` and the type.
pub fn parse_add(word: &str) -> Option<(u32, u32)>
    ensures some { IfSome result (SpellsAdd word.now) }
    ensures none { IfNone result ((add : ℕ × ℕ) → ¬ SpellsAdd word.now add) }
{
    let (block, ty) = word.strip_prefix('+')?.split_once(':')?;
    Some((parse_u32(block)?, parse_u32(ty)?))
}

/// The block to drop that a word spells: `-` and the block.
pub fn parse_drop(word: &str) -> Option<u32>
    ensures some { IfSome result (SpellsDrop word.now) }
    ensures none { IfNone result ((block : ℕ) → ¬ SpellsDrop word.now block) }
{
    parse_u32(word.strip_prefix('-')?)
}
