ghost use Rattle.std.specs.Prelude.{◌≡◌, ℕ, List, Option, map, position, IfOk, IfSome, IfNone};
ghost use Rattle.std.specs.List.{AllZip};
ghost use Rattle.xn_model.specs.Calls as model;
ghost use Rattle.script.specs.Edits.{SpellsPatch, SpellsAdd, SpellsDrop, SpellsEdit};
ghost use Rattle.script.specs.Cuts.{CutsAfter, CutsBefore, begins_with};

use crate::change::{parse_add, parse_drop, parse_patch};
use crate::number::parse_number;
use edit_list::{Edit, EditId, Patch};
use std::alloc::{AllocError, Global};

/// The patches that the words spell, one a word.
fn parse_patches(alloc: Global, words: &[&str]) -> Result<Option<Vec<Patch>>, AllocError>
    ensures some { IfOk result (λ read. IfSome read (λ patches. AllZip SpellsPatch (map (λ word. word.now) words.now) patches.items)) }
    ensures none { IfOk result (λ read. IfNone read ((patches : List model.Patch) → ¬ AllZip SpellsPatch (map (λ word. word.now) words.now) patches)) }
{
    let mut patches = Vec::with_capacity(alloc, words.len())?;
    for word in words {
        let Some(patch) = parse_patch(alloc, word)? else {
            return Ok(None);
        };
        patches.push(patch)?;
    }
    Ok(Some(patches))
}

/// The blocks to add that the words spell, one a word, each with its type.
fn parse_adds(alloc: Global, words: &[&str]) -> Result<Option<Vec<(u32, u32)>>, AllocError>
    ensures some { IfOk result (λ read. IfSome read (λ adds. AllZip SpellsAdd (map (λ word. word.now) words.now) adds.items)) }
    ensures none { IfOk result (λ read. IfNone read ((adds : List (ℕ × ℕ)) → ¬ AllZip SpellsAdd (map (λ word. word.now) words.now) adds)) }
{
    let mut adds = Vec::with_capacity(alloc, words.len())?;
    for word in words {
        let Some(add) = parse_add(word) else {
            return Ok(None);
        };
        adds.push(add)?;
    }
    Ok(Some(adds))
}

/// The blocks to drop that the words spell, one a word.
fn parse_drops(alloc: Global, words: &[&str]) -> Result<Option<Vec<u32>>, AllocError>
    ensures some { IfOk result (λ read. IfSome read (λ drops. AllZip SpellsDrop (map (λ word. word.now) words.now) drops.items)) }
    ensures none { IfOk result (λ read. IfNone read ((drops : List ℕ) → ¬ AllZip SpellsDrop (map (λ word. word.now) words.now) drops)) }
{
    let mut drops = Vec::with_capacity(alloc, words.len())?;
    for word in words {
        let Some(block) = parse_drop(word) else {
            return Ok(None);
        };
        drops.push(block)?;
    }
    Ok(Some(drops))
}

/// The entry that an edit waits for, where the first word begins with `@`, and the words behind it; `None` where that word
/// spells no number.
fn cut_after<'a, 'b>(words: &'a [&'b str]) -> Option<(Option<EditId>, &'a [&'b str])>
    ensures some { IfSome result (λ cut. CutsAfter (map (λ word. word.now) words.now) cut.0 (map (λ word. word.now) cut.1.now)) }
    ensures none { IfNone result ((after : Option ℕ) (rest : List (List ℕ)) → ¬ CutsAfter (map (λ word. word.now) words.now) after rest) }
{
    let [first, rest @ ..] = words else {
        return Some((None, words));
    };
    let Some(number) = first.strip_prefix('@') else {
        return Some((None, words));
    };
    let number = parse_number(number, u64::MAX)?;
    Some((Some(EditId(number)), rest))
}

/// Whether a word begins with this byte.
fn begins_with(word: &str, byte: u8) -> bool
    ensures { result ≡ begins_with byte word.now }
{
    match word.as_bytes() {
        [] => false,
        [first, ..] => *first == byte,
    }
}

/// The place of the first word that begins with this byte.
fn place_of(words: &[&str], byte: u8) -> Option<usize>
    ensures { result ≡ position (λ word. begins_with byte word.now) words.now }
{
    words.iter().position(|word| begins_with(word, byte))
}

/// The words before the first that begins with this byte, and the words from there on.
fn cut_before<'a, 'b>(words: &'a [&'b str], byte: u8) -> (&'a [&'b str], &'a [&'b str])
    ensures { CutsBefore byte (map (λ word. word.now) words.now) (map (λ word. word.now) result.0.now) (map (λ word. word.now) result.1.now) }
{
    let place = place_of(words, byte).unwrap_or(words.len());
    words.split_at(place)
}

/// The edit that the words spell behind those of its file system and its block.
pub fn parse_edit(alloc: Global, words: &[&str]) -> Result<Option<Edit>, AllocError>
    ensures some { IfOk result (λ read. IfSome read (SpellsEdit (map (λ word. word.now) words.now))) }
    ensures none { IfOk result (λ read. IfNone read ((edit : model.Edit) → ¬ SpellsEdit (map (λ word. word.now) words.now) edit)) }
{
    let Some((after, rest)) = cut_after(words) else {
        return Ok(None);
    };
    let (front, drops) = cut_before(rest, b'-');
    let (patches, adds) = cut_before(front, b'+');
    if patches.is_empty() {
        return Ok(None);
    }
    let Some(patches) = parse_patches(alloc, patches)? else {
        return Ok(None);
    };
    let Some(adds) = parse_adds(alloc, adds)? else {
        return Ok(None);
    };
    let Some(drops) = parse_drops(alloc, drops)? else {
        return Ok(None);
    };
    Ok(Some(Edit {
        patches,
        adds,
        drops,
        after,
    }))
}
