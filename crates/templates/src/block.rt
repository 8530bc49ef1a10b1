// A template's block: the mark 58 54, how many words the owns program has and how many the size program, one byte each,
// their words, then zeros.

ghost use Rattle.std.specs.Prelude.{◌≡◌, ◌≢◌, ◌⊎◌, ◌≤◌, Ok, Err, IsOk, IfOk, IfErr, OnOk, MatchResult};
ghost use Rattle.templates.specs.declared.fault.TemplateFault.TheVariants.{NoMemory};
ghost use Rattle.xn_model.specs.Lists.{blank};
ghost use Rattle.templates.specs.Templates.{TemplateValue, IsTemplate, template_bytes};
ghost use Rattle.templates.specs.Judged.{MakeTemplate, template_of_words};
ghost use Rattle.templates.specs.Reading.{head_of, owns_end, size_end, template_of_bytes};

use crate::code::{keep_programs, read_programs};
use crate::fault::TemplateFault;
use crate::template::Template;
use crate::words::write_words;
use arrayvec::ArrayVec;
use std::alloc::Global;
use store_types::BLOCK_LEN;
use udf_code::{MAX_WORDS, WORD_LEN, Word};

/// The first bytes of a template's block.
const MARK: [u8; 2] = [0x58, 0x54];

/// Where the words begin.
const CODE_START: usize = 4;

/// The template that a block spells, or the first of the faults in the order `BadMark`, `BadCode`, `NotVerified`,
/// `BytesAfter`. Memory is taken last, for a template alone, so `NoMemory` hides no fault of the block.
pub fn read_block(alloc: Global, block: &[u8; BLOCK_LEN]) -> Result<Template, TemplateFault>
    // The blocks of templates are accepted, and no others.
    ensures accepted { IfOk result (λ template. (block.now ≡ template_bytes template) × IsTemplate template) }
    ensures refused { IfErr result (λ fault. (fault ≡ NoMemory) ⊎ ((template : TemplateValue) → IsTemplate template → block.now ≢ template_bytes template)) }

    // Which template or which fault it is; memory is wanting for a template alone.
    ensures exact { MatchResult result
        (λ template. template_of_bytes block.now ≡ Ok template)
        (λ fault. (fault ≡ NoMemory) ⊎ (template_of_bytes block.now ≡ Err fault)) }
    ensures memory_last { IfErr result (λ fault. fault ≡ NoMemory → IsOk (template_of_bytes block.now)) }
{
    let mut owns = ArrayVec::<Word, 127>::new();
    let mut size = ArrayVec::<Word, 127>::new();
    read_code(block, &mut owns, &mut size)?;
    let Ok(template) = keep_programs(alloc, owns.as_slice(), size.as_slice()) else {
        return Err(TemplateFault::NoMemory);
    };
    Ok(template)
}

/// Leaves the words of the two programs of a template's block. No memory is taken.
fn read_code(
    block: &[u8; BLOCK_LEN],
    owns: &mut ArrayVec<Word, 127>,
    size: &mut ArrayVec<Word, 127>,
) -> Result<(), TemplateFault>
    ensures exact { MatchResult result
        (λ done. template_of_bytes block.now ≡ Ok (template_of_words owns.new.items size.new.items))
        (λ fault. template_of_bytes block.now ≡ Err fault) }
    ensures good { OnOk result (MakeTemplate owns.new.items size.new.items) }
{
    let (owns_end, size_end) = read_head(block)?;
    read_programs(
        &block[CODE_START..owns_end],
        &block[owns_end..size_end],
        owns,
        size,
    )?;
    if !is_blank(&block[size_end..]) {
        return Err(TemplateFault::BytesAfter);
    }
    Ok(())
}

/// Where the owns program's code ends and where the size program's does, by a block's first four bytes.
fn read_head(block: &[u8; BLOCK_LEN]) -> Result<(usize, usize), TemplateFault>
    ensures { MatchResult result
        (λ ends. (head_of block.now ≡ Ok tt) × (ends ≡ (owns_end block.now, size_end block.now)) × (size_end block.now ≤ 512))
        (λ fault. head_of block.now ≡ Err fault) }
{
    if &block[..2] != MARK.as_slice() {
        return Err(TemplateFault::BadMark);
    }
    let owns_count = block[2] as usize;
    let size_count = block[3] as usize;
    let count = owns_count + size_count;
    if count > MAX_WORDS {
        return Err(TemplateFault::BadCode);
    }
    let owns_end = CODE_START + WORD_LEN * owns_count;
    Ok((owns_end, owns_end + WORD_LEN * size_count))
}

/// Whether all bytes are zero.
fn is_blank(bytes: &[u8]) -> bool
    ensures { result ≡ blank bytes.now }
{
    bytes.iter().all(|byte| *byte == 0)
}

/// The block that spells a template.
pub fn write_block(template: &Template) -> [u8; BLOCK_LEN]
    ensures bytes { result ≡ template_bytes template.now }
    ensures template { IsTemplate template.now }
{
    let owns = template.owns().words();
    let size = template.size().words();
    let mut block = [0u8; BLOCK_LEN];
    block[0] = MARK[0];
    block[1] = MARK[1];
    block[2] = owns.len() as u8;
    block[3] = size.len() as u8;
    write_words(owns, &mut block[CODE_START..]);
    write_words(size, &mut block[CODE_START + WORD_LEN * owns.len()..]);
    block
}
