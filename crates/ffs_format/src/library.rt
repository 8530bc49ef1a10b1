// The templates of the library's file system: type 3 is a root block, type 4 a block of inodes and type 5 a block of
// pointers to data.

ghost use Rattle.std.specs.Prelude.{◌≡◌, ◌↔◌, ◌<◌, ◌≤◌, ◌-◌, ◌++◌, length, slice_get, Some, Ok, IsOk, IfOk, IsTrue};
ghost use Rattle.xn_model.specs.BareDisks.{zeros};
ghost use Rattle.templates.specs.Reading.{template_of_bytes};
ghost use Rattle.ffs_format.specs.Library.{file_system_templates};

use std::alloc::{AllocError, Global};
use store_types::BLOCK_LEN;
use templates::law::{blocks_are_templates, templates_are_read};
use templates::{Template, TemplateFault, read_block, write_block};

/// The start of the block that spells the template of a root block, which has 16 pointers to blocks of inodes. The other
/// bytes of the block are zero.
const ROOT: [u8; 40] = [
    0x58, 0x54, 0x08, 0x01, // 8 words, 1 word
    0x01, 0x01, 0x04, 0x00, // SET 1 4
    0x12, 0x02, 0x10, 0x00, // FOR 2 16
    0x05, 0x03, 0x02, 0x01, // MUL 3 2 1
    0x0c, 0x04, 0x03, 0x00, // LD4 4 3
    0x0e, 0x00, 0x04, 0x00, // IFLT 0 4
    0x0d, 0x04, 0x01, 0x00, // EMIT 4 1
    0x11, 0x00, 0x00, 0x00, // END
    0x11, 0x00, 0x00, 0x00, // END
    0x01, 0x00, 0x40, 0x00, // SET 0 64
];

/// The same of a block of 8 inodes, each of which has 12 pointers to data and one to a block of pointers.
const INODES: [u8; 100] = [
    0x58, 0x54, 0x17, 0x01, // 23 words, 1 word
    0x01, 0x01, 0x40, 0x00, // SET 1 64
    0x01, 0x02, 0x04, 0x00, // SET 2 4
    0x01, 0x03, 0x08, 0x00, // SET 3 8
    0x01, 0x04, 0x02, 0x00, // SET 4 2
    0x01, 0x05, 0x05, 0x00, // SET 5 5
    0x01, 0x06, 0x38, 0x00, // SET 6 56
    0x12, 0x07, 0x08, 0x00, // FOR 7 8
    0x05, 0x08, 0x07, 0x01, // MUL 8 7 1
    0x03, 0x09, 0x08, 0x03, // ADD 9 8 3
    0x12, 0x0a, 0x0c, 0x00, // FOR 10 12
    0x05, 0x0b, 0x0a, 0x02, // MUL 11 10 2
    0x03, 0x0b, 0x0b, 0x09, // ADD 11 11 9
    0x0c, 0x0c, 0x0b, 0x00, // LD4 12 11
    0x0e, 0x00, 0x0c, 0x00, // IFLT 0 12
    0x0d, 0x0c, 0x04, 0x00, // EMIT 12 4
    0x11, 0x00, 0x00, 0x00, // END
    0x11, 0x00, 0x00, 0x00, // END
    0x03, 0x09, 0x08, 0x06, // ADD 9 8 6
    0x0c, 0x0c, 0x09, 0x00, // LD4 12 9
    0x0e, 0x00, 0x0c, 0x00, // IFLT 0 12
    0x0d, 0x0c, 0x05, 0x00, // EMIT 12 5
    0x11, 0x00, 0x00, 0x00, // END
    0x11, 0x00, 0x00, 0x00, // END
    0x01, 0x00, 0x00, 0x02, // SET 0 512
];

/// The same of a block of 128 pointers to data.
const POINTERS: [u8; 44] = [
    0x58, 0x54, 0x09, 0x01, // 9 words, 1 word
    0x01, 0x01, 0x04, 0x00, // SET 1 4
    0x01, 0x02, 0x02, 0x00, // SET 2 2
    0x12, 0x03, 0x80, 0x00, // FOR 3 128
    0x05, 0x04, 0x03, 0x01, // MUL 4 3 1
    0x0c, 0x05, 0x04, 0x00, // LD4 5 4
    0x0e, 0x00, 0x05, 0x00, // IFLT 0 5
    0x0d, 0x05, 0x02, 0x00, // EMIT 5 2
    0x11, 0x00, 0x00, 0x00, // END
    0x11, 0x00, 0x00, 0x00, // END
    0x01, 0x00, 0x00, 0x02, // SET 0 512
];

/// The block that starts with these bytes; the other bytes are zero.
fn block_of(start: &[u8]) -> [u8; BLOCK_LEN]
    requires { length start.now ≤ 512 }
    ensures { result ≡ start.now ++ zeros (512 - length start.now) }
{
    let mut block = [0u8; BLOCK_LEN];
    block[..start.len()].copy_from_slice(start);
    block
}

/// The template of a block that starts with these bytes, where it spells one.
fn known_template(alloc: Global, start: &[u8]) -> Result<Template, AllocError>
    requires short { length start.now ≤ 512 }
    requires right { IsOk (template_of_bytes (start.now ++ zeros (512 - length start.now))) }
    ensures { IfOk result (λ template. template_of_bytes (start.now ++ zeros (512 - length start.now)) ≡ Ok template) }
{
    match read_block(alloc, &block_of(start)) {
        Ok(template) => Ok(template),
        Err(TemplateFault::NoMemory) => Err(AllocError),
        Err(_) => unreachable!(),
    }
}

/// Whether a template is the one of a block that starts with these bytes.
fn is_spelled(template: &Template, start: &[u8]) -> bool
    requires { length start.now ≤ 512 }
    ensures { IsTrue result ↔ (template_of_bytes (start.now ++ zeros (512 - length start.now)) ≡ Ok template.now) }
{
    templates_are_read();
    blocks_are_templates();
    write_block(template) == block_of(start)
}

/// Whether a template is that of the library's type at this place: 0 a root block, 1 a block of inodes, 2 a block of pointers. It
/// takes no memory.
pub fn is_library_template(template: &Template, place: usize) -> bool
    requires { place < 3 }
    ensures { IsTrue result ↔ (slice_get file_system_templates place ≡ Some template.now) }
{
    match place {
        0 => is_spelled(template, &ROOT),
        1 => is_spelled(template, &INODES),
        _ => is_spelled(template, &POINTERS),
    }
}

/// The three templates of the library file system, in the order of their types, which are 3 to 5. `Err` comes only for want of memory.
pub fn templates(alloc: Global) -> Result<Vec<Template>, AllocError>
    ensures { IfOk result (λ templates. templates.items ≡ file_system_templates) }
{
    let root = known_template(alloc, &ROOT)?;
    let inodes = known_template(alloc, &INODES)?;
    let pointers = known_template(alloc, &POINTERS)?;
    Ok(Vec::from_array(alloc, [root, inodes, pointers])?)
}
